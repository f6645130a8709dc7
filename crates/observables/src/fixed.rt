// Decimal fractions as text.
ghost use Rattle.std.specs.Prelude.{◌≡◌, ◌<◌, Some};
ghost use Rattle.observables.specs.Fixed.{eight_digits, fixed, four_digits, minus_of, six_digits, three_digits};

use std::fmt;

/// How many digits stand after the point.
#[derive(Clone, Copy, Debug, PartialEq, Eq)]
pub enum Places {
    Zero,
    One,
    Two,
    Three,
    Four,
    Six,
    Eight,
}

/// A decimal fraction: so many of the units of its last place. Shown with all its places: `-0.50`.
#[derive(Clone, Copy, Debug, PartialEq, Eq)]
pub struct Fixed {
    pub mantissa: i64,
    pub places: Places,
}

impl fmt::Display for Fixed {
    ghost output = { λ shown. Some (fixed shown.mantissa shown.places) };

    #[tactic(auto, unfolding(crate::specs::Fixed::fixed, crate::specs::Fixed::size_text))]
    fn fmt<W: fmt::Write>(&self, f: &mut fmt::Formatter<W>) -> fmt::Result {
        let minus = minus(self.mantissa);
        let size = self.mantissa.unsigned_abs();
        match self.places {
            Places::Zero => write!(f, "{minus}{size}"),
            Places::One => {
                let (whole, last) = (size / 10, size % 10);
                write!(f, "{minus}{whole}.{last}")
            }
            Places::Two => {
                let (whole, first, last) = (size / 100, size / 10 % 10, size % 10);
                write!(f, "{minus}{whole}.{first}{last}")
            }
            Places::Three => {
                let (whole, rest) = (size / 1_000, ThreeDigits(size));
                write!(f, "{minus}{whole}.{rest}")
            }
            Places::Four => {
                let (whole, rest) = (size / 10_000, FourDigits(size));
                write!(f, "{minus}{whole}.{rest}")
            }
            Places::Six => {
                let (whole, rest) = (size / 1_000_000, SixDigits(size));
                write!(f, "{minus}{whole}.{rest}")
            }
            Places::Eight => {
                let (whole, rest) = (size / 100_000_000, EightDigits(size));
                write!(f, "{minus}{whole}.{rest}")
            }
        }
    }
}

fn minus(value: i64) -> &'static str
    ensures { result.now ≡ minus_of value }
{
    if value < 0 { "-" } else { "" }
}

// The last eight digits of a number.
#[derive(Clone, Copy)]
struct EightDigits(u64);

impl fmt::Display for EightDigits {
    ghost output = { λ shown. Some (eight_digits shown.0) };

    fn fmt<W: fmt::Write>(&self, f: &mut fmt::Formatter<W>) -> fmt::Result {
        let (high, low) = (FourDigits(self.0 / 10_000), FourDigits(self.0));
        write!(f, "{high}{low}")
    }
}

// The last four digits of a number.
#[derive(Clone, Copy)]
struct FourDigits(u64);

impl fmt::Display for FourDigits {
    ghost output = { λ shown. Some (four_digits shown.0) };

    #[tactic(auto, unfolding(crate::specs::Fixed::four_digits))]
    fn fmt<W: fmt::Write>(&self, f: &mut fmt::Formatter<W>) -> fmt::Result {
        let (first, second) = (self.0 / 1_000 % 10, self.0 / 100 % 10);
        let (third, last) = (self.0 / 10 % 10, self.0 % 10);
        write!(f, "{first}{second}{third}{last}")
    }
}

// The last six digits of a number.
#[derive(Clone, Copy)]
struct SixDigits(u64);

impl fmt::Display for SixDigits {
    ghost output = { λ shown. Some (six_digits shown.0) };

    fn fmt<W: fmt::Write>(&self, f: &mut fmt::Formatter<W>) -> fmt::Result {
        let (high, low) = (ThreeDigits(self.0 / 1_000), ThreeDigits(self.0));
        write!(f, "{high}{low}")
    }
}

// The last three digits of a number.
#[derive(Clone, Copy)]
struct ThreeDigits(u64);

impl fmt::Display for ThreeDigits {
    ghost output = { λ shown. Some (three_digits shown.0) };

    #[tactic(auto, unfolding(crate::specs::Fixed::three_digits))]
    fn fmt<W: fmt::Write>(&self, f: &mut fmt::Formatter<W>) -> fmt::Result {
        let (first, second, last) = (self.0 / 100 % 10, self.0 / 10 % 10, self.0 % 10);
        write!(f, "{first}{second}{last}")
    }
}
