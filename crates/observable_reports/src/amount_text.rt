// How amounts are shown.
ghost use Rattle.std.specs.Prelude.{◌≡◌, ◌<◌, ◌≤ℤ◌, ◌<ℤ◌, IsTrue, Some, pos, neg_ℤ, unsigned_abs};
ghost use Rattle.observable_reports.specs.AmountTexts as spec;
ghost use Rattle.observable_reports.specs.AmountTexts.{text_of};

use observables::{Amount, Fixed, Format, Places, Scientific};
use std::fmt;

/// What an amount is shown as.
#[derive(Clone, Copy)]
pub enum ShownAmount {
    Scientific(Scientific),
    Fixed(Fixed),
    /// A mantissa, a power of ten and a divisor: no word amounts to such a number.
    Fraction(Amount),
}

/// What an amount is shown as, by how its words count.
pub fn shown_as(format: Format, amount: Amount) -> ShownAmount
    ensures { result ≡ spec.shown_as format amount }
{
    if amount.divisor != 1 {
        return rounded(amount);
    }
    match format {
        Format::Float => scientific(amount),
        Format::Unsigned | Format::Signed => fixed(amount),
    }
}

fn scientific(amount: Amount) -> ShownAmount
    ensures { result ≡ spec.scientific_of amount }
{
    if is_float(amount) {
        ShownAmount::Scientific(Scientific::of(
            amount.mantissa.unsigned_abs() as u16,
            amount.exponent,
        ))
    } else {
        ShownAmount::Fraction(amount)
    }
}

// Whether a float can be that amount.
fn is_float(amount: Amount) -> bool
    ensures value { result ≡ spec.is_float amount }
    ensures not_negative { IsTrue result → pos 0 ≤ℤ amount.mantissa }
    ensures few { IsTrue result → amount.mantissa <ℤ pos 2048 }
    ensures low { IsTrue result → neg_ℤ (pos 24) ≤ℤ amount.exponent }
    ensures high { IsTrue result → amount.exponent ≤ℤ pos 7 }
{
    0 <= amount.mantissa && amount.mantissa < 2048 && -24 <= amount.exponent && amount.exponent <= 7
}

fn fixed(amount: Amount) -> ShownAmount
    ensures { result ≡ spec.fixed_of amount }
{
    match places_of(amount.exponent) {
        Some(places) => ShownAmount::Fixed(Fixed {
            mantissa: amount.mantissa,
            places,
        }),
        None => ShownAmount::Fraction(amount),
    }
}

// How many digits stand after the point.
fn places_of(exponent: i8) -> Option<Places>
    ensures { result ≡ spec.places_of exponent }
{
    if 0 < exponent {
        None
    } else {
        places_by(exponent.unsigned_abs())
    }
}

fn places_by(digits: u8) -> Option<Places>
    ensures { result ≡ spec.places_by digits }
{
    match digits {
        0 => Some(Places::Zero),
        1 => Some(Places::One),
        2 => Some(Places::Two),
        3 => Some(Places::Three),
        4 => Some(Places::Four),
        6 => Some(Places::Six),
        8 => Some(Places::Eight),
        _ => None,
    }
}

// A number that has no end in decimal, rounded down to thousandths.
fn rounded(amount: Amount) -> ShownAmount
    ensures { result ≡ spec.rounded_of amount }
{
    if is_small(amount) {
        ShownAmount::Fixed(Fixed {
            mantissa: (amount.mantissa * 1_000).div_euclid(i64::from(amount.divisor)),
            places: Places::Three,
        })
    } else {
        ShownAmount::Fraction(amount)
    }
}

// Whether a number without a power of ten is shared, and not too large to be counted in thousandths.
fn is_small(amount: Amount) -> bool
    ensures value { result ≡ spec.is_small amount }
    ensures some { IsTrue result → 0 < amount.divisor }
    ensures few { IsTrue result → unsigned_abs amount.mantissa < 1000000000000 }
{
    0 < amount.divisor
        && amount.exponent.unsigned_abs() == 0
        && amount.mantissa.unsigned_abs() < 1_000_000_000_000
}

impl fmt::Display for ShownAmount {
    ghost output = { λ shown. Some (text_of shown) };

    #[tactic(auto, unfolding(crate::specs::AmountTexts::text_of))]
    fn fmt<W: fmt::Write>(&self, f: &mut fmt::Formatter<W>) -> fmt::Result {
        match self {
            ShownAmount::Scientific(number) => write!(f, "{number}"),
            ShownAmount::Fixed(number) => write!(f, "{number}"),
            ShownAmount::Fraction(amount) => {
                let (mantissa, exponent, divisor) = (
                    amount.mantissa,
                    amount.exponent,
                    amount.divisor,
                );
                write!(f, "{mantissa}e{exponent}/{divisor}")
            }
        }
    }
}
