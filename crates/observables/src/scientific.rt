// Exact numbers as text.
ghost use Rattle.std.specs.Prelude.{◌≡◌, ◌<◌, ◌≤◌, Some};
ghost use Rattle.observables.specs.Scientific as spec;

use std::fmt;

/// A number of eleven bits times a power of ten, shown in scientific form: `1.23e-8`.
#[derive(Clone, Copy, Debug, PartialEq, Eq)]
pub struct Scientific {
    /// Ends in no 0, unless it is 0.
    digits: u16,
    exponent: i8,
}

impl Scientific {
    ghost use Rattle.std.specs.Prelude.{◌≡◌, ◌<◌, ◌≤ℤ◌, pos, neg_ℤ};
    ghost use Rattle.observables.specs.Scientific.{IsShortest, shortest};

    /// The number `mantissa` times ten to the power `exponent`.
    pub fn of(mantissa: u16, exponent: i8) -> Scientific
        requires mantissa { mantissa < 2048 }
        requires low { neg_ℤ (pos 24) ≤ℤ exponent }
        requires high { exponent ≤ℤ pos 7 }
        ensures value { result ≡ shortest mantissa exponent }
        ensures exact { IsShortest mantissa exponent result }
    {
        let (factor, zeros) = match mantissa {
            0 => return Scientific {
                digits: 0,
                exponent: 0,
            },
            _ if mantissa % 1_000 == 0 => (1_000, 3),
            _ if mantissa % 100 == 0 => (100, 2),
            _ if mantissa % 10 == 0 => (10, 1),
            _ => (1, 0),
        };
        Scientific {
            digits: mantissa / factor,
            exponent: exponent + zeros,
        }
    }
}

impl fmt::Display for Scientific {
    ghost output = { λ shown. Some (spec.scientific shown.digits shown.exponent) };

    #[tactic(auto, unfolding(crate::specs::Scientific::scientific))]
    fn fmt<W: fmt::Write>(&self, f: &mut fmt::Formatter<W>) -> fmt::Result {
        let (digits, exponent) = (self.digits, i16::from(self.exponent));
        if digits < 10 {
            return write!(f, "{digits}e{exponent}");
        }
        let last = digits % 10;
        if digits < 100 {
            let (first, power) = (digits / 10, exponent + 1);
            return write!(f, "{first}.{last}e{power}");
        }
        let third = digits / 10 % 10;
        if digits < 1_000 {
            let (first, power) = (digits / 100, exponent + 2);
            return write!(f, "{first}.{third}{last}e{power}");
        }
        let (first, second, power) = (digits / 1_000, digits / 100 % 10, exponent + 3);
        write!(f, "{first}.{second}{third}{last}e{power}")
    }
}
