ghost use Rattle.std.specs.Prelude.{◌≡◌, ◌*ℤ◌, ◌≤ℤ◌, ◌<ℤ◌, pos, neg_ℤ};
ghost use Rattle.observables.specs.Amounts as spec;

use crate::quantity::{Format, Quantity, quantity_row};

/// A number exactly: `mantissa` times a power of ten, shared by `divisor`.
#[derive(Clone, Copy, Debug, PartialEq, Eq)]
pub struct Amount {
    pub mantissa: i64,
    pub exponent: i8,
    /// 1 if the number has an end in decimal.
    pub divisor: u16,
}

impl Amount {
    ghost use Rattle.std.specs.Prelude.{◌≡◌, ◌≤ℤ◌, ◌<ℤ◌, pos, neg_ℤ};
    ghost use Rattle.observables.specs.Amounts.{AreTimes, IsAmount, amount_of, amount_times, float_amount, scaled};

    /// What a word of a quantity amounts to, in its unit.
    #[tactic(auto, using(crate::proofs::ExactAmounts::is_exact))]
    pub fn of(quantity: Quantity, word: u16) -> Amount
        ensures value { result ≡ amount_of quantity word }
        ensures exact { IsAmount quantity word result }
    {
        match quantity_row(quantity).format {
            Format::Float => Amount::of_float(word),
            format => Amount::of_steps(quantity, steps(format, word)),
        }
    }

    /// What a word of a quantity amounts to if it counts `factor` times; not of a float.
    #[tactic(auto, using(crate::proofs::Times::are_times))]
    pub fn times(quantity: Quantity, factor: u8, word: u16) -> Amount
        ensures value { result ≡ amount_times quantity factor word }
        ensures exact { AreTimes quantity factor word result }
    {
        let steps = steps(quantity_row(quantity).format, word);
        Amount::of_steps(quantity, multiplied(steps, factor))
    }

    fn of_steps(quantity: Quantity, steps: i64) -> Amount
        requires low { neg_ℤ (pos 16777216) ≤ℤ steps }
        requires high { steps <ℤ pos 16777216 }
        ensures { result ≡ scaled quantity steps }
    {
        let row = quantity_row(quantity);
        Amount {
            mantissa: steps * i64::from(row.numerator),
            exponent: row.exponent,
            divisor: row.divisor,
        }
    }

    fn of_float(word: u16) -> Amount
        ensures { result ≡ float_amount word }
    {
        Amount {
            mantissa: i64::from(word % 2048),
            exponent: (word / 2048) as i8 - 24,
            divisor: 1,
        }
    }
}

/// The number of steps that a word is.
#[tactic(auto, using(crate::proofs::Signed::two_s_complement))]
pub fn steps(format: Format, word: u16) -> i64
    ensures value { result ≡ spec.steps_of format word }
    ensures low { neg_ℤ (pos 32768) ≤ℤ result }
    ensures high { result <ℤ pos 65536 }
{
    match format {
        Format::Signed => i64::from(word.cast_signed()),
        Format::Unsigned | Format::Float => i64::from(word),
    }
}

fn multiplied(steps: i64, factor: u8) -> i64
    requires least { neg_ℤ (pos 32768) ≤ℤ steps }
    requires most { steps <ℤ pos 65536 }
    ensures value { result ≡ steps *ℤ pos factor }
    ensures low { neg_ℤ (pos 16777216) ≤ℤ result }
    ensures high { result <ℤ pos 16777216 }
{
    steps * i64::from(factor)
}
