//! Exact sums of products of floats, in parts of 2^-149. They may have more than 128 bits, so they are counted in two sizes.
ghost use Rattle.std.specs.Prelude.{◌≡◌, ℕ, ◌<◌, ◌+◌, ◌*◌, ◌^◌, ◌+ℤ◌, ◌*ℤ◌, pos, unsigned_abs};
ghost use Rattle.field_tables.specs.Units.{floor_div};
ghost use Rattle.external_calibration.specs.ExactSums.{IsSmall, value_of};

/// So many parts of 2^-53, and so many of 2^-149.
#[derive(Clone, Copy)]
pub struct ExactSum {
    pub high: i128,
    pub low: i128,
}

impl ExactSum {
    /// A number, doubled so often.
    pub fn of(number: i128, doublings: u32) -> ExactSum
        requires number { unsigned_abs number < 2 ^ 88 }
        requires product { unsigned_abs number * 2 ^ doublings < 2 ^ 197 }
        ensures value { value_of result ≡ number *ℤ pos (2 ^ doublings) }
        ensures small { IsSmall 1 result }
    {
        if number == 0 {
            ExactSum { high: 0, low: 0 }
        } else if doublings < 96 {
            split(number, doublings)
        } else {
            ExactSum {
                high: raised(number, doublings - 96),
                low: 0,
            }
        }
    }

    pub fn plus(self, other: ExactSum) -> ExactSum
        requires self_small { IsSmall 4 self }
        requires other_small { IsSmall 1 other }
        ensures value { value_of result ≡ value_of self +ℤ value_of other }
        ensures small { (products : ℕ) → IsSmall products self → IsSmall (products + 1) result }
    {
        ExactSum {
            high: self.high + other.high,
            low: self.low + other.low,
        }
    }

    /// A hundred times the sum, rounded down to a whole number.
    pub fn hundreds(self) -> i64
        requires { IsSmall 5 self }
        ensures { result ≡ floor_div (value_of self *ℤ pos 100) (2 ^ 149) }
    {
        let high = self.high * 100 + (self.low * 100).div_euclid(1 << 96);
        high.div_euclid(1 << 53) as i64
    }
}

// A number, doubled so often, in its two sizes.
fn split(number: i128, doublings: u32) -> ExactSum
    requires number { unsigned_abs number < 2 ^ 88 }
    requires few { doublings < 96 }
    ensures value { value_of result ≡ number *ℤ pos (2 ^ doublings) }
    ensures small { IsSmall 1 result }
{
    let cut = 1 << (96 - doublings);
    ExactSum {
        high: number.div_euclid(cut),
        low: raised(number.rem_euclid(cut), doublings),
    }
}

// A number, doubled so often.
fn raised(number: i128, doublings: u32) -> i128
    requires few { doublings < 127 }
    requires fits { unsigned_abs number * 2 ^ doublings < 2 ^ 127 }
    ensures { result ≡ number *ℤ pos (2 ^ doublings) }
{
    number * (1 << doublings)
}
