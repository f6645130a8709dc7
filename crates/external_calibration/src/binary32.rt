//! Floats of 32 bits (IEEE 754, binary32), as whole numbers of 2^-149, which each finite one is.
ghost use Rattle.std.specs.Prelude.{◌≡◌, ◌≤◌, ◌<◌, ◌+◌, ◌*◌, ◌-◌, ◌^◌, ◌*ℤ◌, ◌≤ℤ◌, ◌<ℤ◌, pos, unsigned_abs};
ghost use Rattle.external_calibration.specs.Floats as spec;
ghost use Rattle.external_calibration.specs.Floats.{is_below_power, parts_of, size};

/// A finite float: the mantissa, doubled so often, in parts of 2^-149.
#[derive(Clone, Copy)]
pub struct FiniteFloat {
    pub mantissa: i32,
    pub doublings: u32,
}

pub fn is_finite(bits: u32) -> bool
    ensures { result ≡ spec.is_finite bits }
{
    exponent(bits) < 255
}

/// Whether a finite float is below a power of two, at least 2^-126, in absolute value. `power` counts from 2^-149.
pub fn is_below(bits: u32, power: u32) -> bool
    requires { 23 ≤ power }
    ensures { result ≡ is_below_power bits power }
{
    exponent(bits) + 23 <= power
}

/// The parts of a finite float.
pub fn parts(bits: u32) -> FiniteFloat
    ensures value { result.mantissa *ℤ pos (2 ^ result.doublings) ≡ parts_of bits }
    ensures size { unsigned_abs result.mantissa * 2 ^ result.doublings ≡ size bits }
    ensures mantissa { unsigned_abs result.mantissa < 2 ^ 24 }
{
    let (magnitude, doublings) = magnitude(bits);
    let mantissa = if bits >> 31 == 1 {
        -magnitude
    } else {
        magnitude
    };
    FiniteFloat {
        mantissa,
        doublings,
    }
}

// The absolute value of a finite float: so much, doubled so often.
fn magnitude(bits: u32) -> (i32, u32)
    ensures size { result.0 *ℤ pos (2 ^ result.1) ≡ pos (size bits) }
    ensures not_negative { pos 0 ≤ℤ result.0 }
    ensures small { result.0 <ℤ pos (2 ^ 24) }
{
    let fraction = (bits % (1 << 23)) as i32;
    match exponent(bits) {
        0 => (fraction, 0),
        exponent => ((1 << 23) + fraction, exponent - 1),
    }
}

fn exponent(bits: u32) -> u32
    ensures exponent { result ≡ spec.exponent bits }
    ensures few { result < 256 }
{
    (bits >> 23) % 256
}
