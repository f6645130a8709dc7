ghost use Rattle.std.specs.Prelude.{◌≡◌, ◌≤ℤ◌, pos, neg_ℤ, ◌*ℤ◌};
ghost use Rattle.field_tables.specs.Units.{IsFloor, millis_of};

/// What one step of a monitored value is.
#[derive(Clone, Copy, Debug, PartialEq, Eq)]
pub enum Unit {
    /// 1/256 degree Celsius.
    Temperature,
    /// 100 microvolts.
    Voltage,
    /// 0.1 microwatts of light.
    OpticalPower,
    /// 2 microamperes.
    Bias,
    /// 0.25 watts.
    ModulePower,
}

/// Thousandths of the printed unit (degrees Celsius, millivolts, microwatts, milliamperes, watts), rounded down.
pub fn millis(value: i64, unit: Unit) -> i64
    requires low { neg_ℤ (pos 2147483648) ≤ℤ value }
    requires high { value ≤ℤ pos 2147483648 }
    ensures millis { result ≡ millis_of value unit }
    ensures down { unit ≡ Unit.Temperature → IsFloor result (value *ℤ pos 1000) 256 }
{
    match unit {
        Unit::Temperature => (value * 1000).div_euclid(256),
        Unit::Voltage => value * 100,
        Unit::OpticalPower => value * 100,
        Unit::Bias => value * 2,
        Unit::ModulePower => value * 250,
    }
}
