//! Readings that are calibrated by a slope and an offset.
ghost use Rattle.std.specs.Prelude.{◌≡◌, ◌<◌, ◌^◌, unsigned_abs};
ghost use Rattle.field_tables.specs.Readings.{IsWord};
ghost use Rattle.external_calibration.specs.Amounts.{on_line, thousandths};

use crate::constants::Line;
use field_tables::Unit;

impl Line {
    /// A reading's amount, in thousandths of the printed unit.
    pub fn amount(self, reading: i32, unit: Unit) -> i64
        requires { IsWord reading }
        ensures { result ≡ thousandths unit 8 (on_line self reading) }
    {
        let count = self.count(reading);
        match unit {
            Unit::Temperature => (count * 1000).div_euclid(256 * 256),
            Unit::Voltage => (count * 100).div_euclid(256),
            Unit::OpticalPower => (count * 100).div_euclid(256),
            Unit::Bias => (count * 2).div_euclid(256),
            Unit::ModulePower => (count * 250).div_euclid(256),
        }
    }

    // In 256ths of a step.
    fn count(self, reading: i32) -> i64
        requires { IsWord reading }
        ensures value { result ≡ on_line self reading }
        ensures small { unsigned_abs result < 2 ^ 34 }
    {
        i64::from(self.slope) * i64::from(reading) + i64::from(self.offset) * 256
    }
}
