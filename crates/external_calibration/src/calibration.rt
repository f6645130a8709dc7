//! Amounts of readings.
ghost use Rattle.std.specs.Prelude.{◌≡◌, ◌<◌, ◌≤◌, ◌-◌, ◌*◌, ◌*ℤ◌, IsTrue, MatchOption, Ok, Err, is_none};
ghost use Rattle.std.specs.Int.{int_pow};
ghost use Rattle.field_tables.specs.Readings.{IsWord};
ghost use Rattle.external_calibration.specs.Amounts.{amount_of, on_polynomial, thousandths};
ghost use Rattle.external_calibration.specs.ExactSums.{IsSmall, value_of};
ghost use Rattle.external_calibration.specs.Floats.{parts_of};
ghost use Rattle.external_calibration.specs.Refusals as refusals;
ghost use Rattle.external_calibration.specs.Refusals.{is_in_range};

use crate::binary32::{is_below, is_finite, parts};
use crate::constants::{Constants, Polynomial};
use crate::exact_sum::ExactSum;
use crate::fault::CalibrationFault;
use crate::monitor::Monitor;
use field_tables::Unit;

impl Constants {
    /// What a reading of 16 bits amounts to, in thousandths of the printed unit, rounded down.
    pub fn amount(&self, monitor: Monitor, reading: i32) -> Result<i64, CalibrationFault>
        requires { IsWord reading }
        ensures { MatchOption (refusals.refusal_by self.now monitor)
            (result ≡ Ok (amount_of self.now monitor reading)) (λ fault. result ≡ Err fault) }
    {
        match self.refusal(monitor) {
            Some(fault) => Err(fault),
            None => Ok(self.accepted_amount(monitor, reading)),
        }
    }

    /// Why no reading of a monitor has an amount.
    pub fn refusal(&self, monitor: Monitor) -> Option<CalibrationFault>
        ensures { result ≡ refusals.refusal_by self.now monitor }
    {
        match monitor {
            Monitor::RxPower => refusal_of(&self.rx_power),
            _ => None,
        }
    }

    fn accepted_amount(&self, monitor: Monitor, reading: i32) -> i64
        requires accepted { IsTrue (is_none (refusals.refusal_by self.now monitor)) }
        requires word { IsWord reading }
        ensures { result ≡ amount_of self.now monitor reading }
    {
        match monitor {
            Monitor::Temperature => self.temperature.amount(reading, Unit::Temperature),
            Monitor::Vcc => self.vcc.amount(reading, Unit::Voltage),
            Monitor::TxBias => self.tx_bias.amount(reading, Unit::Bias),
            Monitor::TxPower => self.tx_power.amount(reading, Unit::OpticalPower),
            Monitor::RxPower => received_power(self.rx_power, reading),
        }
    }
}

// Why no reading has an amount.
#[tactic(auto, unfolding(crate::specs::Refusals::refusal_of))]
fn refusal_of(constants: &Polynomial) -> Option<CalibrationFault>
    ensures { result ≡ refusals.refusal_of constants.now }
{
    fault_of(4, constants.fourth)
        .or(fault_of(3, constants.third))
        .or(fault_of(2, constants.second))
        .or(fault_of(1, constants.first))
        .or(fault_of(0, constants.zeroth))
}

// What is wrong with a constant, by the power of the reading that it multiplies.
fn fault_of(power: u8, bits: u32) -> Option<CalibrationFault>
    requires { power ≤ 4 }
    ensures { result ≡ refusals.fault_of power bits }
{
    if !is_finite(bits) {
        return Some(CalibrationFault::NotFinite(power));
    }
    if !is_below(bits, 149 + 48 - 16 * u32::from(power)) {
        return Some(CalibrationFault::OutOfRange(power));
    }
    None
}

// In thousandths of a microwatt.
fn received_power(constants: Polynomial, reading: i32) -> i64
    requires accepted { IsTrue (is_none (refusals.refusal_of constants)) }
    requires word { IsWord reading }
    ensures { result ≡ thousandths Unit.OpticalPower 149 (on_polynomial constants reading) }
{
    let fourth = product(constants.fourth, reading, 4);
    let third = product(constants.third, reading, 3);
    let second = product(constants.second, reading, 2);
    let first = product(constants.first, reading, 1);
    let zeroth = product(constants.zeroth, reading, 0);
    fourth
        .plus(third)
        .plus(second)
        .plus(first)
        .plus(zeroth)
        .hundreds()
}

// A constant times a power of the reading.
fn product(bits: u32, reading: i32, power: u32) -> ExactSum
    requires power { power ≤ 4 }
    requires in_range { IsTrue (is_in_range power bits) }
    requires word { IsWord reading }
    ensures value { value_of result ≡ parts_of bits *ℤ int_pow reading power }
    ensures small { IsSmall 1 result }
{
    let constant = parts(bits);
    ExactSum::of(
        i128::from(constant.mantissa) * i128::from(reading).pow(power),
        constant.doublings,
    )
}
