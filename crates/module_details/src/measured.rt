// What a module of SFF-8472 measures, which the host has to calibrate if the module asks for that.
ghost use Rattle.std.specs.Prelude.{◌≡◌, ◌≤◌, option_map, unsigned_abs};
ghost use Rattle.field_tables.specs.FieldRows.{row_of};
ghost use Rattle.field_tables.specs.Readings.{IsWord};
ghost use Rattle.report_entries.specs.Facts.{fact_of};
ghost use Rattle.module_details.specs.Measured as spec;

use external_calibration::{Constants, Monitor};
use field_tables::{Field, bit, field, reading_at};
use module_decoding::{amount_at, unit_of};
use paged_memory::Image;
use report_entries::{Fact, PrintedUnit};

/// Value `index` of a field that a monitor fills, as an amount, if its constants aren't refused.
#[tactic(auto, unfolding(crate::specs::Measured::measured_fact))]
pub fn measured(image: &Image, monitor: Monitor, field: Field, index: u8) -> Option<Fact>
    requires first { 1 ≤ index }
    requires last { index ≤ (row_of field).count }
    ensures { option_map fact_of result ≡ spec.measured_fact image.now monitor field index }
{
    if bit(image, field!(Sff8472 External)) {
        amount_if_any(calibrated(image, monitor, field, index), monitor)
    } else {
        let amount = amount_at(image, field, None, index);
        Some(Fact::Amount(amount, PrintedUnit::of(unit_of(field))))
    }
}

/// The same of a power in tenths of a microwatt, if that is a number of 16 bits.
#[tactic(auto, unfolding(crate::specs::Measured::measured_power))]
pub fn measured_power(image: &Image, monitor: Monitor, field: Field, index: u8) -> Option<u16>
    requires first { 1 ≤ index }
    requires last { index ≤ (row_of field).count }
    ensures { result ≡ spec.measured_power image.now monitor field index }
{
    if bit(image, field!(Sff8472 External)) {
        power_if_any(calibrated(image, monitor, field, index))
    } else {
        Some(power(reading_at(image, field, index)))
    }
}

/// Whether the constants by which the host calibrates a monitor aren't refused.
#[tactic(auto, unfolding(crate::specs::Measured::calibrates))]
pub fn calibrates(image: &Image, monitor: Monitor) -> bool
    ensures { result ≡ spec.calibrates image.now monitor }
{
    Constants::of(image).refusal(monitor).is_none()
}

/// A reading of 16 bits in tenths of a microwatt.
pub fn power(word: i32) -> u16
    requires { IsWord word }
    ensures { result ≡ unsigned_abs word }
{
    word.unsigned_abs() as u16
}

// In thousandths of the printed unit.
#[tactic(auto, unfolding(crate::specs::Measured::calibrated))]
fn calibrated(image: &Image, monitor: Monitor, field: Field, index: u8) -> Option<i64>
    requires first { 1 ≤ index }
    requires last { index ≤ (row_of field).count }
    ensures { result ≡ spec.calibrated image.now monitor field index }
{
    match Constants::of(image).amount(monitor, reading_at(image, field, index)) {
        Ok(amount) => Some(amount),
        Err(_) => None,
    }
}

fn amount_if_any(amount: Option<i64>, monitor: Monitor) -> Option<Fact>
    ensures { option_map fact_of result ≡ spec.amount_fact amount monitor }
{
    match amount {
        None => None,
        Some(amount) => Some(Fact::Amount(amount, PrintedUnit::of(monitor.unit()))),
    }
}

// Tenths of a microwatt, of thousandths.
fn power_if_any(amount: Option<i64>) -> Option<u16>
    ensures { result ≡ spec.power_in amount }
{
    match amount {
        Some(amount) if 0 <= amount && amount < 6_553_600 => Some((amount / 100) as u16),
        _ => None,
    }
}
