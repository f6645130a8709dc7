//! What a module measures at fixed places: words of fields, and what they amount to.
ghost use Rattle.std.specs.Prelude.{◌≡◌, ◌≤◌};
ghost use Rattle.field_tables.specs.FieldRows.{row_of};
ghost use Rattle.field_tables.specs.FieldValues.{field_key};
ghost use Rattle.field_tables.specs.Readings.{IsWord};
ghost use Rattle.observables.specs.Monitored as spec;
ghost use Rattle.observables.specs.Monitors.{AreBounds, BitsFit, FlagsFit, IsAdvert, MonitorFits};

use crate::amount::{Amount, steps};
use crate::monitor::{BitPlace, Bounds, Correction, Monitor};
use crate::quantity::{Quantity, quantity_row};
use external_calibration::{Constants, Monitor as Calibrated};
use field_tables::{Field, PerLimit, bit, bit_at, field, number, reading_at, row};
use paged_memory::{Half, Image, Key};

/// What value `index` of a field amounts to, of those that a monitor has; none if its half is absent, or if that can't be computed.
#[tactic(auto, unfolding(crate::specs::Monitored::amount_at))]
pub fn amount_at(image: &Image, monitor: Monitor, field: Field, index: u8) -> Option<Amount>
    requires first { 1 ≤ index }
    requires last { index ≤ (row_of field).count }
    ensures { result ≡ spec.amount_at image.now monitor field index }
{
    let word = word_at(image, field, index)?;
    amount_of(image, monitor.correction, monitor.quantity, word)
}

/// What the limits of a monitor amount to.
#[tactic(auto, unfolding(crate::specs::Monitored::limit_amounts))]
pub fn limit_amounts(image: &Image, monitor: Monitor) -> PerLimit<Option<Amount>>
    requires { AreBounds (row_of monitor.values).count monitor.bounds }
    ensures { result ≡ spec.limit_amounts image.now monitor }
{
    match monitor.bounds {
        None => NO_LIMITS,
        Some(bounds) => PerLimit {
            high_alarm: amount_at(image, monitor, bounds.limits, 1),
            low_alarm: amount_at(image, monitor, bounds.limits, 2),
            high_warning: amount_at(image, monitor, bounds.limits, 3),
            low_warning: amount_at(image, monitor, bounds.limits, 4),
        },
    }
}

const NO_LIMITS: PerLimit<Option<Amount>> = PerLimit {
    high_alarm: None,
    low_alarm: None,
    high_warning: None,
    low_warning: None,
};

/// Which limits of a monitor were passed in a lane.
pub fn flags_in_lane(
    image: &Image,
    bounds: Option<Bounds>,
    lane: u8,
    _count: u8,
) -> Option<PerLimit<bool>>
    requires fits { AreBounds _count bounds }
    requires first { 1 ≤ lane }
    requires last { lane ≤ _count }
    ensures { result ≡ spec.flags_in_lane image.now bounds lane }
{
    let bounds = bounds?;
    Some(bits_in_lane(image, bounds.flags, lane, _count))
}

fn bits_in_lane(image: &Image, places: PerLimit<BitPlace>, lane: u8, _count: u8) -> PerLimit<bool>
    requires fits { FlagsFit _count places }
    requires first { 1 ≤ lane }
    requires last { lane ≤ _count }
    ensures { result ≡ spec.bits_in_lane image.now places lane }
{
    PerLimit {
        high_alarm: bit_in_lane(image, places.high_alarm, lane, _count),
        low_alarm: bit_in_lane(image, places.low_alarm, lane, _count),
        high_warning: bit_in_lane(image, places.high_warning, lane, _count),
        low_warning: bit_in_lane(image, places.low_warning, lane, _count),
    }
}

fn bit_in_lane(image: &Image, place: BitPlace, lane: u8, _count: u8) -> bool
    requires fits { BitsFit _count place }
    requires first { 1 ≤ lane }
    requires last { lane ≤ _count }
    ensures { result ≡ spec.bit_in_lane image.now place lane }
{
    bit_at(image, place.field, place.first + (lane - 1))
}

/// Whether the module advertises a monitor, or each module of its standard has it.
pub fn is_advertised(image: &Image, advert: Option<BitPlace>) -> bool
    requires { IsAdvert advert }
    ensures { result ≡ spec.is_advertised image.now advert }
{
    match advert {
        None => true,
        Some(place) => bit_in_lane(image, place, 1, 1),
    }
}

// The word of a value of a field, if its half is there.
fn word_at(image: &Image, field: Field, index: u8) -> Option<u16>
    requires first { 1 ≤ index }
    requires last { index ≤ (row_of field).count }
    ensures { result ≡ spec.word_at image.now field index }
{
    if !is_present(image, field) {
        return None;
    }
    Some(bits_of(reading_at(image, field, index)))
}

// The 16 bits of a value.
fn bits_of(value: i32) -> u16
    requires { IsWord value }
    ensures { result ≡ spec.bits_of value }
{
    let size = value.unsigned_abs();
    if value < 0 {
        (65_536 - size) as u16
    } else {
        size as u16
    }
}

/// Whether the half of a field is there.
pub fn is_present(image: &Image, field: Field) -> bool
    ensures { result ≡ spec.is_present image.now field }
{
    image.has(key_of(field))
}

fn key_of(field: Field) -> Key
    ensures { result ≡ field_key field }
{
    let row = row(field);
    match row.half {
        Half::Lower => Key::lower(row.dev),
        Half::Upper => Key::upper(row.dev, 0, row.page),
    }
}

// What a word amounts to, corrected.
fn amount_of(image: &Image, correction: Correction, quantity: Quantity, word: u16) -> Option<Amount>
    ensures { result ≡ spec.corrected image.now correction quantity word }
{
    match correction {
        Correction::Plain => Some(Amount::of(quantity, word)),
        Correction::Multiplied => {
            let factor = multiplier(image)?;
            Some(Amount::times(quantity, factor, word))
        }
        Correction::Calibrated(monitor) => {
            if bit(image, field!(Sff8472 External)) {
                calibrated(&Constants::of(image), monitor, quantity, word)
            } else {
                Some(Amount::of(quantity, word))
            }
        }
    }
}

// How often a word of bias counts.
fn multiplier(image: &Image) -> Option<u8>
    ensures { result ≡ spec.multiplier image.now }
{
    match number(image, field!(Cmis BiasMultiplier)) {
        0 => Some(1),
        1 => Some(2),
        2 => Some(4),
        _ => None,
    }
}

// What a word amounts to once the host has calibrated it, in thousandths of the unit that reports print.
fn calibrated(
    constants: &Constants,
    monitor: Calibrated,
    quantity: Quantity,
    word: u16,
) -> Option<Amount>
    ensures { result ≡ spec.calibrated constants.now monitor quantity word }
{
    let reading = steps(quantity_row(quantity).format, word) as i32;
    match constants.amount(monitor, reading) {
        Ok(mantissa) => Some(Amount {
            mantissa,
            exponent: power_of_thousandths(monitor),
            divisor: 1,
        }),
        Err(_) => None,
    }
}

// The power of ten that a thousandth of the unit that reports print is, in the quantity's unit.
fn power_of_thousandths(monitor: Calibrated) -> i8
    ensures { result ≡ spec.power_of_thousandths monitor }
{
    match monitor {
        Calibrated::Temperature => -3,
        Calibrated::Vcc => -6,
        Calibrated::TxBias => -3,
        Calibrated::TxPower => -6,
        Calibrated::RxPower => -6,
    }
}
