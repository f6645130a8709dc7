// The fact that an item has of a value of its field.
ghost use Rattle.std.specs.Prelude.{◌≡◌, ◌≤◌, IsTrue, option_map};
ghost use Rattle.field_tables.specs.FieldRows.{row_of};
ghost use Rattle.field_tables.specs.Readings.{IsWord, is_of_bytes};
ghost use Rattle.report_entries.specs.Facts.{fact_of, texts_of};
ghost use Rattle.module_details.specs.Details as spec;
ghost use Rattle.module_details.specs.Fits.{item_fits};
ghost use Rattle.module_details.specs.RowTables.{item_in};

use crate::item::Item;
use crate::measured::{calibrates, measured, measured_power, power};
use crate::power_class::{class_power, power_class};
use arrayvec::ArrayVec;
use code_names::{Table, name_of};
use field_tables::{Field, Unit, all_numbers, bit_at, millis, number_at, reading_at, row, text};
use module_decoding::{amount_at, length_in, trimmed, unit_of};
use paged_memory::Image;
use report_entries::{Fact, PrintedUnit};

/// The fact of value `index` of an item's field, if there is anything to say. The image has this bank's lanes.
#[tactic(auto, unfolding(crate::specs::Details::fact_at))]
pub fn fact_at(image: &Image, bank: u8, item: &Item<&'static str>, index: u8) -> Option<Fact>
    requires bank { bank ≤ 3 }
    requires item { IsTrue (item_fits (item_in item.now) index) }
    ensures { option_map fact_of result ≡ spec.fact_at image.now bank (item_in item.now) index }
{
    match *item {
        Item::Word(word) => Some(Fact::Word(word)),
        Item::Either(field, one, other) => Some(Fact::Word(if bit_at(image, field, index) {
            one
        } else {
            other
        })),
        Item::Yes(field) => Some(Fact::Yes(bit_at(image, field, index))),
        Item::Named(table, field) => Some(named(table, number_at(image, field, index))),
        Item::Names(table, field, first) => names_if_any(image, table, field, first),
        Item::Number(field, more) => Some(Fact::Number(
            u16::from(number_at(image, field, index)) + u16::from(more),
        )),
        Item::Revision(field) => Some(Fact::Revision(number_at(image, field, index))),
        Item::Version(field) => Some(Fact::Version(
            number_at(image, field, index),
            number_at(image, field, index + 1),
        )),
        Item::Text(field) => text_if_any(text(image, field)),
        Item::Oui(field) => Some(Fact::Oui(all_numbers(image, field))),
        Item::Amount(field, power) => Some(Fact::Amount(
            amount_at(image, field, power, index),
            PrintedUnit::of(unit_of(field)),
        )),
        Item::Steps(field, step, unit) => Some(steps(reading_at(image, field, index), step, unit)),
        Item::StepsIfAny(field, step, unit) => {
            steps_if_any(reading_at(image, field, index), step, unit)
        }
        Item::PairIfAny(field, step, unit) => {
            let (high, low) = (
                number_at(image, field, index),
                number_at(image, field, index + 1),
            );
            pair_if_any(high, low, step, unit)
        }
        Item::TenthsIfAny(base, power, unit) => amount_if_any(length_in(image, base, power), unit),
        Item::Celsius(field) => Some(celsius(number_at(image, field, index))),
        Item::Percent(field) => Some(percent(reading_at(image, field, index))),
        Item::Temperature(field) => Some(temperature(reading_at(image, field, index))),
        Item::Level(field) => Some(Fact::Level(power(reading_at(image, field, index)))),
        Item::Milliwatts(field) => Some(Fact::Milliwatts(power(reading_at(image, field, index)))),
        Item::Measured(monitor, field) => measured(image, monitor, field, index),
        Item::MeasuredLevel(monitor, field) => {
            level_if_any(measured_power(image, monitor, field, index))
        }
        Item::MeasuredMilliwatts(monitor, field) => {
            milliwatts_if_any(measured_power(image, monitor, field, index))
        }
        Item::Calibrates(monitor) => Some(Fact::Yes(calibrates(image, monitor))),
        Item::ModuleState(field) => Some(Fact::ModuleState(number_at(image, field, index))),
        Item::PathState(field) => Some(Fact::PathState(number_at(image, field, index))),
        Item::ConfigStatus(field) => Some(Fact::ConfigStatus(number_at(image, field, index))),
        Item::FirstLane(apps, paths) => {
            let app = number_at(image, apps, index);
            first_lane_if_any(bank, app, number_at(image, paths, index))
        }
        Item::BitRate(rate, more) => {
            bit_rate_if_any(number_at(image, rate, 1), number_at(image, more, 1))
        }
        Item::PowerClass => Some(Fact::Number(u16::from(power_class(image)))),
        Item::ClassPower => Some(Fact::Amount(i64::from(class_power(image)), PrintedUnit::Watt)),
    }
}

/// A code with its name.
#[tactic(auto, unfolding(crate::specs::Details::named_fact))]
pub fn named(table: Table, code: u8) -> Fact
    ensures { fact_of result ≡ spec.named_fact table code }
{
    Fact::Named(code, name_of(table, code).text())
}

fn names_if_any(image: &Image, table: Table, field: Field, first: u8) -> Option<Fact>
    requires numbers { IsTrue (is_of_bytes (row_of field)) }
    requires count { (row_of field).count ≤ 8 }
    requires codes { first ≤ 200 }
    ensures { option_map fact_of result ≡ spec.names_fact (spec.names_of image.now table field first) }
{
    let names = names_of(image, table, field, first);
    if names.is_empty() {
        None
    } else {
        Some(Fact::Names(names))
    }
}

// The names of the bits that are 1.
#[tactic(auto, unfolding(crate::specs::Details::names_of))]
fn names_of(image: &Image, table: Table, field: Field, first: u8) -> ArrayVec<&'static str, 8>
    requires numbers { IsTrue (is_of_bytes (row_of field)) }
    requires count { (row_of field).count ≤ 8 }
    requires codes { first ≤ 200 }
    ensures { texts_of result.items ≡ spec.names_of image.now table field first }
{
    let mut names = ArrayVec::new();
    for before in 0..row(field).count {
        if bit_at(image, field, before + 1) {
            names.push(name_of(table, first + before).text());
        }
    }
    names
}

fn text_if_any(bytes: ArrayVec<u8, 16>) -> Option<Fact>
    ensures { option_map fact_of result ≡ spec.text_fact bytes.items }
{
    if trimmed(bytes.as_slice()).is_empty() {
        None
    } else {
        Some(Fact::Text(bytes))
    }
}

fn steps(value: i32, step: u16, unit: PrintedUnit) -> Fact
    requires { IsWord value }
    ensures { fact_of result ≡ spec.steps_fact value step unit }
{
    Fact::Amount(i64::from(value) * i64::from(step), unit)
}

fn steps_if_any(value: i32, step: u16, unit: PrintedUnit) -> Option<Fact>
    requires { IsWord value }
    ensures { option_map fact_of result ≡ spec.if_any (spec.is_positive value) (spec.steps_fact value step unit) }
{
    if value > 0 {
        Some(steps(value, step, unit))
    } else {
        None
    }
}

fn pair_if_any(high: u8, low: u8, step: u16, unit: PrintedUnit) -> Option<Fact>
    ensures { option_map fact_of result ≡ spec.pair_fact (spec.pair high low) step unit }
{
    let number = u16::from(high) * 256 + u16::from(low);
    amount_if_any(i64::from(number) * i64::from(step), unit)
}

fn amount_if_any(millis: i64, unit: PrintedUnit) -> Option<Fact>
    ensures { option_map fact_of result ≡ spec.amount_fact millis unit }
{
    if millis > 0 {
        Some(Fact::Amount(millis, unit))
    } else {
        None
    }
}

fn celsius(byte: u8) -> Fact
    ensures { fact_of result ≡ spec.celsius_fact byte }
{
    let degrees = if byte < 128 {
        i64::from(byte)
    } else {
        i64::from(byte) - 256
    };
    Fact::Amount(degrees * 1000, PrintedUnit::Celsius)
}

fn percent(parts: i32) -> Fact
    requires { IsWord parts }
    ensures { fact_of result ≡ spec.percent_fact parts }
{
    Fact::Amount(
        (i64::from(parts) * 100_000).div_euclid(32_767),
        PrintedUnit::Percent,
    )
}

fn temperature(word: i32) -> Fact
    requires { IsWord word }
    ensures { fact_of result ≡ spec.temperature_fact word }
{
    let steps = if word <= 32_767 { word } else { word - 65_536 };
    Fact::Amount(
        millis(i64::from(steps), Unit::Temperature),
        PrintedUnit::Celsius,
    )
}

fn level_if_any(power: Option<u16>) -> Option<Fact>
    ensures { option_map fact_of result ≡ spec.level_fact power }
{
    match power {
        None => None,
        Some(power) => Some(Fact::Level(power)),
    }
}

fn milliwatts_if_any(power: Option<u16>) -> Option<Fact>
    ensures { option_map fact_of result ≡ spec.milliwatts_fact power }
{
    match power {
        None => None,
        Some(power) => Some(Fact::Milliwatts(power)),
    }
}

fn first_lane_if_any(bank: u8, app: u8, path: u8) -> Option<Fact>
    requires { bank ≤ 3 }
    ensures { option_map fact_of result ≡ spec.first_lane_fact bank app path }
{
    if app > 0 {
        let lane = 8 * u16::from(bank) + (u16::from(path) + 1);
        Some(Fact::Number(lane))
    } else {
        None
    }
}

fn bit_rate_if_any(rate: u8, more: u8) -> Option<Fact>
    ensures { option_map fact_of result ≡ spec.bit_rate_fact (spec.bit_rate rate more) }
{
    let rate = if rate == 255 {
        i64::from(more) * 250
    } else {
        i64::from(rate) * 100
    };
    amount_if_any(rate, PrintedUnit::Gigabaud)
}
