// The entries that rows make of a module's memory.
ghost use Rattle.std.specs.Prelude.{◌≡◌, ◌++◌, ◌≤◌, IsTrue, OnOk, option_map};
ghost use Rattle.std.specs.List.{list_all, list_any, range_with_len, flat_map};
ghost use Rattle.report_entries.specs.Banks.{are_banks, over_banks};
ghost use Rattle.report_entries.specs.Entries.{as_entries};
ghost use Rattle.report_entries.specs.Facts.{fact_of};
ghost use Rattle.field_tables.specs.Readings.{number};
ghost use Rattle.field_tables.specs.declared.field.Field.TheVariants as fields;
ghost use Rattle.field_tables.specs.declared.table.cmis.CmisField.TheVariants as cmis;
ghost use Rattle.module_details.specs.Details as spec;
ghost use Rattle.module_details.specs.Details.{bank_entries, fact_entries, row_entries, rows_entries, values_entries};
ghost use Rattle.module_details.specs.Fits.{case_fits, item_fits, row_fits, values_fit};
ghost use Rattle.module_details.specs.RowTables.{item_in, row_in, rows_in};

use crate::facts::fact_at;
use crate::item::{Case, Item, Line, Values};
use field_tables::{bit_at, field, number, number_at};
use observables::lanes_of_bank;
use paged_memory::Image;
use report_entries::{Content, Entry, Fact, Place, add_entry};
use std::alloc::AllocError;

// A row of lanes: so many of each bank.
#[derive(Drop)]
struct LaneRow<'a> {
    name: &'static str,
    item: &'a Item<&'static str>,
    count: u8,
}

/// Adds the entries of these rows for a module, whose memory is flat or not, with the lanes of bank 0 and of these further banks.
pub fn add_rows(
    entries: &mut Vec<Entry>,
    image: &Image,
    banks: &[u8],
    flat: bool,
    rows: &'static [Line],
) -> Result<(), AllocError>
    requires banks { IsTrue (are_banks banks.now) }
    requires rows { IsTrue (list_all row_fits (rows_in rows.now)) }
    ensures { OnOk result (as_entries entries.new ≡ as_entries entries.old ++ rows_entries image.now banks.now flat (rows_in rows.now)) }
{
    for row in rows {
        add_row(entries, image, banks, flat, row)?;
    }
    Ok(())
}

#[tactic(auto, unfolding(crate::specs::Details::row_entries))]
fn add_row(
    entries: &mut Vec<Entry>,
    image: &Image,
    banks: &[u8],
    flat: bool,
    row: &'static Line,
) -> Result<(), AllocError>
    requires banks { IsTrue (are_banks banks.now) }
    requires row { IsTrue (row_fits (row_in row.now)) }
    ensures { OnOk result (as_entries entries.new ≡ as_entries entries.old ++ row_entries image.now banks.now flat (row_in row.now)) }
{
    if row.paged && flat || applies_any(image, row.cases) {
        return Ok(());
    }
    add_values(entries, image, banks, row.name, &row.item, row.values)
}

fn add_values(
    entries: &mut Vec<Entry>,
    image: &Image,
    banks: &[u8],
    name: &'static str,
    item: &Item<&'static str>,
    values: Values,
) -> Result<(), AllocError>
    requires banks { IsTrue (are_banks banks.now) }
    requires values { IsTrue (values_fit (item_in item.now) values) }
    ensures { OnOk result (as_entries entries.new
        ≡ as_entries entries.old ++ values_entries image.now banks.now name.now (item_in item.now) values) }
{
    match values {
        Values::One(index) => {
            add_fact(entries, name, Place::Module, fact_at(image, 0, item, index))
        }
        Values::Lanes(count) => {
            let row = LaneRow { name, item, count };
            add_lanes(entries, image, banks, &row)
        }
    }
}

// Of bank 0 and of these further banks.
fn add_lanes(
    entries: &mut Vec<Entry>,
    image: &Image,
    banks: &[u8],
    row: &LaneRow,
) -> Result<(), AllocError>
    requires banks { IsTrue (are_banks banks.now) }
    requires fits { IsTrue (list_all (item_fits (item_in row.now.item.now)) (range_with_len 1 row.now.count)) }
    requires count { row.now.count ≤ 8 }
    ensures { OnOk result (as_entries entries.new
        ≡ as_entries entries.old ++ over_banks image.now banks.now (bank_entries (number image.now (fields.Cmis cmis.Identifier)) row.now.name.now (item_in row.now.item.now) row.now.count)) }
{
    let identifier = number(image, field!(Cmis Identifier));
    add_bank(entries, identifier, 0, image, row)?;
    for bank in banks {
        let lanes = lanes_of_bank(image, *bank);
        add_bank(entries, identifier, *bank, &lanes.view(), row)?;
    }
    Ok(())
}

// Adds the entries of the lanes that a bank of a module with this identifier has, from the memory of these.
fn add_bank(
    entries: &mut Vec<Entry>,
    identifier: u8,
    bank: u8,
    lanes: &Image,
    row: &LaneRow,
) -> Result<(), AllocError>
    requires bank { bank ≤ 3 }
    requires fits { IsTrue (list_all (item_fits (item_in row.now.item.now)) (range_with_len 1 row.now.count)) }
    requires count { row.now.count ≤ 8 }
    ensures { OnOk result (as_entries entries.new
        ≡ as_entries entries.old ++ bank_entries identifier row.now.name.now (item_in row.now.item.now) row.now.count bank lanes.now) }
{
    for before in 0..row.count {
        let lane = before + 1;
        if lane <= most_lanes(identifier) {
            let fact = fact_at(lanes, bank, row.item, lane);
            add_fact(entries, row.name, Place::Lane(8 * bank + lane), fact)?;
        }
    }
    Ok(())
}

// How many lanes a module with this identifier has at most.
fn most_lanes(identifier: u8) -> u8
    ensures { result ≡ spec.most_lanes identifier }
{
    match identifier {
        0x20 => 1,
        0x1B | 0x1F => 2,
        0x1E => 4,
        _ => 8,
    }
}

#[tactic(auto, unfolding(crate::specs::Details::fact_entries))]
fn add_fact(
    entries: &mut Vec<Entry>,
    name: &'static str,
    place: Place,
    fact: Option<Fact>,
) -> Result<(), AllocError>
    ensures { OnOk result (as_entries entries.new
        ≡ as_entries entries.old ++ fact_entries name.now place (option_map fact_of fact)) }
{
    match fact {
        None => Ok(()),
        Some(fact) => add_entry(entries, name, Content::Fact(place, fact)),
    }
}

fn applies_any(image: &Image, cases: &'static [Case]) -> bool
    requires { IsTrue (list_all case_fits cases.now) }
    ensures { result ≡ list_any (spec.applies image.now) cases.now }
{
    for case in cases {
        if applies(image, *case) {
            return true;
        }
    }
    false
}

fn applies(image: &Image, case: Case) -> bool
    requires { IsTrue (case_fits case) }
    ensures { result ≡ spec.applies image.now case }
{
    match case {
        Case::Within(field, index, low, high) => {
            is_within(low, high, number_at(image, field, index))
        }
        Case::Outside(field, index, low, high) => {
            !is_within(low, high, number_at(image, field, index))
        }
        Case::Neither(field, one, other) => {
            !(bit_at(image, field, one) || bit_at(image, field, other))
        }
        Case::LacksSince(field, index, since, first) => {
            let number = number_at(image, since, 1);
            !bit_at(image, field, index) && number >= first
        }
    }
}

fn is_within(low: u8, high: u8, number: u8) -> bool
    ensures { result ≡ spec.is_within low high number }
{
    low <= number && number <= high
}
