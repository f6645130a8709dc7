// The entries that rows make of a module's memory.
ghost use Rattle.std.specs.Prelude.{◌≡◌, ◌++◌, ◌+◌, ◌≤◌, IfOk, IsTrue, OnOk, length, map, option_map};
ghost use Rattle.std.specs.List.{list_all, range_with_len};
ghost use Rattle.field_tables.specs.FieldRows.{row_of};
ghost use Rattle.field_tables.specs.FieldValues.{of_each};
ghost use Rattle.module_decoding.specs.Amounts.{amount_at, power_fits};
ghost use Rattle.report_entries.specs.Banks.{are_banks};
ghost use Rattle.report_entries.specs.Entries.{as_entries, content_of};
ghost use Rattle.report_entries.specs.RowTables.{case_in, cases_in, row_in, rows_in, source_in};
ghost use Rattle.report_entries.specs.Rows as spec;
ghost use Rattle.report_entries.specs.Rows.{amounts_in, instead_fits, is_counted, lane_state_at, printed_unit, row_entries, row_fits, rows_entries, source_content, source_fits, states_in};

use crate::entry::{Content, Entry, LaneState, MAX_LANES, add_entry};
use crate::printed_unit::PrintedUnit;
use crate::row::{Instead, Line, Source};
use arrayvec::ArrayVec;
use field_tables::{Field, all_numbers, is_sum_right, number, number_at, row, text};
use module_decoding::{amount_at, length_in, limit_amounts, unit_of};
use observables::lanes_of_bank;
use paged_memory::Image;
use std::alloc::{AllocError, Global};

/// The entries of these rows for a module, whose memory is flat or not, with the lanes of bank 0 and of these further banks.
#[tactic(auto, unfolding(crate::specs::Entries::as_entries))]
pub fn entries_of_rows(
    alloc: Global,
    image: &Image,
    banks: &[u8],
    flat: bool,
    rows: &'static [Line],
) -> Result<Vec<Entry>, AllocError>
    requires banks { IsTrue (are_banks banks.now) }
    requires rows { IsTrue (list_all row_fits (rows_in rows.now)) }
    ensures { IfOk result (λ entries. as_entries entries ≡ rows_entries image.now banks.now flat (rows_in rows.now)) }
{
    let mut entries = Vec::new(alloc);
    add_rows(&mut entries, image, banks, flat, rows)?;
    Ok(entries)
}

// Adds the entries of these rows.
fn add_rows(
    entries: &mut Vec<Entry>,
    image: &Image,
    banks: &[u8],
    flat: bool,
    rows: &'static [Line],
) -> Result<(), AllocError>
    requires banks { IsTrue (are_banks banks.now) }
    requires rows { IsTrue (list_all row_fits (rows_in rows.now)) }
    ensures { OnOk result (as_entries entries.new ≡ as_entries entries.old ++ rows_entries image.now banks.now flat (rows_in rows.now)) }
{
    for row in rows {
        add_row(entries, image, banks, flat, row)?;
    }
    Ok(())
}

#[tactic(auto, unfolding(crate::specs::Rows::row_entries))]
fn add_row(
    entries: &mut Vec<Entry>,
    image: &Image,
    banks: &[u8],
    flat: bool,
    row: &'static Line,
) -> Result<(), AllocError>
    requires banks { IsTrue (are_banks banks.now) }
    requires row { IsTrue (row_fits (row_in row.now)) }
    ensures { OnOk result (as_entries entries.new ≡ as_entries entries.old ++ row_entries image.now banks.now flat (row_in row.now)) }
{
    if row.paged && flat {
        return Ok(());
    }
    match deciding(image, row.instead) {
        Some(Instead::Nothing(..)) => Ok(()),
        Some(Instead::Word(_, _, word)) => add_entry(entries, row.name, Content::Word(word)),
        None => add_entry(entries, row.name, content(image, banks, &row.source)),
    }
}

// The first that applies.
fn deciding(
    image: &Image,
    instead: &'static [Instead<&'static str>],
) -> Option<Instead<&'static str>>
    requires { IsTrue (list_all instead_fits (cases_in instead.now)) }
    ensures { option_map case_in result ≡ spec.deciding image.now (cases_in instead.now) }
{
    for case in instead {
        if applies(image, case) {
            return Some(*case);
        }
    }
    None
}

fn applies(image: &Image, case: &Instead<&'static str>) -> bool
    requires { IsTrue (instead_fits (case_in case.now)) }
    ensures { result ≡ spec.applies image.now (case_in case.now) }
{
    match *case {
        Instead::Nothing(field, code) | Instead::Word(field, code, _) => {
            number(image, field) == code
        }
    }
}

#[tactic(auto, unfolding(crate::specs::Rows::source_content))]
fn content(image: &Image, banks: &[u8], source: &Source<&'static str>) -> Content
    requires banks { IsTrue (are_banks banks.now) }
    requires source { IsTrue (source_fits (source_in source.now)) }
    ensures { content_of result ≡ source_content image.now banks.now (source_in source.now) }
{
    match *source {
        Source::Word(word) => Content::Word(word),
        Source::Either(field, one, other) => {
            Content::Word(if number(image, field) == 1 {
                one
            } else {
                other
            })
        }
        Source::Code(field) => Content::Code(number(image, field)),
        Source::Revision(field) => Content::Revision(number(image, field)),
        Source::Next(field) => Content::Number(u16::from(number(image, field)) + 1),
        Source::Text(field) => Content::Text(text(image, field)),
        Source::Oui(field) => Content::Oui(all_numbers(image, field)),
        Source::Right(sum) => Content::Right(is_sum_right(image, sum)),
        Source::Amount(field) => {
            Content::Amount(amount_at(image, field, None, 1), printed_unit(field))
        }
        Source::Length(base, power) => Content::Amount(
            length_in(image, base, power),
            PrintedUnit::Metre,
        ),
        Source::Lanes(field, power) => {
            Content::Lanes(amounts(image, banks, field, power), printed_unit(field))
        }
        Source::Limits(field, power) => {
            Content::Limits(limit_amounts(image, field, power), printed_unit(field))
        }
        Source::State(field) => Content::State(number(image, field)),
        Source::LaneStates(paths, statuses) => {
            Content::LaneStates(lane_states(image, banks, paths, statuses))
        }
    }
}

// Of the lanes of bank 0 and of these further banks.
fn amounts(
    image: &Image,
    banks: &[u8],
    field: Field,
    power: Option<Field>,
) -> ArrayVec<i64, MAX_LANES>
    requires banks { IsTrue (are_banks banks.now) }
    requires count { (row_of field).count ≤ 8 }
    requires power { IsTrue (power_fits power) }
    ensures { result.items ≡ amounts_in image.now banks.now field power }
{
    let mut amounts = ArrayVec::new();
    push_amounts(&mut amounts, image, field, power);
    for bank in banks {
        let lanes = lanes_of_bank(image, *bank);
        push_amounts(&mut amounts, &lanes.view(), field, power);
    }
    amounts
}

fn push_amounts(
    amounts: &mut ArrayVec<i64, MAX_LANES>,
    image: &Image,
    field: Field,
    power: Option<Field>,
)
    requires room { length amounts.old.items + (row_of field).count ≤ 32 }
    requires power { IsTrue (power_fits power) }
    ensures { amounts.new.items ≡ amounts.old.items ++ of_each field (amount_at image.now field power) }
{
    for before in 0..row(field).count {
        amounts.push(amount_at(image, field, power, before + 1));
    }
}

fn printed_unit(field: Field) -> PrintedUnit
    ensures { result ≡ printed_unit field }
{
    PrintedUnit::of(unit_of(field))
}

// Of the lanes of bank 0 and of these further banks.
fn lane_states(
    image: &Image,
    banks: &[u8],
    paths: Field,
    statuses: Field,
) -> ArrayVec<LaneState, MAX_LANES>
    requires banks { IsTrue (are_banks banks.now) }
    requires paths { IsTrue (is_counted paths 8) }
    requires statuses { IsTrue (is_counted statuses 8) }
    ensures { result.items ≡ states_in image.now banks.now paths statuses }
{
    let mut states = ArrayVec::new();
    push_states(&mut states, image, paths, statuses);
    for bank in banks {
        let lanes = lanes_of_bank(image, *bank);
        push_states(&mut states, &lanes.view(), paths, statuses);
    }
    states
}

fn push_states(
    states: &mut ArrayVec<LaneState, MAX_LANES>,
    image: &Image,
    paths: Field,
    statuses: Field,
)
    requires room { length states.old.items ≤ 24 }
    requires paths { IsTrue (is_counted paths 8) }
    requires statuses { IsTrue (is_counted statuses 8) }
    ensures { states.new.items ≡ states.old.items ++ map (lane_state_at image.now paths statuses) (range_with_len 1 8) }
{
    for before in 0..8 {
        states.push(LaneState {
            path: number_at(image, paths, before + 1),
            status: number_at(image, statuses, before + 1),
        });
    }
}
