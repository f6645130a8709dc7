// The flags of a report as rows: the name of each, and which bits of a module's memory raise it.
ghost use Rattle.std.specs.Prelude.{◌≡◌, ◌≤◌, ◌++◌, ◌∷◌, [], IfOk, IsTrue, OnOk};
ghost use Rattle.std.specs.List.{list_all};
ghost use Rattle.field_tables.specs.FieldValues.{of_each};
ghost use Rattle.report_entries.specs.Banks.{are_banks};
ghost use Rattle.report_entries.specs.FlagRows.{flag_row_fits, flags_fit, lane_flag, lane_flags, row_flags, rows_flags};
ghost use Rattle.report_entries.specs.Flags.{raised};

use crate::flag::{Flag, FlagName};
use field_tables::{Field, bit_at, row};
use observables::lanes_of_bank;
use paged_memory::Image;
use std::alloc::{AllocError, Global};

/// Which values of a field raise a flag.
#[derive(Clone, Copy)]
pub enum FlagPlace {
    /// The flag of this lane, or of the module, by the value of this number.
    Value(Option<u8>, u8),
    /// The flag of each lane, by a value of its own.
    Lanes,
}

/// A flag, of the module or of lanes.
#[derive(Clone, Copy)]
pub struct FlagRow {
    pub name: FlagName,
    pub field: Field,
    pub place: FlagPlace,
    /// Whether only for a module with paged memory.
    pub paged: bool,
}

/// Those of these flags that are raised, with the lanes of bank 0 and of these further banks.
#[tactic(auto, using(crate::proofs::RaisedFlags::raised_append))]
pub fn raised_flags(
    alloc: Global,
    image: &Image,
    banks: &[u8],
    flat: bool,
    rows: &[FlagRow],
) -> Result<Vec<Flag>, AllocError>
    requires banks { IsTrue (are_banks banks.now) }
    requires rows { IsTrue (list_all flag_row_fits rows.now) }
    ensures { IfOk result (λ flags. flags.items ≡ raised (rows_flags image.now banks.now flat rows.now)) }
{
    let mut flags = Vec::new(alloc);
    for row in rows {
        push_row(&mut flags, image, banks, flat, row)?;
    }
    Ok(flags)
}

/// All of these flags, each with whether it is raised, with the lanes of bank 0 and of these further banks.
pub fn all_flags(
    alloc: Global,
    image: &Image,
    banks: &[u8],
    flat: bool,
    rows: &[FlagRow],
) -> Result<Vec<(Flag, bool)>, AllocError>
    requires banks { IsTrue (are_banks banks.now) }
    requires rows { IsTrue (list_all flag_row_fits rows.now) }
    ensures { IfOk result (λ flags. flags.items ≡ rows_flags image.now banks.now flat rows.now) }
{
    let mut flags = Vec::new(alloc);
    for row in rows {
        add_flags(&mut flags, image, banks, flat, row)?;
    }
    Ok(flags)
}

#[tactic(auto, unfolding(crate::specs::FlagRows::row_flags))]
fn add_flags(
    flags: &mut Vec<(Flag, bool)>,
    image: &Image,
    banks: &[u8],
    flat: bool,
    row: &FlagRow,
) -> Result<(), AllocError>
    requires banks { IsTrue (are_banks banks.now) }
    requires row { IsTrue (flag_row_fits row.now) }
    ensures { OnOk result (flags.new.items ≡ flags.old.items ++ row_flags image.now banks.now flat row.now) }
{
    if row.paged && flat {
        return Ok(());
    }
    let name = row.name;
    match row.place {
        FlagPlace::Value(lane, index) => {
            flags.push((Flag { name, lane }, bit_at(image, row.field, index)))?;
            Ok(())
        }
        FlagPlace::Lanes => add_lanes(flags, image, banks, name, row.field),
    }
}

// Of the lanes of bank 0 and of these further banks.
fn add_lanes(
    flags: &mut Vec<(Flag, bool)>,
    image: &Image,
    banks: &[u8],
    name: FlagName,
    field: Field,
) -> Result<(), AllocError>
    requires banks { IsTrue (are_banks banks.now) }
    requires field { IsTrue (flags_fit field) }
    ensures { OnOk result (flags.new.items ≡ flags.old.items ++ lane_flags image.now banks.now name field) }
{
    add_bank(flags, image, 0, name, field)?;
    for bank in banks {
        let lanes = lanes_of_bank(image, *bank);
        add_bank(flags, &lanes.view(), *bank, name, field)?;
    }
    Ok(())
}

// Of the lanes of a bank, from the memory of these.
fn add_bank(
    flags: &mut Vec<(Flag, bool)>,
    lanes: &Image,
    bank: u8,
    name: FlagName,
    field: Field,
) -> Result<(), AllocError>
    requires bank { bank ≤ 3 }
    requires field { IsTrue (flags_fit field) }
    ensures { OnOk result (flags.new.items ≡ flags.old.items ++ of_each field (lane_flag name field bank lanes.now)) }
{
    for before in 0..row(field).count {
        let lane = Some(8 * bank + (before + 1));
        flags.push((Flag { name, lane }, bit_at(lanes, field, before + 1)))?;
    }
    Ok(())
}

#[tactic(auto, unfolding(crate::specs::FlagRows::row_flags))]
fn push_row(
    flags: &mut Vec<Flag>,
    image: &Image,
    banks: &[u8],
    flat: bool,
    row: &FlagRow,
) -> Result<(), AllocError>
    requires banks { IsTrue (are_banks banks.now) }
    requires row { IsTrue (flag_row_fits row.now) }
    ensures { OnOk result (flags.new.items ≡ flags.old.items ++ raised (row_flags image.now banks.now flat row.now)) }
{
    if row.paged && flat {
        return Ok(());
    }
    match row.place {
        FlagPlace::Value(lane, index) => {
            push_flag(flags, row.name, lane, bit_at(image, row.field, index))
        }
        FlagPlace::Lanes => push_lanes(flags, image, banks, row.name, row.field),
    }
}

#[tactic(auto, using(crate::proofs::RaisedFlags::raised_append))]
fn push_lanes(
    flags: &mut Vec<Flag>,
    image: &Image,
    banks: &[u8],
    name: FlagName,
    field: Field,
) -> Result<(), AllocError>
    requires banks { IsTrue (are_banks banks.now) }
    requires field { IsTrue (flags_fit field) }
    ensures { OnOk result (flags.new.items ≡ flags.old.items ++ raised (lane_flags image.now banks.now name field)) }
{
    push_bank(flags, image, 0, name, field)?;
    for bank in banks {
        let lanes = lanes_of_bank(image, *bank);
        push_bank(flags, &lanes.view(), *bank, name, field)?;
    }
    Ok(())
}

#[tactic(auto, using(crate::proofs::RaisedFlags::raised_append))]
fn push_bank(
    flags: &mut Vec<Flag>,
    lanes: &Image,
    bank: u8,
    name: FlagName,
    field: Field,
) -> Result<(), AllocError>
    requires bank { bank ≤ 3 }
    requires field { IsTrue (flags_fit field) }
    ensures { OnOk result (flags.new.items ≡ flags.old.items ++ raised (of_each field (lane_flag name field bank lanes.now))) }
{
    for before in 0..row(field).count {
        let is_raised = bit_at(lanes, field, before + 1);
        push_flag(flags, name, Some(8 * bank + (before + 1)), is_raised)?;
    }
    Ok(())
}

fn push_flag(
    flags: &mut Vec<Flag>,
    name: FlagName,
    lane: Option<u8>,
    is_raised: bool,
) -> Result<(), AllocError>
    ensures { OnOk result (flags.new.items ≡ flags.old.items ++ raised ((record { name = name; lane = lane }, is_raised) ∷ [])) }
{
    if is_raised {
        flags.push(Flag { name, lane })?;
    }
    Ok(())
}
