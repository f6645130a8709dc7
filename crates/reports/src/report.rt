// What a module is, what it measures, and what it warns of.
ghost use Rattle.std.specs.Prelude.{◌≡◌, ◌∷◌, ◌++◌, [], IfOk, IsTrue};
ghost use Rattle.module_decoding.specs.declared.report.Report.TheVariants.{Flags, Inventory, Monitors};
ghost use Rattle.module_decoding.specs.ModuleFamilies.{family_of};
ghost use Rattle.report_entries.specs.Banks.{are_banks};
ghost use Rattle.report_entries.specs.Entries.{as_entries};
ghost use Rattle.report_entries.specs.FlagRows.{flags_entry};
ghost use Rattle.report_entries.specs.Flags.{raised};
ghost use Rattle.reports.specs.Answered.{AreEntries, AreFlags, Reports, ReportsJson};
ghost use Rattle.reports.specs.Reports as spec;
ghost use Rattle.reports.specs.Reports.{all_lanes_entries, all_lanes_flag_states, entries_of, family_flags, flags_entries, flags_fault, inventory_entries, inventory_fault, monitors_entries, monitors_fault, report_fault, report_lines};

use crate::family::family_with;
use crate::fault::ReportFault;
use crate::tables;
use field_tables::{bit, field};
use module_decoding::{Report, is_flat};
use paged_memory::{Family, Image};
use report_entries::{
    Content, Entry, Flag, add_entry, all_flags, entries_of_rows, further_banks, json, raised_flags,
    text,
};
use std::alloc::{AllocError, Global};

/// What the module is, line by line.
pub fn inventory(alloc: Global, image: &Image) -> Result<Vec<u8>, ReportFault>
    ensures { Reports (inventory_fault image.now) (report_lines Inventory image.now) result }
{
    as_text(alloc, Report::Inventory, image)
}

/// The same as JSON.
pub fn inventory_json(alloc: Global, image: &Image) -> Result<Vec<u8>, ReportFault>
    ensures { ReportsJson (inventory_fault image.now) (inventory_entries image.now) result }
{
    as_json(alloc, Report::Inventory, image)
}

/// The same as entries.
pub fn inventory_entries(alloc: Global, image: &Image) -> Result<Vec<Entry>, ReportFault>
    ensures { AreEntries (inventory_fault image.now) (inventory_entries image.now) result }
{
    entries(alloc, Report::Inventory, image)
}

/// What the module measures, line by line.
pub fn monitors(alloc: Global, image: &Image) -> Result<Vec<u8>, ReportFault>
    ensures { Reports (monitors_fault image.now) (report_lines Monitors image.now) result }
{
    as_text(alloc, Report::Monitors, image)
}

/// The same as JSON.
pub fn monitors_json(alloc: Global, image: &Image) -> Result<Vec<u8>, ReportFault>
    ensures { ReportsJson (monitors_fault image.now) (monitors_entries image.now) result }
{
    as_json(alloc, Report::Monitors, image)
}

/// The flags that are raised, for a CMIS module after its states, line by line.
pub fn flags(alloc: Global, image: &Image) -> Result<Vec<u8>, ReportFault>
    ensures { Reports (flags_fault image.now) (report_lines Flags image.now) result }
{
    as_text(alloc, Report::Flags, image)
}

/// The same as JSON.
pub fn flags_json(alloc: Global, image: &Image) -> Result<Vec<u8>, ReportFault>
    ensures { ReportsJson (flags_fault image.now) (flags_entries image.now) result }
{
    as_json(alloc, Report::Flags, image)
}

/// What the module measures, as entries, with the lanes of all its banks.
#[tactic(auto, unfolding(crate::specs::Reports::all_lanes_entries))]
pub fn all_lanes_monitors(alloc: Global, image: &Image) -> Result<Vec<Entry>, ReportFault>
    ensures { AreEntries (monitors_fault image.now) (all_lanes_entries Monitors image.now) result }
{
    entries_with(alloc, true, Report::Monitors, image)
}

/// The flags that are raised, for a CMIS module after its states, as entries, with the lanes of all its banks.
#[tactic(auto, unfolding(crate::specs::Reports::all_lanes_entries))]
pub fn all_lanes_flags(alloc: Global, image: &Image) -> Result<Vec<Entry>, ReportFault>
    ensures { AreEntries (flags_fault image.now) (all_lanes_entries Flags image.now) result }
{
    entries_with(alloc, true, Report::Flags, image)
}

/// All flags that such a module has, each with whether it is raised, with the lanes of all its banks.
#[tactic(auto, unfolding(crate::specs::Reports::all_lanes_flag_states))]
pub fn all_lanes_flag_states(alloc: Global, image: &Image) -> Result<Vec<(Flag, bool)>, ReportFault>
    ensures { AreFlags (flags_fault image.now) (all_lanes_flag_states image.now) result }
{
    let family = family_with(Report::Flags, image)?;
    let flat = is_flat_in(family, image);
    let banks = banks_in(true, family, image);
    Ok(all_flags(alloc, image, banks, flat, tables::flag_rows(family))?)
}

#[tactic(auto, unfolding(report_entries::specs::Entries::as_entries, crate::specs::Reports::report_lines))]
fn as_text(alloc: Global, report: Report, image: &Image) -> Result<Vec<u8>, ReportFault>
    ensures { Reports (report_fault report image.now) (report_lines report image.now) result }
{
    Ok(text(alloc, &entries(alloc, report, image)?)?)
}

#[tactic(auto, unfolding(report_entries::specs::Entries::as_entries))]
fn as_json(alloc: Global, report: Report, image: &Image) -> Result<Vec<u8>, ReportFault>
    ensures { ReportsJson (report_fault report image.now) (entries_of report image.now) result }
{
    Ok(json(alloc, &entries(alloc, report, image)?)?)
}

// With the lanes of bank 0.
#[tactic(auto, unfolding(crate::specs::Reports::entries_of))]
fn entries(alloc: Global, report: Report, image: &Image) -> Result<Vec<Entry>, ReportFault>
    ensures { AreEntries (report_fault report image.now) (entries_of report image.now) result }
{
    entries_with(alloc, false, report, image)
}

// With the lanes of all banks or of bank 0.
fn entries_with(
    alloc: Global,
    all_lanes: bool,
    report: Report,
    image: &Image,
) -> Result<Vec<Entry>, ReportFault>
    ensures { AreEntries (report_fault report image.now) (spec.entries_in all_lanes report (family_of image.now) image.now) result }
{
    let family = family_with(report, image)?;
    Ok(entries_in(alloc, all_lanes, report, family, image)?)
}

fn entries_in(
    alloc: Global,
    all_lanes: bool,
    report: Report,
    family: Family,
    image: &Image,
) -> Result<Vec<Entry>, AllocError>
    ensures { IfOk result (λ entries. as_entries entries ≡ spec.entries_in all_lanes report family image.now) }
{
    let flat = is_flat_in(family, image);
    let banks = banks_in(all_lanes, family, image);
    let entries = entries_of_rows(alloc, image, banks, flat, tables::rows(report, family))?;
    match report {
        Report::Inventory => Ok(entries),
        Report::Monitors => Ok(entries),
        Report::Flags => with_flags(alloc, all_lanes, family, image, entries),
    }
}

// The line of the flags that are raised comes last.
fn with_flags(
    alloc: Global,
    all_lanes: bool,
    family: Family,
    image: &Image,
    entries: Vec<Entry>,
) -> Result<Vec<Entry>, AllocError>
    ensures { IfOk result (λ all. as_entries all ≡ as_entries entries ++ flags_entry (raised (family_flags all_lanes family image.now)) ∷ []) }
{
    let mut all = entries;
    let flat = is_flat_in(family, image);
    let banks = banks_in(all_lanes, family, image);
    let raised = raised_flags(alloc, image, banks, flat, tables::flag_rows(family))?;
    add_entry(&mut all, "flag", Content::Flags(raised))?;
    Ok(all)
}

// The further banks of a CMIS module, if all lanes are reported.
fn banks_in(all_lanes: bool, family: Family, image: &Image) -> &'static [u8]
    ensures banks { result.now ≡ spec.banks_in all_lanes family image.now }
    ensures few { IsTrue (are_banks result.now) }
{
    match family {
        Family::Cmis if all_lanes => further_banks(image, is_flat(image)),
        _ => &[],
    }
}

/// Whether a module of this family has no pages but 00h: then it has no lines of paged memory.
pub fn is_flat_in(family: Family, image: &Image) -> bool
    ensures { result ≡ spec.is_flat_in family image.now }
{
    match family {
        Family::Cmis => is_flat(image),
        Family::Sff8636 => bit(image, field!(Sff8636 FlatMemory)),
        _ => false,
    }
}
