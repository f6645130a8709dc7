// All that a module says of itself at fixed places.
ghost use Rattle.reports.specs.Answered.{AreEntries};
ghost use Rattle.reports.specs.Details as spec;
ghost use Rattle.reports.specs.Details.{details_entries, details_fault};
ghost use Rattle.paged_memory.specs.declared.family.Family.TheVariants as families;

use crate::family::detail_family_of;
use crate::fault::ReportFault;
use bus_model::Dev;
use module_decoding::absent_detail_page;
use module_details::{cmis_details, lacks_diagnostics, qsfp_details, sfp_details};
use paged_memory::{Family, Image, Key};
use report_entries::Entry;
use std::alloc::Global;

/// All that the module says of itself at fixed places, as entries.
#[tactic(auto, unfolding(crate::specs::Details::details_fault, crate::specs::Details::details_entries))]
pub fn details_entries(alloc: Global, image: &Image) -> Result<Vec<Entry>, ReportFault>
    ensures { AreEntries (details_fault image.now) (details_entries image.now) result }
{
    match detail_family_of(image)? {
        Family::Cmis => of_cmis(alloc, image),
        Family::Sff8636 => of_sff8636(alloc, image),
        Family::Sff8472 => of_sff8472(alloc, image),
    }
}

fn of_cmis(alloc: Global, image: &Image) -> Result<Vec<Entry>, ReportFault>
    ensures { AreEntries (spec.fault_in families.Cmis image.now) (spec.entries_in families.Cmis image.now) result }
{
    if let Some(key) = absent_detail_page(image) {
        return Err(ReportFault::Absent(key));
    }
    Ok(cmis_details(alloc, image)?)
}

fn of_sff8636(alloc: Global, image: &Image) -> Result<Vec<Entry>, ReportFault>
    ensures { AreEntries (spec.fault_in families.Sff8636 image.now) (spec.entries_in families.Sff8636 image.now) result }
{
    if let Some(fault) = sff8636_map::identity_refusal(image) {
        return Err(ReportFault::Sff(fault));
    }
    Ok(qsfp_details(alloc, image)?)
}

fn of_sff8472(alloc: Global, image: &Image) -> Result<Vec<Entry>, ReportFault>
    ensures { AreEntries (spec.fault_in families.Sff8472 image.now) (spec.entries_in families.Sff8472 image.now) result }
{
    if let Some(fault) = sff8472_map::module_refusal(image) {
        return Err(ReportFault::Sff(fault));
    }
    let diagnostics = Key::lower(Dev::A2);
    if !lacks_diagnostics(image) && !image.has(diagnostics) {
        return Err(ReportFault::Absent(diagnostics));
    }
    Ok(sfp_details(alloc, image)?)
}
