ghost use Rattle.std.specs.Prelude.{◌≡◌, IfOk};
ghost use Rattle.applications.specs.Advertised.{advertised_by};
ghost use Rattle.reports.specs.Apps.{apps_entries, apps_fault, apps_lines};
ghost use Rattle.report_entries.specs.Entries.{as_entries};
ghost use Rattle.reports.specs.Answered.{AreEntries, Reports, ReportsJson};

use crate::fault::ReportFault;
use applications::Advert;
use arrayvec::ArrayVec;
use paged_memory::Image;
use report_entries::{Content, Entry, add_entry, json, text};
use std::alloc::{AllocError, Global};

/// What the module advertises, line by line.
#[tactic(auto, unfolding(report_entries::specs::Entries::as_entries))]
pub fn apps(alloc: Global, image: &Image) -> Result<Vec<u8>, ReportFault>
    ensures { Reports (apps_fault image.now) (apps_lines (advertised_by image.now)) result }
{
    Ok(text(alloc, &apps_entries(alloc, image)?)?)
}

/// The same as JSON.
#[tactic(auto, unfolding(report_entries::specs::Entries::as_entries))]
pub fn apps_json(alloc: Global, image: &Image) -> Result<Vec<u8>, ReportFault>
    ensures { ReportsJson (apps_fault image.now) (apps_entries (advertised_by image.now)) result }
{
    Ok(json(alloc, &apps_entries(alloc, image)?)?)
}

fn apps_entries(alloc: Global, image: &Image) -> Result<Vec<Entry>, ReportFault>
    ensures { AreEntries (apps_fault image.now) (apps_entries (advertised_by image.now)) result }
{
    match Advert::of(image) {
        Ok(advert) => Ok(entries_of(alloc, &advert)?),
        Err(fault) => Err(ReportFault::Advert(fault)),
    }
}

#[tactic(auto, unfolding(report_entries::specs::Entries::as_entries, crate::specs::Apps::apps_entries))]
fn entries_of(alloc: Global, advert: &Advert) -> Result<Vec<Entry>, AllocError>
    ensures { IfOk result (λ entries. as_entries entries ≡ apps_entries advert.now) }
{
    let apps = advert.apps();
    let mut entries = Vec::new(alloc);
    add_entry(&mut entries, "apps", Content::Number(apps.len() as u16))?;
    add_entry(
        &mut entries,
        "app",
        Content::Apps(ArrayVec::try_from(apps).unwrap()),
    )?;
    add_entry(
        &mut entries,
        "unsupported-media",
        Content::LaneSet(advert.unsupported()),
    )?;
    Ok(entries)
}
