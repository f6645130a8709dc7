//! What a module measures, as text and as JSON.
ghost use Rattle.std.specs.Prelude.{◌≡◌, ◌++◌, ◌∷◌, [], map, IfOk, OnOk};
ghost use Rattle.text_lines.specs.Lines.{text_of};
ghost use Rattle.observables.specs.Pages.{absent_page};
ghost use Rattle.reports.specs.Families.{detail_fault};
ghost use Rattle.reports.specs.Answered.{Reports};
ghost use Rattle.observable_reports.specs.Answered.{AnswersJson, json_of};
ghost use Rattle.observable_reports.specs.OwnHalves.{own_of};
ghost use Rattle.observable_reports.specs.ObservationText.{absent_line, absent_lines, count_line, lines_with, observables_lines, observation_line, observed};

use crate::observation_json::json;
use crate::observation_text::ObservationText;
use crate::own_halves::{first_halves, has_no_more};
use observables::{Observation, absent_page, all_observations, quantity_name};
use paged_memory::{Family, Image, Key};
use report_entries::{Code, ReportText};
use reports::{ReportFault, detail_family_of};
use std::alloc::{AllocError, Global};

/// All that a module measures, line by line.
#[tactic(auto, unfolding(crate::specs::OwnHalves::own_halves))]
pub fn observables(alloc: Global, image: &Image) -> Result<Vec<u8>, ReportFault>
    ensures { Reports (detail_fault image.now) (observables_lines image.now) result }
{
    let family = detail_family_of(image)?;
    let found = found_of(alloc, family, image)?;
    Ok(text(alloc, &found.seen, found.absent)?)
}

/// The same as JSON.
#[tactic(auto, unfolding(crate::specs::OwnHalves::own_halves))]
pub fn observables_json(alloc: Global, image: &Image) -> Result<Vec<u8>, ReportFault>
    ensures { AnswersJson (detail_fault image.now) (json_of image.now) result }
{
    let family = detail_family_of(image)?;
    let found = found_of(alloc, family, image)?;
    Ok(json(alloc, &found.seen, found.absent)?)
}

// What is measured, and the page that is needed and not there.
#[derive(Drop)]
struct Found {
    seen: Vec<Observation>,
    absent: Option<Key>,
}

// Of the halves that a module of this family has.
fn found_of(alloc: Global, family: Family, image: &Image) -> Result<Found, AllocError>
    ensures seen { IfOk result (λ found. found.seen.items ≡ observed (own_of family image.now)) }
    ensures absent { IfOk result (λ found. found.absent ≡ absent_page (own_of family image.now) 0) }
{
    if has_no_more(family, image) {
        let first = first_halves(image);
        return found_in(alloc, &first.view());
    }
    found_in(alloc, image)
}

fn found_in(alloc: Global, image: &Image) -> Result<Found, AllocError>
    ensures seen { IfOk result (λ found. found.seen.items ≡ observed image.now) }
    ensures absent { IfOk result (λ found. found.absent ≡ absent_page image.now 0) }
{
    Ok(Found {
        seen: all_observations(alloc, image)?,
        absent: absent_page(image, 0),
    })
}

fn text(alloc: Global, seen: &[Observation], absent: Option<Key>) -> Result<Vec<u8>, AllocError>
    ensures { IfOk result (λ text. text.items ≡ text_of (lines_with seen.now absent)) }
{
    let mut report = ReportText::new(alloc);
    push_count(&mut report, seen.len())?;
    push_observations(&mut report, seen)?;
    push_absent(&mut report, absent)?;
    Ok(report.into_bytes())
}

#[tactic(auto, unfolding(crate::specs::ObservationText::count_line))]
fn push_count(report: &mut ReportText, count: usize) -> Result<(), AllocError>
    ensures { OnOk result (report.new ≡ report.old ++ (count_line count ++ 10 ∷ [])) }
{
    report.line("observables", count)
}

fn push_observations(report: &mut ReportText, seen: &[Observation]) -> Result<(), AllocError>
    ensures { OnOk result (report.new ≡ report.old ++ text_of (map observation_line seen.now)) }
{
    for observation in seen {
        push_observation(report, *observation)?;
    }
    Ok(())
}

#[tactic(auto, unfolding(crate::specs::ObservationText::observation_line))]
fn push_observation(report: &mut ReportText, seen: Observation) -> Result<(), AllocError>
    ensures { OnOk result (report.new ≡ report.old ++ (observation_line seen ++ 10 ∷ [])) }
{
    let name = quantity_name(seen.observable.quantity);
    report.line(name, ObservationText(seen))
}

// The page that is needed and not there.
fn push_absent(report: &mut ReportText, absent: Option<Key>) -> Result<(), AllocError>
    ensures { OnOk result (report.new ≡ report.old ++ text_of (absent_lines absent)) }
{
    match absent {
        None => Ok(()),
        Some(key) => push_page(report, key),
    }
}

#[tactic(auto, unfolding(crate::specs::ObservationText::absent_line))]
fn push_page(report: &mut ReportText, key: Key) -> Result<(), AllocError>
    ensures { OnOk result (report.new ≡ report.old ++ (absent_line key ++ 10 ∷ [])) }
{
    report.line("absent-page", Code(key.page))
}
