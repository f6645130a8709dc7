// All that a module says of itself, as text and as JSON.
ghost use Rattle.std.specs.Prelude.{◌≡◌, ◌++◌, ◌∷◌, [], map, IfOk, OnOk, Some};
ghost use Rattle.std.specs.String.{string_bytes};
ghost use Rattle.text_lines.specs.Lines.{text_of};
ghost use Rattle.report_entries.specs.Entries.{entry_of};
ghost use Rattle.report_entries.specs.EntryJson.{IsJsonText};
ghost use Rattle.report_entries.specs.FactText.{in_unit};
ghost use Rattle.report_entries.specs.JsonTrees.{all_member_tokens};
ghost use Rattle.reports.specs.Answered.{Reports};
ghost use Rattle.reports.specs.Details.{details_fault};
ghost use Rattle.observable_reports.specs.AmountTexts as amounts;
ghost use Rattle.observable_reports.specs.Answered.{AnswersJson};
ghost use Rattle.observable_reports.specs.Details.{amount_members, amount_seen, details_json, details_lines, instance_key, instance_line, instance_lines, instance_members, instances_lines, instances_members, json_with, lines_with, members_with, observed_name, unit_key};

use crate::amount_text::ShownAmount;
use crate::listed_instances::{Seen, all_listed};
use crate::observation_text::{PlaceText, format_of, shown};
use observables::{Observation, Unit, figure_name, quantity_name, unit_name};
use paged_memory::Image;
use report_entries::json_document::{begin, end};
use report_entries::{Entry, JsonWriter, ReportText, push_entries, put_entries};
use reports::{ReportFault, details_entries};
use std::alloc::{AllocError, Global};
use std::fmt;

/// All that the module says of itself, line by line: what stands at fixed places, then what it lists itself (VDM).
#[tactic(auto, unfolding(report_entries::specs::Entries::as_entries))]
pub fn details(alloc: Global, image: &Image) -> Result<Vec<u8>, ReportFault>
    ensures { Reports (details_fault image.now) (details_lines image.now) result }
{
    let entries = details_entries(alloc, image)?;
    let seen = all_listed(alloc, image)?;
    Ok(text(alloc, &entries, &seen)?)
}

/// The same as JSON.
#[tactic(auto, unfolding(report_entries::specs::Entries::as_entries))]
pub fn details_json(alloc: Global, image: &Image) -> Result<Vec<u8>, ReportFault>
    ensures { AnswersJson (details_fault image.now) (details_json image.now) result }
{
    let entries = details_entries(alloc, image)?;
    let seen = all_listed(alloc, image)?;
    Ok(json(alloc, &entries, &seen)?)
}

// ---- text

fn text(alloc: Global, entries: &[Entry], seen: &[Seen]) -> Result<Vec<u8>, AllocError>
    ensures { IfOk result (λ text. text.items ≡ text_of (lines_with (map entry_of entries.now) seen.now)) }
{
    let mut report = ReportText::new(alloc);
    push_entries(&mut report, entries)?;
    push_instances(alloc, &mut report, seen)?;
    Ok(report.into_bytes())
}

#[tactic(auto, unfolding(crate::specs::Details::instances_lines))]
fn push_instances(alloc: Global, report: &mut ReportText, seen: &[Seen]) -> Result<(), AllocError>
    ensures { OnOk result (report.new ≡ report.old ++ text_of (instances_lines seen.now)) }
{
    for one in seen {
        push_instance(alloc, report, *one)?;
    }
    Ok(())
}

fn push_instance(alloc: Global, report: &mut ReportText, seen: Seen) -> Result<(), AllocError>
    ensures { OnOk result (report.new ≡ report.old ++ text_of (instance_lines seen)) }
{
    match amount_seen(seen) {
        None => Ok(()),
        Some(amount) => push_amount(alloc, report, seen, amount),
    }
}

#[tactic(auto, unfolding(crate::specs::Details::instance_line))]
fn push_amount(
    alloc: Global,
    report: &mut ReportText,
    seen: Seen,
    amount: ShownAmount,
) -> Result<(), AllocError>
    ensures { OnOk result (report.new ≡ report.old ++ (instance_line seen amount ++ 10 ∷ [])) }
{
    let key = key_of(alloc, seen)?;
    report.line(
        key.as_str(),
        InUnit(amount, unit_name(seen.observation.unit)),
    )
}

// ---- JSON

fn json(alloc: Global, entries: &[Entry], seen: &[Seen]) -> Result<Vec<u8>, AllocError>
    ensures { IfOk result (λ text. IsJsonText (json_with (map entry_of entries.now) seen.now) text.items) }
{
    let mut out = begin(alloc)?;
    put_members(alloc, &mut out, entries, seen)?;
    end(out)
}

fn put_members(
    alloc: Global,
    out: &mut JsonWriter,
    entries: &[Entry],
    seen: &[Seen],
) -> Result<(), AllocError>
    ensures { OnOk result (out.new
        ≡ out.old ++ all_member_tokens (members_with (map entry_of entries.now) seen.now)) }
{
    put_entries(out, entries)?;
    put_instances(alloc, out, seen)
}

#[tactic(auto, unfolding(crate::specs::Details::instances_members))]
fn put_instances(alloc: Global, out: &mut JsonWriter, seen: &[Seen]) -> Result<(), AllocError>
    ensures { OnOk result (out.new ≡ out.old ++ all_member_tokens (instances_members seen.now)) }
{
    for one in seen {
        put_instance(alloc, out, *one)?;
    }
    Ok(())
}

fn put_instance(alloc: Global, out: &mut JsonWriter, seen: Seen) -> Result<(), AllocError>
    ensures { OnOk result (out.new ≡ out.old ++ all_member_tokens (instance_members seen)) }
{
    match amount_seen(seen) {
        None => Ok(()),
        Some(amount) => put_amount(alloc, out, seen, amount),
    }
}

#[tactic(auto, unfolding(crate::specs::Details::amount_members))]
fn put_amount(
    alloc: Global,
    out: &mut JsonWriter,
    seen: Seen,
    amount: ShownAmount,
) -> Result<(), AllocError>
    ensures { OnOk result (out.new ≡ out.old ++ all_member_tokens (amount_members seen amount)) }
{
    let key = key_of(alloc, seen)?;
    out.key_in(key.as_str(), unit_key(seen.observation.unit))?;
    out.scalar(amount)
}

// ---- an instance

// Its amount, if that is known.
fn amount_seen(seen: Seen) -> Option<ShownAmount>
    ensures { result ≡ amount_seen seen }
{
    shown(format_of(seen.observation), seen.observation.amount)
}

fn key_of(alloc: Global, seen: Seen) -> Result<String, AllocError>
    ensures { IfOk result (λ key. string_bytes key ≡ instance_key seen) }
{
    let key = InstanceKey(seen);
    format!(in alloc; "{key}")
}

// What its line is called.
#[derive(Clone, Copy)]
struct InstanceKey(Seen);

impl fmt::Display for InstanceKey {
    ghost output = { λ shown. Some (instance_key shown.0) };

    #[tactic(auto, unfolding(crate::specs::Details::instance_key))]
    fn fmt<W: fmt::Write>(&self, f: &mut fmt::Formatter<W>) -> fmt::Result {
        let (name, number) = (ObservedName(self.0.observation), self.0.number);
        write!(f, "vdm-{name}-instance-{number}")
    }
}

// What is measured and where.
#[derive(Clone, Copy)]
struct ObservedName(Observation);

impl fmt::Display for ObservedName {
    ghost output = { λ shown. Some (observed_name shown.0) };

    #[tactic(auto, unfolding(crate::specs::Details::observed_name))]
    fn fmt<W: fmt::Write>(&self, f: &mut fmt::Formatter<W>) -> fmt::Result {
        let seen = self.0;
        let quantity = quantity_name(seen.observable.quantity);
        let figure = figure_name(seen.observable.figure);
        let place = PlaceText(seen.subject, seen.observable.side);
        write!(f, "{quantity}-{figure}-{place}")
    }
}

// An amount and its unit.
#[derive(Clone, Copy)]
struct InUnit(ShownAmount, &'static str);

impl fmt::Display for InUnit {
    ghost output = { λ shown. Some (in_unit (amounts.text_of shown.0) shown.1.now) };

    #[tactic(auto, unfolding(report_entries::specs::FactText::in_unit))]
    fn fmt<W: fmt::Write>(&self, f: &mut fmt::Formatter<W>) -> fmt::Result {
        let (amount, unit) = (self.0, self.1);
        write!(f, "{amount} {unit}")
    }
}

// As it stands at the end of a name in JSON.
#[tactic(auto, unfolding(crate::specs::Details::unit_key))]
fn unit_key(unit: Unit) -> &'static str
    ensures { result.now ≡ unit_key unit }
{
    match unit {
        Unit::Percent => "percent",
        Unit::Ratio => "ratio",
        Unit::Frames => "frames",
        Unit::Celsius => "c",
        Unit::Volts => "v",
        Unit::Milliamperes => "ma",
        Unit::Milliwatts => "mw",
        Unit::DecibelMilliwatts => "dbm",
        Unit::Decibel => "db",
        Unit::Megahertz => "mhz",
        Unit::Picoseconds => "ps",
        Unit::SquarePicoseconds => "ps2",
        Unit::PicosecondsPerNanometre => "ps_per_nm",
        Unit::KiloradiansPerSecond => "krad_per_s",
    }
}
