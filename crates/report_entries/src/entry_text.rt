// A report as text.
ghost use Rattle.std.specs.Prelude.{◌≡◌, ◌≤◌, ◌++◌, ◌∷◌, [], length, map, OnOk, IfOk};
ghost use Rattle.text_lines.specs.Lines.{text_of};
ghost use Rattle.report_entries.specs.Entries.{content_of, entry_of};
ghost use Rattle.report_entries.specs.AppText.{app_line};
ghost use Rattle.report_entries.specs.EntryText.{lane_line, in_thousandths, lane_lines, lane_state_line, lane_state_lines, report_text, content_lines};
ghost use Rattle.report_entries.specs.Flags.{flag_lines};

use crate::entry::{Content, Entry, LaneState};
use crate::fact_text::push_fact;
use crate::flag::Flag;
use crate::monitor::{LaneMeasure, LimitsText};
use crate::printed_unit::PrintedUnit;
use crate::report_text::ReportText;
use crate::shown::{Code, LanesCode, Measure, Revision, TextIn, Thousandths, sum_word};
use crate::shown_app::ShownApp;
use crate::shown_state::{LaneCodes, ModuleStateCode};
use applications::App;
use field_tables::PerLimit;
use std::alloc::{AllocError, Global};
use text_lines::Hexadecimal;

/// The text of a report, line by line.
pub fn text(alloc: Global, entries: &[Entry]) -> Result<Vec<u8>, AllocError>
    ensures { IfOk result (λ text. text.items ≡ report_text (map entry_of entries.now)) }
{
    let mut report = ReportText::new(alloc);
    push_entries(&mut report, entries)?;
    Ok(report.into_bytes())
}

/// Adds the lines of a report.
pub fn push_entries(report: &mut ReportText, entries: &[Entry]) -> Result<(), AllocError>
    ensures { OnOk result (report.new ≡ report.old ++ report_text (map entry_of entries.now)) }
{
    for entry in entries {
        push_content(report, entry.name, &entry.content)?;
    }
    Ok(())
}

#[tactic(auto, unfolding(crate::specs::EntryText::content_lines))]
fn push_content(
    report: &mut ReportText,
    name: &'static str,
    content: &Content,
) -> Result<(), AllocError>
    ensures { OnOk result (report.new ≡ report.old ++ text_of (content_lines name.now (content_of content.now))) }
{
    match content {
        Content::Word(word) => report.line(name, *word),
        Content::Right(right) => report.line(name, sum_word(*right)),
        Content::Number(number) => report.line(name, *number),
        Content::Code(byte) => report.line(name, Code(*byte)),
        Content::Revision(byte) => report.line(name, Revision(*byte)),
        Content::Text(bytes) => report.line(name, TextIn(bytes.as_slice())),
        Content::Oui(bytes) => report.line(name, Hexadecimal(bytes)),
        Content::Amount(millis, unit) => report.line(name, Measure(*millis, unit.name())),
        Content::Lanes(millis, unit) => push_lanes(report, name, millis.as_slice(), *unit),
        Content::Limits(limits, _) => report.line(name, LimitsText(in_thousandths(*limits))),
        Content::State(code) => report.line(name, ModuleStateCode(*code)),
        Content::LaneStates(states) => push_lane_states(report, name, states.as_slice()),
        Content::Flags(flags) => push_flags(report, name, flags),
        Content::Apps(apps) => push_apps(report, name, apps.as_slice()),
        Content::LaneSet(lanes) => report.line(name, LanesCode(*lanes)),
        Content::Fact(place, fact) => push_fact(report, name, *place, fact),
    }
}

fn push_lanes(
    report: &mut ReportText,
    name: &'static str,
    values: &[i64],
    unit: PrintedUnit,
) -> Result<(), AllocError>
    requires { length values.now ≤ 32 }
    ensures { OnOk result (report.new ≡ report.old ++ text_of (lane_lines name.now unit values.now)) }
{
    for (index, millis) in values.iter().enumerate() {
        push_lane(report, name, index as u8 + 1, *millis, unit)?;
    }
    Ok(())
}

#[tactic(auto, unfolding(crate::specs::EntryText::lane_line))]
fn push_lane(
    report: &mut ReportText,
    name: &'static str,
    lane: u8,
    millis: i64,
    unit: PrintedUnit,
) -> Result<(), AllocError>
    ensures { OnOk result (report.new ≡ report.old ++ (lane_line name.now unit lane millis ++ 10 ∷ [])) }
{
    report.line(name, LaneMeasure(lane, Measure(millis, unit.name())))
}

fn push_lane_states(
    report: &mut ReportText,
    name: &'static str,
    states: &[LaneState],
) -> Result<(), AllocError>
    requires { length states.now ≤ 32 }
    ensures { OnOk result (report.new ≡ report.old ++ text_of (lane_state_lines name.now states.now)) }
{
    for (index, state) in states.iter().enumerate() {
        push_lane_state(report, name, index as u8 + 1, *state)?;
    }
    Ok(())
}

#[tactic(auto, unfolding(crate::specs::EntryText::lane_state_line))]
fn push_lane_state(
    report: &mut ReportText,
    name: &'static str,
    lane: u8,
    lane_state: LaneState,
) -> Result<(), AllocError>
    ensures { OnOk result (report.new ≡ report.old ++ (lane_state_line name.now lane lane_state ++ 10 ∷ [])) }
{
    let codes = LaneCodes {
        lane,
        state: lane_state.path,
        status: lane_state.status,
    };
    report.line(name, codes)
}

// A line for each flag, or one that says that there is none.
#[tactic(auto, using(crate::proofs::RaisedFlags::lines_of_none, crate::proofs::RaisedFlags::lines_of_some))]
fn push_flags(report: &mut ReportText, name: &'static str, flags: &[Flag]) -> Result<(), AllocError>
    ensures { OnOk result (report.new ≡ report.old ++ text_of (flag_lines name.now flags.now)) }
{
    if flags.is_empty() {
        return report.line(name, "none");
    }
    for flag in flags {
        report.line(name, *flag)?;
    }
    Ok(())
}

fn push_apps(report: &mut ReportText, name: &'static str, apps: &[App]) -> Result<(), AllocError>
    ensures { OnOk result (report.new ≡ report.old ++ text_of (map (app_line name.now) apps.now)) }
{
    for app in apps {
        push_app(report, name, *app)?;
    }
    Ok(())
}

#[tactic(auto, unfolding(crate::specs::AppText::app_line))]
fn push_app(report: &mut ReportText, name: &'static str, app: App) -> Result<(), AllocError>
    ensures { OnOk result (report.new ≡ report.old ++ (app_line name.now app ++ 10 ∷ [])) }
{
    report.line(name, ShownApp(app))
}

fn in_thousandths(limits: PerLimit<i64>) -> PerLimit<Thousandths>
    ensures { result ≡ in_thousandths limits }
{
    PerLimit {
        high_alarm: Thousandths(limits.high_alarm),
        low_alarm: Thousandths(limits.low_alarm),
        high_warning: Thousandths(limits.high_warning),
        low_warning: Thousandths(limits.low_warning),
    }
}
