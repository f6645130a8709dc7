// Facts as text.
ghost use Rattle.std.specs.Prelude.{◌≡◌, ◌++◌, ◌∷◌, [], OnOk};
ghost use Rattle.report_entries.specs.Facts.{fact_of};
ghost use Rattle.report_entries.specs.FactText.{fact_line};

use crate::fact::{Fact, Place};
use crate::report_text::ReportText;
use crate::shown::{Code, LanesCode, Measure, Revision, TextIn};
use crate::shown_fact::{Level, Milliwatts, Named, Version, yes_word};
use crate::shown_state::{ModuleStateCode, PathStateCode, StatusCode};
use std::alloc::AllocError;
use text_lines::Hexadecimal;

/// Adds the line of a fact.
#[tactic(auto, unfolding(crate::specs::FactText::fact_line))]
pub fn push_fact(
    report: &mut ReportText,
    name: &str,
    place: Place,
    fact: &Fact,
) -> Result<(), AllocError>
    ensures { OnOk result (report.new ≡ report.old ++ (fact_line name.now place (fact_of fact.now) ++ 10 ∷ [])) }
{
    match fact {
        Fact::Word(word) => report.line_of(name, place, *word),
        Fact::Yes(yes) => report.line_of(name, place, yes_word(*yes)),
        Fact::Number(number) => report.line_of(name, place, *number),
        Fact::Named(code, title) => report.line_of(name, place, Named(*code, *title)),
        Fact::Names(names) => report.names(name, place, names.as_slice()),
        Fact::Revision(byte) => report.line_of(name, place, Revision(*byte)),
        Fact::Version(major, minor) => report.line_of(name, place, Version(*major, *minor)),
        Fact::Text(bytes) => report.line_of(name, place, TextIn(bytes.as_slice())),
        Fact::Oui(bytes) => report.line_of(name, place, Hexadecimal(bytes)),
        Fact::Amount(millis, unit) => report.line_of(name, place, Measure(*millis, unit.name())),
        Fact::Level(power) => report.line_in(name, place, Level(*power), "dBm"),
        Fact::Milliwatts(power) => report.line_in(name, place, Milliwatts(*power), "mW"),
        Fact::LaneSet(lanes) => report.line_of(name, place, LanesCode(*lanes)),
        Fact::ModuleState(code) => report.line_of(name, place, ModuleStateCode(*code)),
        Fact::PathState(code) => report.line_of(name, place, PathStateCode(*code)),
        Fact::ConfigStatus(code) => report.line_of(name, place, StatusCode(*code)),
    }
}
