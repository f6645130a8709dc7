use crate::fact::Place;
use crate::shown::SpacedBytes;
use crate::shown_fact::{Key, SpacedNames};
use std::alloc::{AllocError, Global};
use std::fmt::{Display, Write};
use std::marker::Model;

/// The text of a report, which grows line by line.
#[derive(Drop)]
pub struct ReportText {
    text: String,
}

impl Model for ReportText {
    ghost use Rattle.std.specs.Prelude.{ℕ, List};
    ghost use Rattle.std.specs.String.{string_bytes};

    ghost Value = { List ℕ };

    ghost view = { λ report. string_bytes report.text };
}

impl ReportText {
    ghost use Rattle.std.specs.Prelude.{◌≡◌, ◌++◌, ◌∷◌, [], IfSome, OnOk};
    ghost use Rattle.report_entries.specs.Facts.{key_text, texts_of};
    ghost use Rattle.report_entries.specs.FactText.{in_unit, spaced_names};
    ghost use Rattle.report_entries.specs.Lines.{line};
    ghost use Rattle.report_entries.specs.Shown.{spaced_bytes};

    /// A report without lines.
    pub fn new(alloc: Global) -> ReportText
        ensures { result ≡ [] }
    {
        ReportText {
            text: String::new(alloc),
        }
    }

    /// Adds a line: a name, a space and a value.
    #[tactic(auto, unfolding(crate::specs::Lines::line))]
    pub fn line<V: Display + Drop>(&mut self, name: &str, value: V) -> Result<(), AllocError>
        ensures { IfSome (V.output value) (λ shown.
            OnOk result (self.new ≡ self.old ++ (line name.now shown ++ 10 ∷ []))) }
    {
        writeln!(self.text, "{name} {value}")
    }

    /// Adds a line: a name, and bytes in hexadecimal, each with a space before it.
    pub fn bytes(&mut self, name: &str, bytes: &[u8]) -> Result<(), AllocError>
        ensures { OnOk result (self.new ≡ self.old ++ ((name.now ++ spaced_bytes bytes.now) ++ 10 ∷ [])) }
    {
        let bytes = SpacedBytes(bytes);
        writeln!(self.text, "{name}{bytes}")
    }

    /// Adds a line: a name with what it is about, a space and a value.
    #[tactic(auto, unfolding(crate::specs::Lines::line))]
    pub(crate) fn line_of<V: Display + Drop>(
        &mut self,
        name: &str,
        place: Place,
        value: V,
    ) -> Result<(), AllocError>
        ensures { IfSome (V.output value) (λ shown.
            OnOk result (self.new ≡ self.old ++ (line (key_text name.now place) shown ++ 10 ∷ []))) }
    {
        let key = Key(name, place);
        writeln!(self.text, "{key} {value}")
    }

    /// The same with the unit of the value.
    #[tactic(auto, unfolding(crate::specs::Lines::line, crate::specs::FactText::in_unit))]
    pub(crate) fn line_in<V: Display + Drop>(
        &mut self,
        name: &str,
        place: Place,
        value: V,
        unit: &str,
    ) -> Result<(), AllocError>
        ensures { IfSome (V.output value) (λ shown.
            OnOk result (self.new ≡ self.old ++ (line (key_text name.now place) (in_unit shown unit.now) ++ 10 ∷ []))) }
    {
        let key = Key(name, place);
        writeln!(self.text, "{key} {value} {unit}")
    }

    /// Adds a line: a name with what it is about, and names in quotes, each with a space before it.
    pub(crate) fn names(
        &mut self,
        name: &str,
        place: Place,
        names: &[&'static str],
    ) -> Result<(), AllocError>
        ensures { OnOk result (self.new ≡ self.old ++ ((key_text name.now place ++ spaced_names (texts_of names.now)) ++ 10 ∷ [])) }
    {
        let (key, names) = (Key(name, place), SpacedNames(names));
        writeln!(self.text, "{key}{names}")
    }

    /// The text.
    pub fn into_bytes(self) -> Vec<u8>
        ensures { result.items ≡ self }
    {
        self.text.into_bytes()
    }
}
