// Names of metrics, and what is said of them, from the names of a report's lines.
ghost use Rattle.std.specs.Prelude.{◌≡◌, ◌<◌, Some};
ghost use Rattle.module_metrics.specs.MetricNames.{amount_help, amount_name, scope_help, scope_name, snake, word_letter, words};

use crate::base_unit::base_name;
use report_entries::PrintedUnit;
use std::fmt;

/// What an amount is of.
#[derive(Clone, Copy, Drop)]
pub enum Scope {
    Module,
    Lane,
    /// A limit of what is measured.
    Limit,
}

impl Scope {
    #[tactic(auto, unfolding(crate::specs::MetricNames::scope_name))]
    fn name(self) -> &'static str
        ensures { result.now ≡ scope_name self }
    {
        match self {
            Scope::Module => "dovecounter_module_",
            Scope::Lane => "dovecounter_lane_",
            Scope::Limit => "dovecounter_",
        }
    }

    #[tactic(auto, unfolding(crate::specs::MetricNames::scope_help))]
    fn help(self) -> &'static str
        ensures { result.now ≡ scope_help self }
    {
        match self {
            Scope::Module => " of the module in ",
            Scope::Lane => " of a lane in ",
            Scope::Limit => " in ",
        }
    }
}

/// The name of a metric of amounts.
#[derive(Clone, Copy)]
pub struct AmountName {
    pub scope: Scope,
    pub name: &'static str,
    pub unit: PrintedUnit,
}

impl fmt::Display for AmountName {
    ghost output = { λ of. Some (amount_name of.scope of.name.now of.unit) };

    #[tactic(auto, unfolding(crate::specs::MetricNames::amount_name))]
    fn fmt<W: fmt::Write>(&self, f: &mut fmt::Formatter<W>) -> fmt::Result {
        let (scope, name, unit) = (self.scope.name(), Snake(self.name), base_name(self.unit));
        write!(f, "{scope}{name}_{unit}")
    }
}

/// What is said of it.
#[derive(Clone, Copy)]
pub struct AmountHelp(pub AmountName);

impl fmt::Display for AmountHelp {
    ghost output = { λ shown. Some (amount_help shown.0.scope shown.0.name.now shown.0.unit) };

    #[tactic(auto, unfolding(crate::specs::MetricNames::amount_help))]
    fn fmt<W: fmt::Write>(&self, f: &mut fmt::Formatter<W>) -> fmt::Result {
        let of = self.0;
        let (name, scope, unit) = (Words(of.name), of.scope.help(), base_name(of.unit));
        write!(f, "{name}{scope}{unit}")
    }
}

/// A name with an underscore for each byte that is no small letter or digit.
#[derive(Clone, Copy)]
pub struct Snake(pub &'static str);

impl fmt::Display for Snake {
    ghost output = { λ shown. Some (snake shown.0.now) };

    fn fmt<W: fmt::Write>(&self, f: &mut fmt::Formatter<W>) -> fmt::Result {
        for byte in self.0.as_bytes() {
            let letter = word_letter('_', *byte);
            write!(f, "{letter}")?;
        }
        Ok(())
    }
}

/// A name with a space for each such byte.
#[derive(Clone, Copy)]
pub struct Words(pub &'static str);

impl fmt::Display for Words {
    ghost output = { λ shown. Some (words 32 shown.0.now) };

    fn fmt<W: fmt::Write>(&self, f: &mut fmt::Formatter<W>) -> fmt::Result {
        for byte in self.0.as_bytes() {
            let letter = word_letter(' ', *byte);
            write!(f, "{letter}")?;
        }
        Ok(())
    }
}

/// A small letter or digit as it is, this one for all else.
pub fn word_letter(gap: char, byte: u8) -> char
    requires { gap < 128 }
    ensures letter { result ≡ word_letter gap byte }
    ensures ascii { result < 128 }
{
    if byte.is_ascii_lowercase() || byte.is_ascii_digit() {
        char::from(byte)
    } else {
        gap
    }
}
