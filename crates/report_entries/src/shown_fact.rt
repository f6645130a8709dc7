// How facts are shown in reports.
ghost use Rattle.std.specs.Prelude.{◌≡◌, Some};
ghost use Rattle.report_entries.specs.Facts.{key_text, texts_of};
ghost use Rattle.report_entries.specs.FactText.{four_digits, level_text, milliwatts_text, named_text, spaced_names, version_text, yes_word};

use crate::fact::Place;
use crate::shown::Code;
use decibels::Dbm;
use std::fmt;

/// A name with what it is about: `rx-power-lane-1`.
#[derive(Clone, Copy)]
pub struct Key<'a>(pub &'a str, pub Place);

impl fmt::Display for Key<'_> {
    ghost output = { λ shown. Some (key_text shown.0.now shown.1) };

    #[tactic(auto, unfolding(crate::specs::Facts::key_text))]
    fn fmt<W: fmt::Write>(&self, f: &mut fmt::Formatter<W>) -> fmt::Result {
        let name = self.0;
        match self.1 {
            Place::Module => f.write_str(name),
            Place::Lane(number) => write!(f, "{name}-lane-{number}"),
            Place::App(number) => write!(f, "{name}-app-{number}"),
        }
    }
}

pub fn yes_word(yes: bool) -> &'static str
    ensures { result.now ≡ yes_word yes }
{
    if yes { "yes" } else { "no" }
}

/// A code and its name in quotes.
#[derive(Clone, Copy)]
pub struct Named(pub u8, pub &'static str);

impl fmt::Display for Named {
    ghost output = { λ shown. Some (named_text shown.0 shown.1.now) };

    #[tactic(auto, unfolding(crate::specs::FactText::named_text))]
    fn fmt<W: fmt::Write>(&self, f: &mut fmt::Formatter<W>) -> fmt::Result {
        let (code, name) = (Code(self.0), self.1);
        write!(f, "{code} \"{name}\"")
    }
}

/// Names in quotes, each with a space before it.
#[derive(Clone, Copy)]
pub struct SpacedNames<'a>(pub &'a [&'static str]);

impl fmt::Display for SpacedNames<'_> {
    ghost output = { λ shown. Some (spaced_names (texts_of shown.0.now)) };

    #[tactic(auto, unfolding(crate::specs::FactText::spaced_names))]
    fn fmt<W: fmt::Write>(&self, f: &mut fmt::Formatter<W>) -> fmt::Result {
        for name in self.0 {
            let name = *name;
            write!(f, " \"{name}\"")?;
        }
        Ok(())
    }
}

/// A major and a minor number.
#[derive(Clone, Copy)]
pub struct Version(pub u8, pub u8);

impl fmt::Display for Version {
    ghost output = { λ shown. Some (version_text shown.0 shown.1) };

    #[tactic(auto, unfolding(crate::specs::FactText::version_text))]
    fn fmt<W: fmt::Write>(&self, f: &mut fmt::Formatter<W>) -> fmt::Result {
        let (major, minor) = (self.0, self.1);
        write!(f, "{major}.{minor}")
    }
}

/// A power in tenths of a microwatt, shown in dBm.
#[derive(Clone, Copy)]
pub struct Level(pub u16);

impl fmt::Display for Level {
    ghost output = { λ shown. Some (level_text shown.0) };

    #[tactic(auto, unfolding(crate::specs::FactText::level_text))]
    fn fmt<W: fmt::Write>(&self, f: &mut fmt::Formatter<W>) -> fmt::Result {
        let level = Dbm::of(self.0);
        write!(f, "{level}")
    }
}

/// The same in milliwatts.
#[derive(Clone, Copy)]
pub struct Milliwatts(pub u16);

impl fmt::Display for Milliwatts {
    ghost output = { λ shown. Some (milliwatts_text shown.0) };

    #[tactic(auto, unfolding(crate::specs::FactText::milliwatts_text))]
    fn fmt<W: fmt::Write>(&self, f: &mut fmt::Formatter<W>) -> fmt::Result {
        let whole = self.0 / 10_000;
        let rest = FourDigits(self.0 % 10_000);
        write!(f, "{whole}.{rest}")
    }
}

#[derive(Clone, Copy)]
struct FourDigits(u16);

impl fmt::Display for FourDigits {
    ghost output = { λ shown. Some (four_digits shown.0) };

    fn fmt<W: fmt::Write>(&self, f: &mut fmt::Formatter<W>) -> fmt::Result {
        let (first, second) = (self.0 / 1000 % 10, self.0 / 100 % 10);
        let (third, fourth) = (self.0 / 10 % 10, self.0 % 10);
        write!(f, "{first}{second}{third}{fourth}")
    }
}
