//! Levels as text.
ghost use Rattle.std.specs.Prelude.{Some};
ghost use Rattle.decibels.specs.Dbm.{dbm_text, hundredths_text};

use crate::levels::level;
use std::fmt;

/// A level as `level` gives it, shown in dBm: `-2.30`, and `-inf` if there is no power.
#[derive(Clone, Copy)]
pub struct Dbm(pub Option<u16>);

impl Dbm {
    ghost use Rattle.std.specs.Prelude.{◌≡◌};
    ghost use Rattle.decibels.specs.Levels.{level_of};

    /// Of a power in tenths of a microwatt.
    pub fn of(power: u16) -> Dbm
        ensures { result.0 ≡ level_of power }
    {
        Dbm(level(power))
    }
}

impl fmt::Display for Dbm {
    ghost output = { λ shown. Some (dbm_text shown.0) };

    fn fmt<W: fmt::Write>(&self, f: &mut fmt::Formatter<W>) -> fmt::Result {
        match self.0 {
            None => f.write_str("-inf"),
            Some(level) => {
                let (minus, size) = if level < 4_000 {
                    ("-", 4_000 - level)
                } else {
                    ("", level - 4_000)
                };
                let size = Hundredths(size);
                write!(f, "{minus}{size}")
            }
        }
    }
}

#[derive(Clone, Copy)]
struct Hundredths(u16);

impl fmt::Display for Hundredths {
    ghost output = { λ shown. Some (hundredths_text shown.0) };

    fn fmt<W: fmt::Write>(&self, f: &mut fmt::Formatter<W>) -> fmt::Result {
        let (whole, first, second) = (self.0 / 100, self.0 / 10 % 10, self.0 % 10);
        write!(f, "{whole}.{first}{second}")
    }
}
