// The entries of a report, whatever it is printed as.
ghost use Rattle.std.specs.Prelude.{◌≡◌, ◌++◌, ◌∷◌, [], OnOk};
ghost use Rattle.report_entries.specs.Entries.{as_entries, content_of, entry};

use crate::fact::{Fact, Place};
use crate::flag::Flag;
use crate::printed_unit::PrintedUnit;
use applications::{App, MAX_APPS};
use arrayvec::ArrayVec;
use field_tables::{LaneSet, PerLimit};
use std::alloc::AllocError;

/// The most lanes that a module has: eight in each of four banks.
pub const MAX_LANES: usize = 32;

/// What stands under a name.
#[derive(Drop)]
pub enum Content {
    /// A word of the report's own.
    Word(&'static str),
    /// Whether a sum is right.
    Right(bool),
    Number(u16),
    /// A byte that is a code of the standard.
    Code(u8),
    Revision(u8),
    /// The bytes of a text field.
    Text(ArrayVec<u8, 16>),
    Oui([u8; 3]),
    /// Thousandths of a unit.
    Amount(i64, PrintedUnit),
    /// The same of each lane, lane 1 first.
    Lanes(ArrayVec<i64, MAX_LANES>, PrintedUnit),
    /// And of each limit.
    Limits(PerLimit<i64>, PrintedUnit),
    /// The state of the module, by its code.
    State(u8),
    /// Of each lane, lane 1 first.
    LaneStates(ArrayVec<LaneState, MAX_LANES>),
    /// The flags that are raised.
    Flags(Vec<Flag>),
    /// Applications by rising number.
    Apps(ArrayVec<App, MAX_APPS>),
    LaneSet(LaneSet),
    /// A fact about the module, a lane or an Application.
    Fact(Place, Fact),
}

/// The state of a lane's data path and the status of its configuration, by their codes.
#[derive(Clone, Copy, Default)]
pub struct LaneState {
    pub path: u8,
    pub status: u8,
}

/// A name and what stands under it.
#[derive(Drop)]
pub struct Entry {
    pub name: &'static str,
    pub content: Content,
}

/// Adds an entry.
#[tactic(auto, unfolding(crate::specs::Entries::as_entries, crate::specs::Entries::entry))]
pub fn add_entry(
    entries: &mut Vec<Entry>,
    name: &'static str,
    content: Content,
) -> Result<(), AllocError>
    ensures { OnOk result (as_entries entries.new ≡ as_entries entries.old ++ entry name.now (content_of content) ∷ []) }
{
    entries.push(Entry { name, content })?;
    Ok(())
}
