mod bounds;
mod entries;
mod reading;
mod writing;

use crate::plan::Plan;
use crate::state::State;
pub use bounds::LARGE_POTENTIAL;
pub use entries::Entries;
use field_tables::LaneSet;
use std::marker::Model;
pub use writing::{ENTRY_LINE, HEAD, end_line, entry_line, head_of};

/// A state and a bound on what can still be gained from it.
#[derive(Clone, Copy, Debug, PartialEq, Eq, Default)]
pub struct Entry {
    /// How many host lanes are decided, 0 to 8.
    pub boundary: u8,
    /// The used media lanes: bit i-1 is 1 if lane i is used.
    pub used: u8,
    /// In a good certificate, no decisions that follow one another from the state weigh more.
    pub potential: u64,
}

impl Entry {
    ghost use Rattle.std.specs.Prelude.{◌≡◌};
    ghost use Rattle.plan_certificate.specs.Certificates.{entry_place, state_of};

    /// The state that the entry bounds.
    pub(crate) fn state(&self) -> State
        ensures { result ≡ state_of self.now }
    {
        State {
            boundary: self.boundary,
            used: LaneSet::from(self.used),
        }
    }

    /// The place of its state among all states, by boundary and then by the byte of used media lanes.
    pub(crate) fn place(&self) -> usize
        ensures { result ≡ entry_place self.now }
    {
        256 * usize::from(self.boundary) + usize::from(self.used)
    }
}

/// A plan, its weight, the paths that it keeps, and entries that are to show that no plan that keeps them weighs more:
/// `check` says whether they do.
#[derive(Debug, Drop)]
pub struct Certificate<'text, const STATES: usize> {
    /// It is for a module that pairs first lanes.
    pub paired: bool,
    pub weight: u64,
    /// Paths that a plan has to hold, in any order.
    pub kept: Plan,
    pub plan: Plan,
    /// The states rise by boundary, then by the byte of used media lanes.
    pub entries: Entries<'text, STATES>,
}

impl<'text, const STATES: usize> Model for Certificate<'text, STATES> {
    ghost use Rattle.plan_certificate.specs.Certificates.{Claim, HasStates};

    ghost Value = { Claim };

    ghost view = { λ certificate. record { paired = certificate.paired; weight = certificate.weight; kept = certificate.kept; paths = certificate.plan; entries = certificate.entries.entries } };

    ghost invariant = { λ certificate. HasStates certificate.entries.entries };
}
