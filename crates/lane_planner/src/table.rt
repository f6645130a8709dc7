ghost use Rattle.std.specs.Prelude.{◌≡◌, ◌-◌, ◌≤◌, ◌<◌, true, replicate, slice_index, slice_set};
ghost use Rattle.lane_planner.specs.Tables.{gain_at, has_cell};

use plan_certificate::{LARGE_POTENTIAL, STATES, State};
use std::marker::Model;

/// How many states there are before the last boundary.
const OPEN_STATES: usize = 2048;

/// How many of them have a cell: the start, and those past the first boundary.
const CELLS: usize = 1793;

/// A number below 254 * 2 ^ 32 for each state, by their places: 0 for those at the last boundary, from which nothing can be gained, and for
/// those beside the start at the first one, which nothing reaches. Of the others each takes five bytes and not eight, for firmware has
/// little stack.
#[derive(Drop)]
pub struct Table {
    low: [u32; CELLS],
    high: [u8; CELLS],
}

impl Model for Table {
    ghost use Rattle.std.specs.Prelude.{List, ℕ};
    ghost use Rattle.lane_planner.specs.Tables.{AreParts, numbers_of};

    ghost Value = { List ℕ };

    ghost view = { λ table. numbers_of table.low table.high };

    ghost invariant = { λ table. AreParts table.low table.high };
}

impl Table {
    /// All numbers are 0.
    pub(crate) fn blank() -> Self
        ensures { result ≡ replicate STATES 0 }
    {
        Table {
            low: [0; CELLS],
            high: [0; CELLS],
        }
    }

    #[tactic(auto, using(crate::proofs::CellNumbers::number_is))]
    pub(crate) fn at(&self, place: usize) -> u64
        requires { place < STATES }
        ensures value { result ≡ slice_index self.now place }
        ensures small { result < LARGE_POTENTIAL }
    {
        let (low, high) = (&self.low, &self.high);
        if has_cell(place) {
            let cell = cell_of(place);
            u64::from(low[cell]) + 4294967296 * u64::from(high[cell])
        } else {
            0
        }
    }

    /// What the table has for a state.
    #[tactic(auto, using(crate::proofs::DisjointLanes::byte_below))]
    pub fn of(&self, state: &State) -> u64
        requires { state.now.boundary ≤ 8 }
        ensures { result ≡ gain_at self.now state.now }
    {
        self.at(state.place())
    }

    #[tactic(auto, using(crate::proofs::CellNumbers::parts_set))]
    pub(crate) fn put(&mut self, place: usize, number: u64)
        requires place { has_cell place ≡ true }
        requires small { number < LARGE_POTENTIAL }
        ensures { self.new ≡ slice_set self.old place number }
    {
        let cell = cell_of(place);
        self.low[cell] = (number % 4294967296) as u32;
        self.high[cell] = (number / 4294967296) as u8;
    }
}

// Whether the state at a place has a cell.
fn has_cell(place: usize) -> bool
    ensures { result ≡ has_cell place }
{
    place == 0 || 256 <= place && place < OPEN_STATES
}

// Which one that is, if it has one.
fn cell_of(place: usize) -> usize
    ensures { result ≡ place - 255 }
{
    place.saturating_sub(255)
}
