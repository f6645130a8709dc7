ghost use Rattle.std.specs.Prelude.{◌≡◌, ◌+◌, ◌<◌, ◌≤◌, MatchOption};
ghost use Rattle.lane_planner.specs.Marks.{IsFirstMarked, MarksToo, NoneMarked, NothingMarked, is_marked};

use plan_certificate::STATES;
use std::marker::Model;

/// How many bytes have a bit for each state.
const BYTES: usize = 288;

/// Marks on states, by their places: bit i of byte k is that of place 8 * k + i. A mark takes a bit and not a byte, for firmware
/// has little stack.
#[derive(Drop)]
pub struct Marks {
    bytes: [u8; BYTES],
}

impl Model for Marks {
    ghost use Rattle.std.specs.Prelude.{◌≡◌, List, ℕ, length};

    ghost Value = { List ℕ };

    ghost view = { λ marks. marks.bytes };

    ghost invariant = { λ marks. length marks.bytes ≡ 288 };
}

impl Marks {
    /// No state is marked.
    pub(crate) fn blank() -> Self
        ensures { NothingMarked result }
    {
        Marks { bytes: [0; BYTES] }
    }

    /// Whether the state at a place is marked.
    pub(crate) fn has(&self, place: usize) -> bool
        requires { place < STATES }
        ensures { result ≡ is_marked self.now place }
    {
        let bytes = &self.bytes;
        (bytes[place / 8] >> (place % 8)) & 1 == 1
    }

    /// The first marked place from `from` on and before `end`.
    pub(crate) fn first(&self, from: usize, end: usize) -> Option<usize>
        requires { end ≤ STATES }
        ensures { MatchOption result (NoneMarked self.now from end) (IsFirstMarked self.now from end) }
    {
        let mut place = from;
        while place < end {
            if self.has(place) {
                return Some(place);
            }
            place = self.next(place);
        }
        None
    }

    // The next place; if the byte of this one has no mark, the first place of the next byte.
    fn next(&self, place: usize) -> usize
        requires { place < STATES }
        ensures later { place < result }
        ensures none { NoneMarked self.now (place + 1) result }
    {
        let byte = self.bytes[place / 8];
        if byte == 0 {
            8 * (place / 8 + 1)
        } else {
            place + 1
        }
    }

    pub(crate) fn mark(&mut self, place: usize)
        requires { place < STATES }
        ensures { MarksToo self.old place self.new }
    {
        self.bytes[place / 8] |= 1 << (place % 8);
    }
}
