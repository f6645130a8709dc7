// The controls that a link test may leave on, as numbers.
ghost use Rattle.std.specs.Prelude.{◌≡◌, length, map, take};
ghost use Rattle.lane_controls.specs.TestAccounts.{changes_of};
ghost use Rattle.saved_tests.specs.SavedTests.{numbers_of_change};
ghost use Rattle.saved_tests.specs.Endings.{AreChanges};

use crate::lists::{NO_CHANGE, each_change};
use crate::numbers::SavedChange;
use arrayvec::ArrayVec;
use lane_controls::{Change, LinkTest, MAX_CHANGES};

/// Controls that may be on.
#[repr(C)]
#[derive(Clone, Copy)]
pub struct SavedChanges {
    pub changes: [SavedChange; MAX_CHANGES],
    /// How many of them count.
    pub count: u8,
}

/// The controls that may be on now, with their bytes before the test.
pub fn changes_of(test: &LinkTest) -> SavedChanges
    ensures { AreChanges result (changes_of test.now) }
{
    let listed = test.changes();
    let count = listed.len();
    let changes = all_changes(&listed);
    SavedChanges {
        changes,
        count: count as u8,
    }
}

// With zeros after them.
fn all_changes(changes: &ArrayVec<Change, MAX_CHANGES>) -> [SavedChange; MAX_CHANGES]
    ensures { take (length changes.now.items) result ≡ map numbers_of_change changes.now.items }
{
    let numbers = each_change(changes);
    let mut all = [NO_CHANGE; MAX_CHANGES];
    all[..numbers.len()].copy_from_slice(&numbers);
    all
}
