// How a link test ended, as numbers.
ghost use Rattle.std.specs.Prelude.{◌≡◌};
ghost use Rattle.saved_tests.specs.Endings as spec;

use crate::saving::numbers_of_fault;
use conversations::{Spent, Timed};
use lane_controls::TestEnd;

/// How a test ended.
#[repr(C)]
#[derive(Clone, Copy)]
pub struct SavedTestEnd {
    /// 0 if it did all of its plan, 1 to 9 for the faults in their order, 10 if the module didn't answer for too long, 11 after as many
    /// operations as may be.
    pub end: u8,
    /// The byte on page 13h of the control that the fault is about, or 0.
    pub control: u8,
}

/// The numbers of how it ended.
pub fn ending_of(spent: &Spent<Timed<TestEnd>>) -> SavedTestEnd
    ensures { result ≡ spec.ending_of spent.now }
{
    let (end, control) = match &spent.end {
        Some(Timed::InTime(end)) => numbers_of_fault(end.fault),
        Some(Timed::Overdue) => (10, 0),
        None => (11, 0),
    };
    SavedTestEnd { end, control }
}
