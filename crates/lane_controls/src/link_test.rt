//! A test of a link: patterns and loopbacks are switched on, results are read, and all is switched off again.
ghost use Rattle.std.specs.Prelude.{◌≡◌, ◌≤◌, [], length};
ghost use Rattle.bus_model.specs.Operations.{IsWellShaped};
ghost use Rattle.conversations.specs.Wanted.{IfDo};
ghost use Rattle.lane_controls.specs.TestOperations as spec;
ghost use Rattle.lane_controls.specs.TestSteps.{AllMade};
ghost use Rattle.lane_controls.specs.TestAccounts as accounts;
ghost use Rattle.lane_controls.specs.Controls.{address_of};
ghost use Rattle.conversations.specs.Events.{Events, steps_of};

mod conversation;
mod turns;

use crate::control::Control;
use crate::page_bytes::{read_at, read_from, store_at};
use crate::test_plan::{Change, MAX_SWITCHES, Switch, TestPlan, copy_of, is_among, repeated};
use arrayvec::ArrayVec;
use conversations::Next;

/// A caller who says this number ends a test early: what is on is switched off.
pub const STOP: u32 = 1;

/// How many controls may be on: one in hand, those that are on, and those that couldn't be switched off.
pub const MAX_CHANGES: usize = 2 * MAX_SWITCHES + 1;

/// Why a test was broken off. Where the plan is refused, from `Twice` to `NotPermitted`, nothing was stored but page selections.
#[derive(Clone, Copy)]
pub enum TestFault {
    /// The plan switches it twice.
    Twice(Control),
    /// The module has no pages 13h and 14h.
    NoDiagnostics,
    /// The module doesn't advertise that it can be switched so.
    Unsupported(Control),
    /// The module doesn't advertise such results.
    UnsupportedResults,
    /// The module doesn't advertise loopbacks of both sides at once.
    LoopbacksOnBothSides,
    /// It concerns a lane of a path that is up, and that isn't permitted.
    NotPermitted(Control),
    /// The caller ended it.
    Stopped,
    /// It was stored as often as may be, and shows something else.
    NotSwitched(Control),
    /// No more can be kept.
    TooMany(Control),
}

/// How a test ended.
#[derive(Drop)]
pub struct TestEnd {
    pub fault: Option<TestFault>,
    /// The controls that may still be on.
    pub still_on: ArrayVec<Change, MAX_SWITCHES>,
}

/// How far a test has come.
#[derive(Clone, Copy)]
pub enum TestStage {
    /// Whether the module has pages 13h and 14h is to be read.
    Advertised,
    /// What the module can do is to be read.
    Capabilities,
    /// Which paths are up is to be read.
    Paths,
    /// A control is to be read.
    Unread(Switch),
    /// It was, and is to be stored.
    Found(Change),
    /// It was stored, and is to be read back.
    Switched(Change),
    /// That showed this byte, and it is to be stored again.
    Again(Change, u8),
    /// All are on, and results are to be selected.
    Selecting,
    /// Flags that were latched before are to be read, which clears them.
    Clearing,
    /// Time is to pass.
    Resting,
    /// Results are to be read.
    Reading,
    /// Flags that were latched since are to be read.
    Collecting,
    /// A control is to be off, and to be read.
    Down(Change),
    /// It showed this byte, and is to be stored as it was.
    Restore(Change, u8),
    Over,
}

/// A test of a link under way.
#[derive(Drop)]
pub struct LinkTest {
    pub plan: TestPlan,
    pub stage: TestStage,
    /// How many switches of the plan were begun.
    pub next_switch: usize,
    /// What is on, the newest first, besides what the stage is about.
    pub on: ArrayVec<Change, MAX_SWITCHES>,
    /// What couldn't be switched off.
    pub still_on: ArrayVec<Change, MAX_SWITCHES>,
    /// How often the control in hand may be stored again.
    pub tries: u8,
    /// How often results are still to be read.
    pub rounds: u8,
    pub fault: Option<TestFault>,
    /// The results as read last: bytes 192 to 255 of page 14h.
    pub results: ArrayVec<u8, 128>,
    /// Flags that were set at some time since results were selected: bytes 132 to 139 of page 14h.
    pub flags: [u8; 8],
}

impl LinkTest {
    /// Nothing was done yet. A plan that switches a control twice is refused.
    pub fn of(plan: TestPlan) -> LinkTest
        ensures value { result ≡ spec.begun plan }
        ensures told { accounts.IsTold [] result }
    {
        let (stage, fault) = match repeated(&plan.switches) {
            Some(switch) => (TestStage::Over, Some(TestFault::Twice(switch.control))),
            None => (TestStage::Advertised, None),
        };
        LinkTest {
            plan,
            stage,
            next_switch: 0,
            on: ArrayVec::new(),
            still_on: ArrayVec::new(),
            tries: 0,
            rounds: 0,
            fault,
            results: ArrayVec::new(),
            flags: [0; 8],
        }
    }

    /// Whether a control was switched and may still be so, as far as is known now. Whatever happened, one that was stored and
    /// isn't named so has the bits that it had before, and was read back with them.
    pub fn may_be_on(&self, control: Control) -> bool
        ensures value { result ≡ accounts.is_named self.now.stage self.now (address_of control) }
        ensures told { (events : Events) → accounts.IsTold events self.now → accounts.LeavesNothing self.now.plan events (accounts.is_named self.now.stage self.now) }
    {
        let address = control.address();
        self.is_in_hand(address)
            || (is_among(&self.on, address) || is_among(&self.still_on, address))
    }

    /// The controls that may be on, as far as is known now, with their bytes before the test. Whatever happened, one that was stored
    /// and isn't among them has the bits that it had before, and was read back with them.
    pub fn changes(&self) -> ArrayVec<Change, MAX_CHANGES>
        ensures value { result.items ≡ accounts.changes_of self.now }
        ensures told { (events : Events) → accounts.IsTold events self.now → accounts.LeavesNothing self.now.plan events (spec.is_among result.items) }
        ensures made { (events : Events) → accounts.IsTold events self.now → AllMade self.now.plan (steps_of events) result.items }
    {
        let mut changes = self.in_hand();
        changes.try_extend_from_slice(&self.on).unwrap();
        changes.try_extend_from_slice(&self.still_on).unwrap();
        changes
    }

    fn in_hand(&self) -> ArrayVec<Change, MAX_CHANGES>
        ensures items { result.items ≡ accounts.change_in_hand self.now.stage }
        ensures few { length result.items ≤ 1 }
    {
        let mut changes = ArrayVec::new();
        match self.stage {
            TestStage::Switched(change)
            | TestStage::Again(change, _)
            | TestStage::Down(change)
            | TestStage::Restore(change, _) => changes.push(change),
            _ => {}
        }
        changes
    }

    fn is_in_hand(&self, address: u8) -> bool
        ensures { result ≡ accounts.is_in_hand self.now.stage address }
    {
        match self.stage {
            TestStage::Switched(change)
            | TestStage::Again(change, _)
            | TestStage::Down(change)
            | TestStage::Restore(change, _) => { change.is_of(address) }
            _ => false,
        }
    }

    fn op(&self) -> Next<TestEnd>
        ensures value { result ≡ spec.wants self.now }
        ensures shape { IfDo result IsWellShaped }
    {
        match self.stage {
            TestStage::Advertised => Next::Do(read_at(142)),
            TestStage::Capabilities => Next::Do(read_from(128, 12)),
            TestStage::Paths => Next::Do(read_from(128, 4)),
            TestStage::Unread(switch) => Next::Do(read_at(switch.address())),
            TestStage::Found(change) => Next::Do(store_at(
                change.switch.address(),
                change.switch.switched(change.original),
            )),
            TestStage::Switched(change) | TestStage::Down(change) => Next::Do(read_at(
                change.switch.address(),
            )),
            TestStage::Again(change, now) => Next::Do(store_at(
                change.switch.address(),
                change.switch.switched(now),
            )),
            TestStage::Selecting => Next::Do(store_at(128, self.plan.results.code())),
            TestStage::Clearing | TestStage::Collecting => Next::Do(read_from(132, 8)),
            TestStage::Resting => Next::Wait(self.plan.period),
            TestStage::Reading => Next::Do(read_from(192, 64)),
            TestStage::Restore(change, now) => Next::Do(store_at(
                change.switch.address(),
                change.restored(now),
            )),
            TestStage::Over => Next::End(self.end()),
        }
    }

    fn end(&self) -> TestEnd
        ensures { result ≡ spec.end_of self.now }
    {
        TestEnd {
            fault: self.fault,
            still_on: copy_of(&self.still_on),
        }
    }
}
