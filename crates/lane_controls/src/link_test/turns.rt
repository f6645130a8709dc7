//! What a reply makes of a link test, and the time that passes.
ghost use Rattle.std.specs.Prelude.{◌≡◌, ◌≤◌, ◌<◌, Some, IfSome, length, slice_index, slice_get};
ghost use Rattle.arrayvec.specs.ArrayVec.{ArrayVec, array_vec_len};
ghost use Rattle.conversations.specs.Wanted.{IsReplyTo};
ghost use Rattle.lane_controls.specs.LinkTests as spec;
ghost use Rattle.lane_controls.specs.TestOperations as tests;
ghost use Rattle.lane_controls.specs.TestPlans as plans;

use super::{LinkTest, STOP, TestFault, TestStage};
use crate::capabilities::has_diagnostics;
use crate::path_lanes::up_lanes;
use crate::test_plan::{Change, MAX_SWITCHES, Switch};
use arrayvec::ArrayVec;
use bus_model::Reply;

impl LinkTest {
    fn next_down(&mut self)
        ensures { self.new ≡ spec.next_down self.old }
    {
        match self.on.pop_at(0) {
            Some(change) => {
                self.stage = TestStage::Down(change);
                self.tries = self.plan.tries;
            }
            None => self.stage = TestStage::Over,
        }
    }

    fn refuse(&mut self, fault: TestFault)
        ensures { self.new ≡ tests.refused fault self.old }
    {
        self.stage = TestStage::Over;
        self.fault = Some(fault);
    }

    fn advertised(&mut self, byte: u8)
        ensures { self.new ≡ spec.advertised byte self.old }
    {
        if has_diagnostics(byte) {
            self.stage = TestStage::Capabilities;
        } else {
            self.refuse(TestFault::NoDiagnostics);
        }
    }

    fn capable(&mut self, capabilities: &[u8])
        requires { length capabilities.now ≡ 12 }
        ensures { self.new ≡ spec.capable capabilities.now self.old }
    {
        match self.plan.incapability(capabilities) {
            Some(fault) => self.refuse(fault),
            None => self.stage = TestStage::Paths,
        }
    }

    fn admit(&mut self, states: &[u8])
        requires { length states.now ≡ 4 }
        ensures { self.new ≡ spec.admitted states.now self.old }
    {
        match self.plan.forbidden(up_lanes(states)) {
            Some(switch) => self.refuse(TestFault::NotPermitted(switch.control)),
            None => self.next_up(),
        }
    }

    fn next_up(&mut self)
        ensures { self.new ≡ spec.next_up self.old }
    {
        match self.switch_at() {
            Some(switch) => self.begin(switch),
            None => {
                self.stage = TestStage::Selecting;
                self.rounds = self.plan.rounds;
            }
        }
    }

    fn switch_at(&self) -> Option<Switch>
        ensures value { result ≡ slice_get self.now.plan.switches.items self.now.next_switch }
        ensures within { IfSome result (λ switch. self.now.next_switch < 16) }
    {
        self.plan.switches.get(self.next_switch).copied()
    }

    fn begin(&mut self, switch: Switch)
        requires { self.old.next_switch < 16 }
        ensures { self.new ≡ spec.up_by (Some switch) self.old }
    {
        self.stage = TestStage::Unread(switch);
        self.next_switch += 1;
        self.tries = self.plan.tries;
    }

    fn switch_off(&mut self, change: Change, fault: TestFault)
        ensures { self.new ≡ spec.off_with change fault self.old }
    {
        self.stage = TestStage::Down(change);
        self.tries = self.plan.tries;
        self.fault = Some(fault);
    }

    fn found(&mut self, switch: Switch, byte: u8)
        ensures { self.new ≡ spec.found switch byte self.old }
    {
        if switch.switched(byte) == byte {
            self.next_up();
        } else {
            self.stage = TestStage::Found(Change {
                switch,
                original: byte,
            });
        }
    }

    fn is_on(&mut self, change: Change)
        ensures { self.new ≡ spec.is_on change self.old }
    {
        if self.on.len() < MAX_SWITCHES {
            self.on.insert(0, change);
            self.next_up();
        } else {
            self.switch_off(change, TestFault::TooMany(change.switch.control));
        }
    }

    fn read_up(&mut self, change: Change, byte: u8)
        ensures { self.new ≡ spec.read_up change byte self.old }
    {
        if change.switch.switched(byte) == byte {
            self.is_on(change);
        } else if self.tries > 0 {
            self.stage = TestStage::Again(change, byte);
            self.tries -= 1;
        } else {
            self.switch_off(change, TestFault::NotSwitched(change.switch.control));
        }
    }

    fn leave_on(&mut self, change: Change)
        ensures { self.new ≡ spec.leave_on change self.old }
    {
        if self.still_on.len() < MAX_SWITCHES {
            self.still_on.insert(0, change);
            self.next_down();
        }
    }

    fn read_down(&mut self, change: Change, byte: u8)
        ensures { self.new ≡ spec.read_down change byte self.old }
    {
        if change.restored(byte) == byte {
            self.next_down();
        } else if self.tries > 0 {
            self.stage = TestStage::Restore(change, byte);
            self.tries -= 1;
        } else {
            self.leave_on(change);
        }
    }

    fn measured(&mut self, bytes: &ArrayVec<u8, 128>)
        ensures { self.new ≡ spec.measured bytes.now self.old }
    {
        self.stage = TestStage::Collecting;
        self.results = results_of(bytes);
    }

    fn collected(&mut self, bytes: &[u8])
        requires { length bytes.now ≡ 8 }
        ensures { self.new ≡ spec.collected bytes.now self.old }
    {
        self.flags = joined(&self.flags, bytes);
        if self.rounds > 1 {
            self.stage = TestStage::Resting;
            self.rounds -= 1;
        } else {
            self.next_down();
        }
    }

    // Takes a reply.
    pub(super) fn advance(&mut self, reply: &Reply)
        requires { IsReplyTo (tests.wants self.old) reply.now }
        ensures { self.new ≡ spec.after self.old reply.now }
    {
        match (self.stage, reply) {
            (TestStage::Advertised, Reply::Bytes(bytes)) => self.advertised(first_of(bytes)),
            (TestStage::Capabilities, Reply::Bytes(bytes)) => self.capable(bytes),
            (TestStage::Paths, Reply::Bytes(bytes)) => self.admit(bytes),
            (TestStage::Unread(switch), Reply::Bytes(bytes)) => self.found(switch, first_of(bytes)),
            (TestStage::Found(change), _) => self.stage = TestStage::Switched(change),
            (TestStage::Switched(change), Reply::Bytes(bytes)) => self.read_up(
                change,
                first_of(bytes),
            ),
            (TestStage::Again(change, _), _) => self.stage = TestStage::Switched(change),
            (TestStage::Selecting, Reply::Done) => self.stage = TestStage::Clearing,
            (TestStage::Clearing, Reply::Bytes(_)) => self.stage = TestStage::Resting,
            (TestStage::Collecting, Reply::Bytes(bytes)) => self.collected(bytes),
            (TestStage::Reading, Reply::Bytes(bytes)) => self.measured(bytes),
            (TestStage::Down(change), Reply::Bytes(bytes)) => self.read_down(
                change,
                first_of(bytes),
            ),
            (TestStage::Restore(change, _), _) => self.stage = TestStage::Down(change),
            _ => {}
        }
    }

    // So long as was asked for has passed.
    pub(super) fn rest(&mut self)
        ensures { self.new ≡ spec.rested self.old }
    {
        if let TestStage::Resting = self.stage {
            self.stage = TestStage::Reading;
        }
    }

    // The caller said this.
    pub(super) fn stop_by(&mut self, number: u32)
        ensures { self.new ≡ spec.stopped_by number self.old }
    {
        if number == STOP {
            self.stop();
        }
    }

    fn stop(&mut self)
        ensures { self.new ≡ spec.stopped self.old }
    {
        match self.stage {
            TestStage::Switched(change) | TestStage::Again(change, _) => {
                self.switch_off(change, TestFault::Stopped);
            }
            TestStage::Down(_) | TestStage::Restore(_, _) | TestStage::Over => {}
            _ => {
                self.fault = Some(TestFault::Stopped);
                self.next_down();
            }
        }
    }
}

// Flags that were set before or are now.
fn joined(flags: &[u8; 8], bytes: &[u8]) -> [u8; 8]
    requires { length bytes.now ≡ 8 }
    ensures { result ≡ tests.joined flags.now bytes.now }
{
    [
        flags[0] | bytes[0],
        flags[1] | bytes[1],
        flags[2] | bytes[2],
        flags[3] | bytes[3],
        flags[4] | bytes[4],
        flags[5] | bytes[5],
        flags[6] | bytes[6],
        flags[7] | bytes[7],
    ]
}

fn results_of(bytes: &ArrayVec<u8, 128>) -> ArrayVec<u8, 128>
    ensures { result ≡ bytes.now }
{
    ArrayVec::try_from(bytes.as_slice()).unwrap()
}

fn first_of(bytes: &[u8]) -> u8
    requires { length bytes.now ≡ 1 }
    ensures { result ≡ slice_index bytes.now 0 }
{
    bytes[0]
}
