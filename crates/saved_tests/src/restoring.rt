// From numbers to a link test.
ghost use Rattle.std.specs.Prelude.{◌≡◌, ◌≤◌, true};
ghost use Rattle.saved_tests.specs.SavedTests.{test_in};
ghost use Rattle.saved_tests.specs.SavedTests as spec;

use crate::controls::{control_in, is_control};
use crate::lists::{
    are_changes, are_switches, bytes_in, change_in, changes_in, switch_in, switches_in,
};
use crate::numbers::{SavedChange, SavedSwitch, SavedTest, SavedTestPlan};
use crate::selections::{is_selection, results_in};
use conversations::{OnPage, Patience, Pausing, Within};
use lane_controls::{LinkTest, MAX_SWITCHES, PatientTestProcedure, TestFault, TestPlan, TestStage};
use paged_memory::KnownPage;

/// What stands in each test under way, so that other memory is not taken for one: `DCT1`.
pub const TEST: u32 = 0x4443_5431;

/// The test that has these numbers, if one has.
#[tactic(auto, unfolding(crate::specs::SavedTests::test_in))]
pub fn restore(saved: &SavedTest) -> Option<PatientTestProcedure>
    ensures { result ≡ test_in saved.now }
{
    if is_sound(saved) {
        Some(procedure_in(saved))
    } else {
        None
    }
}

// ---- whether they are a test's

fn is_sound(saved: &SavedTest) -> bool
    ensures { result ≡ spec.is_sound saved.now }
{
    saved.magic == TEST
        && is_plan(&saved.plan)
        && is_stage(saved.stage, saved.hand)
        && is_fault(saved.fault, saved.fault_control)
        && has_lists(saved)
}

fn has_lists(saved: &SavedTest) -> bool
    ensures { result ≡ spec.has_lists saved.now }
{
    saved.result_count <= 128
        && are_first_changes(saved.on_count, &saved.on)
        && are_first_changes(saved.still_on_count, &saved.still_on)
}

fn is_plan(saved: &SavedTestPlan) -> bool
    ensures { result ≡ spec.is_plan saved.now }
{
    is_selection(saved.results) && are_first_switches(saved.count, &saved.switches)
}

fn is_stage(number: u8, hand: SavedChange) -> bool
    ensures { result ≡ spec.is_stage number hand }
{
    number <= 14 && is_hand(hand.switch.control)
}

fn is_fault(number: u8, control: u8) -> bool
    ensures { result ≡ spec.is_fault number control }
{
    number <= 9 && is_hand(control)
}

fn is_hand(control: u8) -> bool
    ensures { result ≡ spec.is_hand control }
{
    control == 0 || is_control(control)
}

fn are_first_switches(count: u8, saved: &[SavedSwitch; MAX_SWITCHES]) -> bool
    ensures { result ≡ spec.are_switches count saved.now }
{
    usize::from(count) <= MAX_SWITCHES && are_switches(&saved[..usize::from(count)])
}

fn are_first_changes(count: u8, saved: &[SavedChange; MAX_SWITCHES]) -> bool
    ensures { result ≡ spec.are_changes count saved.now }
{
    usize::from(count) <= MAX_SWITCHES && are_changes(&saved[..usize::from(count)])
}

// ---- which test it is

fn procedure_in(saved: &SavedTest) -> PatientTestProcedure
    requires { spec.is_sound saved.now ≡ true }
    ensures { result ≡ spec.procedure_in saved.now }
{
    let conversation = OnPage {
        conversation: test_at(saved),
        selection: page_in(saved.selection, saved.page),
        taken: taken_in(saved.taken, saved.taken_page),
        doubts: saved.doubts == 1,
    };
    let patience = Patience {
        pause: saved.pause,
        limit: saved.limit,
    };
    Within {
        conversation: Pausing {
            conversation,
            patience,
            due: saved.due == 1,
            idle: saved.idle,
        },
        steps: saved.steps,
        limit: saved.max_steps,
    }
}

fn test_at(saved: &SavedTest) -> LinkTest
    requires { spec.is_sound saved.now ≡ true }
    ensures { result ≡ spec.test_at saved.now }
{
    LinkTest {
        plan: plan_in(&saved.plan),
        stage: stage_in(saved.stage, saved.hand, saved.byte),
        next_switch: saved.next_switch,
        on: changes_in(saved.on_count, &saved.on),
        still_on: changes_in(saved.still_on_count, &saved.still_on),
        tries: saved.tries,
        rounds: saved.rounds,
        fault: fault_in(saved.fault, saved.fault_control),
        results: bytes_in(saved.result_count, &saved.results),
        flags: saved.flags,
    }
}

fn plan_in(saved: &SavedTestPlan) -> TestPlan
    requires { saved.now.count ≤ 16 }
    ensures { result ≡ spec.plan_in saved.now }
{
    TestPlan {
        switches: switches_in(saved.count, &saved.switches),
        permitted: saved.permitted,
        media_paths: saved.media_paths,
        tries: saved.tries,
        results: results_in(saved.results),
        rounds: saved.rounds,
        period: saved.period,
    }
}

fn stage_in(number: u8, hand: SavedChange, byte: u8) -> TestStage
    ensures { result ≡ spec.stage_in number hand byte }
{
    match number {
        0 => TestStage::Advertised,
        1 => TestStage::Capabilities,
        2 => TestStage::Paths,
        3 => TestStage::Unread(switch_in(hand.switch)),
        4 => TestStage::Found(change_in(hand)),
        5 => TestStage::Switched(change_in(hand)),
        6 => TestStage::Again(change_in(hand), byte),
        7 => TestStage::Selecting,
        8 => TestStage::Clearing,
        9 => TestStage::Resting,
        10 => TestStage::Reading,
        11 => TestStage::Collecting,
        12 => TestStage::Down(change_in(hand)),
        13 => TestStage::Restore(change_in(hand), byte),
        _ => TestStage::Over,
    }
}

fn fault_in(number: u8, control: u8) -> Option<TestFault>
    ensures { result ≡ spec.fault_in number control }
{
    let control = control_in(control);
    match number {
        0 => None,
        1 => Some(TestFault::Twice(control)),
        2 => Some(TestFault::NoDiagnostics),
        3 => Some(TestFault::Unsupported(control)),
        4 => Some(TestFault::UnsupportedResults),
        5 => Some(TestFault::LoopbacksOnBothSides),
        6 => Some(TestFault::NotPermitted(control)),
        7 => Some(TestFault::Stopped),
        8 => Some(TestFault::NotSwitched(control)),
        _ => Some(TestFault::TooMany(control)),
    }
}

fn page_in(number: u8, page: u16) -> KnownPage
    ensures { result ≡ spec.page_in number page }
{
    match number {
        2 => KnownPage::Page(page),
        1 => KnownPage::Open,
        _ => KnownPage::Unknown,
    }
}

fn taken_in(number: u8, page: u16) -> Option<u16>
    ensures { result ≡ spec.taken_in number page }
{
    if number == 1 { Some(page) } else { None }
}
