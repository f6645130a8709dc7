// The numbers of a link test.
ghost use Rattle.std.specs.Prelude.{◌≡◌, Some, true};
ghost use Rattle.lane_controls.specs.Controls.{address_of};
ghost use Rattle.saved_tests.specs.SavedControls.{control_in};
ghost use Rattle.saved_tests.specs.SavedTests.{test_in};
ghost use Rattle.saved_tests.specs.SavedTests as spec;

use crate::lists::{
    NO_CHANGE, numbers_of_bytes, numbers_of_change, numbers_of_changes, numbers_of_switch,
    numbers_of_switches,
};
use crate::numbers::{SavedChange, SavedTest, SavedTestPlan};
use crate::restoring::TEST;
use crate::selections::code_for;
use lane_controls::{
    Change, Control, LinkTest, PatientTestProcedure, Switch, TestFault, TestPlan, TestStage,
};
use paged_memory::KnownPage;

/// The numbers of a test under way.
pub fn save(procedure: &PatientTestProcedure) -> SavedTest
    ensures { test_in result ≡ Some procedure.now }
{
    let pausing = &procedure.conversation;
    let on_page = &pausing.conversation;
    let test = numbers_of_test(&on_page.conversation);
    let due = number_of(pausing.due);
    let doubts = number_of(on_page.doubts);
    let page = numbers_of_page(on_page.selection);
    let taken = numbers_of_taken(on_page.taken);
    SavedTest {
        idle: pausing.idle,
        pause: pausing.patience.pause,
        limit: pausing.patience.limit,
        steps: procedure.steps,
        max_steps: procedure.limit,
        due,
        doubts,
        selection: page.0,
        page: page.1,
        taken: taken.0,
        taken_page: taken.1,
        ..test
    }
}

// Of the test itself: no operation was made, and nothing is known of the page selection.
fn numbers_of_test(test: &LinkTest) -> SavedTest
    ensures same { spec.test_at result ≡ test.now }
    ensures sound { spec.is_sound result ≡ true }
{
    let plan = numbers_of_plan(&test.plan);
    let stage = numbers_of_stage(test.stage);
    let fault = numbers_of_fault(test.fault);
    let on = numbers_of_changes(&test.on);
    let still_on = numbers_of_changes(&test.still_on);
    let results = numbers_of_bytes(&test.results);
    let each_on = on.1;
    let each_still_on = still_on.1;
    let each_result = results.1;
    SavedTest {
        magic: TEST,
        idle: 0,
        pause: 0,
        limit: 0,
        plan,
        next_switch: test.next_switch,
        steps: 0,
        max_steps: 0,
        stage: stage.0,
        byte: stage.2,
        hand: stage.1,
        tries: test.tries,
        rounds: test.rounds,
        fault: fault.0,
        fault_control: fault.1,
        on_count: on.0,
        still_on_count: still_on.0,
        result_count: results.0,
        due: 0,
        doubts: 0,
        selection: 0,
        page: 0,
        taken: 0,
        taken_page: 0,
        flags: test.flags,
        on: each_on,
        still_on: each_still_on,
        results: each_result,
    }
}

fn numbers_of_plan(plan: &TestPlan) -> SavedTestPlan
    ensures same { spec.plan_in result ≡ plan.now }
    ensures known { spec.is_plan result ≡ true }
{
    let results = code_for(plan.results);
    let switches = numbers_of_switches(&plan.switches);
    let each_switch = switches.1;
    SavedTestPlan {
        period: plan.period,
        count: switches.0,
        permitted: plan.permitted,
        tries: plan.tries,
        results,
        rounds: plan.rounds,
        media_paths: plan.media_paths,
        switches: each_switch,
    }
}

// How far a test has come: a number, what is in hand, and the byte that it showed.
fn numbers_of_stage(stage: TestStage) -> (u8, SavedChange, u8)
    ensures same { spec.stage_in result.0 result.1 result.2 ≡ stage }
    ensures known { spec.is_stage result.0 result.1 ≡ true }
{
    match stage {
        TestStage::Advertised => (0, NO_CHANGE, 0),
        TestStage::Capabilities => (1, NO_CHANGE, 0),
        TestStage::Paths => (2, NO_CHANGE, 0),
        TestStage::Unread(switch) => (3, unread(switch), 0),
        TestStage::Found(change) => (4, in_hand(change), 0),
        TestStage::Switched(change) => (5, in_hand(change), 0),
        TestStage::Again(change, byte) => (6, in_hand(change), byte),
        TestStage::Selecting => (7, NO_CHANGE, 0),
        TestStage::Clearing => (8, NO_CHANGE, 0),
        TestStage::Resting => (9, NO_CHANGE, 0),
        TestStage::Reading => (10, NO_CHANGE, 0),
        TestStage::Collecting => (11, NO_CHANGE, 0),
        TestStage::Down(change) => (12, in_hand(change), 0),
        TestStage::Restore(change, byte) => (13, in_hand(change), byte),
        TestStage::Over => (14, NO_CHANGE, 0),
    }
}

fn in_hand(change: Change) -> SavedChange
    ensures same { spec.change_in result ≡ change }
    ensures known { spec.is_hand result.switch.control ≡ true }
{
    numbers_of_change(change)
}

// Of a switch whose control is unread.
fn unread(switch: Switch) -> SavedChange
    ensures same { spec.switch_in result.switch ≡ switch }
    ensures known { spec.is_hand result.switch.control ≡ true }
{
    SavedChange {
        switch: numbers_of_switch(switch),
        original: 0,
    }
}

/// The number of a fault, and its control's byte on page 13h, or 0.
pub fn numbers_of_fault(fault: Option<TestFault>) -> (u8, u8)
    ensures value { result ≡ spec.numbers_of_fault fault }
    ensures same { spec.fault_in result.0 result.1 ≡ fault }
    ensures known { spec.is_fault result.0 result.1 ≡ true }
{
    match fault {
        None => (0, 0),
        Some(TestFault::Twice(control)) => (1, byte_of(control)),
        Some(TestFault::NoDiagnostics) => (2, 0),
        Some(TestFault::Unsupported(control)) => (3, byte_of(control)),
        Some(TestFault::UnsupportedResults) => (4, 0),
        Some(TestFault::LoopbacksOnBothSides) => (5, 0),
        Some(TestFault::NotPermitted(control)) => (6, byte_of(control)),
        Some(TestFault::Stopped) => (7, 0),
        Some(TestFault::NotSwitched(control)) => (8, byte_of(control)),
        Some(TestFault::TooMany(control)) => (9, byte_of(control)),
    }
}

fn byte_of(control: Control) -> u8
    ensures value { result ≡ address_of control }
    ensures same { control_in result ≡ control }
    ensures known { spec.is_hand result ≡ true }
{
    control.address()
}

fn number_of(yes: bool) -> u8
    ensures { spec.is_one result ≡ yes }
{
    if yes { 1 } else { 0 }
}

fn numbers_of_page(selected: KnownPage) -> (u8, u16)
    ensures { spec.page_in result.0 result.1 ≡ selected }
{
    match selected {
        KnownPage::Unknown => (0, 0),
        KnownPage::Open => (1, 0),
        KnownPage::Page(page) => (2, page),
    }
}

fn numbers_of_taken(taken: Option<u16>) -> (u8, u16)
    ensures { spec.taken_in result.0 result.1 ≡ taken }
{
    match taken {
        None => (0, 0),
        Some(page) => (1, page),
    }
}
