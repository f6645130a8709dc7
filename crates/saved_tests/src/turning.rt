//! The beginning of a link test, and one turn of it, from its numbers to its numbers.
ghost use Rattle.std.specs.Prelude.{◌≡◌, MatchOption, Some, false, true};
ghost use Rattle.conversations.specs.Wanted.{IsReplyTo};
ghost use Rattle.saved_tests.specs.LinkPlans.{is_plan};
ghost use Rattle.saved_tests.specs.SavedTests.{Procedure, test_in};
ghost use Rattle.saved_tests.specs.Turns.{IsRested, IsStopped, after, begun_test, wants};

use crate::link_plan::{LinkPlan, is_plan, test_plan};
use crate::numbers::SavedTest;
use crate::saving::save;
use bus_model::Reply;
use conversations::{Conversation, Patience};
use lane_controls::{PatientTestProcedure, STOP, patient_test_procedure};

/// How many operations a test makes at most.
pub const MAX_STEPS: u16 = 4096;

/// The numbers of a test that is begun, if the plan is one. After a refusal it doubts the page selection, or doesn't.
pub fn begin(plan: &LinkPlan, patience: Patience, doubts: bool) -> Option<SavedTest>
    ensures { MatchOption result (is_plan plan.now ≡ false)
        (λ saved. (is_plan plan.now ≡ true) × (test_in saved ≡ Some (begun_test plan.now patience doubts))) }
{
    if is_plan(plan) {
        Some(begun(plan, patience, doubts))
    } else {
        None
    }
}

fn begun(plan: &LinkPlan, patience: Patience, doubts: bool) -> SavedTest
    requires { is_plan plan.now ≡ true }
    ensures { test_in result ≡ Some (begun_test plan.now patience doubts) }
{
    let mut procedure = patient_test_procedure(test_plan(plan), patience, MAX_STEPS);
    procedure.conversation.conversation.doubts = doubts;
    save(&procedure)
}

/// Takes the reply to the operation that was to be made, and keeps the numbers of the test then.
pub fn take_saved(mut procedure: PatientTestProcedure, reply: &Reply, saved: &mut SavedTest)
    requires { IsReplyTo (wants procedure) reply.now }
    ensures { test_in saved.new ≡ Some (after procedure reply.now) }
{
    procedure.take(reply);
    *saved = save(&procedure);
}

/// So long as was asked for has passed; keeps the numbers of the test then.
pub fn wait_saved(mut procedure: PatientTestProcedure, saved: &mut SavedTest)
    ensures { (rested : Procedure) × IsRested procedure rested × (test_in saved.new ≡ Some rested) }
{
    procedure.waited();
    *saved = save(&procedure);
}

/// The caller says that the test is to stop; keeps the numbers of the test then.
pub fn stop_saved(mut procedure: PatientTestProcedure, saved: &mut SavedTest)
    ensures { (stopped : Procedure) × IsStopped procedure stopped × (test_in saved.new ≡ Some stopped) }
{
    procedure.asked(STOP);
    *saved = save(&procedure);
}
