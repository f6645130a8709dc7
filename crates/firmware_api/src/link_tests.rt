// Link tests, which C keeps.
ghost use Rattle.std.specs.Prelude.{◌≡◌, ◌≢◌, ℕ, Some};
ghost use Rattle.bus_model.specs.declared.operation.Op.{Op};
ghost use Rattle.bus_model.specs.declared.operation.Reply.{Reply as Told};
ghost use Rattle.conversations.specs.declared.next.Next.TheVariants as nexts;
ghost use Rattle.lane_controls.specs.TestAccounts.{changes_of};
ghost use Rattle.saved_tests.specs.Endings.{AreChanges};
ghost use Rattle.saved_tests.specs.LinkCapabilities.{capabilities_of};
ghost use Rattle.saved_tests.specs.LinkResults.{results_of};
ghost use Rattle.saved_tests.specs.SavedTests.{Procedure, test_in};
ghost use Rattle.saved_tests.specs.Turns.{IsRested, IsStopped, after, begun_test, test_of};
ghost use Rattle.firmware_api.specs.LinkTestsTold.{IsEndTold, endian_of, refusal_in, refusal_of, wanted_in};
ghost use Rattle.firmware_api.specs.Operations.{reply_of};
ghost use Rattle.firmware_api.specs.Patiences.{doubts, given};
ghost use Rattle.firmware_api.specs.Statuses.{done, status_by};
ghost use Rattle.firmware_api.specs.Updates.{IsNextTold, IsReplyTold};

use crate::conversation::{WAITED, reply_to};
use crate::operation::Operation;
use crate::patience::Patience;
use crate::status::{DONE, ENDED, NO_CONVERSATION, NO_REPLY, NOT_ENDED};
use conversations::{Conversation, Next};
use lane_controls::Endian;
use saved_tests::{
    LinkCapabilities, LinkPlan, LinkResults, SavedChanges, SavedTest, SavedTestEnd, begin,
    changes_of, ending_of, restore, results_of, stop_saved, take_saved, wait_saved,
};

/// Puts into `test` a link test of which nothing was done yet.
#[unsafe(no_mangle)]
pub extern "C" fn dovecounter_link_test_begin(
    plan: &LinkPlan,
    patience: &Patience,
    test: &mut SavedTest,
) -> u32
    ensures status { result ≡ status_by (refusal_of plan.now) }
    ensures begun { result ≡ done → test_in test.new ≡ Some (begun_test plan.now (given patience.now) (doubts patience.now)) }
    ensures refused { result ≢ done → test.new ≡ test.old }
{
    match begin(plan, patience.given(), patience.doubts()) {
        Some(saved) => {
            *test = saved;
            DONE
        }
        None => NO_CONVERSATION,
    }
}

/// Puts into `operation` what is to be done now.
#[unsafe(no_mangle)]
pub extern "C" fn dovecounter_link_test_next(test: &SavedTest, operation: &mut Operation) -> u32
    ensures told { IsNextTold result operation.new (wanted_in test.now) }
    ensures refused { result ≢ done → operation.new ≡ operation.old }
{
    let Some(procedure) = restore(test) else {
        return NO_CONVERSATION;
    };
    match procedure.next() {
        Next::Do(op) => {
            operation.put(&op);
            DONE
        }
        Next::Wait(milliseconds) => {
            operation.put_wait(milliseconds);
            DONE
        }
        Next::End(_spent) => ENDED,
    }
}

/// Takes what came of that.
#[unsafe(no_mangle)]
pub extern "C" fn dovecounter_link_test_reply(
    test: &mut SavedTest,
    outcome: u8,
    bytes: &[u8],
) -> u32
    ensures told { IsReplyTold result outcome (reply_of outcome bytes.now) (wanted_in test.old) }
    ensures taken { result ≡ done → (procedure : Procedure) (op : Op) (reply : Told) → test_in test.old ≡ Some procedure →
        wanted_in test.old ≡ Some (nexts.Do op) → reply_of outcome bytes.now ≡ Some reply →
        test_in test.new ≡ Some (after procedure reply) }
    ensures waited { result ≡ done → (procedure : Procedure) (time : ℕ) → test_in test.old ≡ Some procedure →
        wanted_in test.old ≡ Some (nexts.Wait time) →
        (rested : Procedure) × IsRested procedure rested × (test_in test.new ≡ Some rested) }
    ensures refused { result ≢ done → test.new ≡ test.old }
{
    let Some(procedure) = restore(test) else {
        return NO_CONVERSATION;
    };
    match procedure.next() {
        Next::Do(op) => match reply_to(&op, outcome, bytes) {
            Some(reply) => {
                take_saved(procedure, &reply, test);
                DONE
            }
            None => NO_REPLY,
        },
        Next::Wait(_) if outcome == WAITED => {
            wait_saved(procedure, test);
            DONE
        }
        Next::Wait(_) => NO_REPLY,
        Next::End(_spent) => ENDED,
    }
}

/// Has a test switch off what is on, and end.
#[unsafe(no_mangle)]
pub extern "C" fn dovecounter_link_test_stop(test: &mut SavedTest) -> u32
    ensures status { result ≡ status_by (refusal_in (test_in test.old)) }
    ensures stopped { (procedure : Procedure) → test_in test.old ≡ Some procedure →
        (stopped : Procedure) × IsStopped procedure stopped × (test_in test.new ≡ Some stopped) }
    ensures refused { result ≢ done → test.new ≡ test.old }
{
    match restore(test) {
        Some(procedure) => {
            stop_saved(procedure, test);
            DONE
        }
        None => NO_CONVERSATION,
    }
}

/// Puts into `ended` how it ended.
#[unsafe(no_mangle)]
pub extern "C" fn dovecounter_link_test_end(test: &SavedTest, ended: &mut SavedTestEnd) -> u32
    ensures told { IsEndTold result ended.new (test_in test.now) }
    ensures refused { result ≢ done → ended.new ≡ ended.old }
{
    let Some(procedure) = restore(test) else {
        return NO_CONVERSATION;
    };
    match procedure.next() {
        Next::End(spent) => {
            *ended = ending_of(&spent);
            DONE
        }
        Next::Do(_) | Next::Wait(_) => NOT_ENDED,
    }
}

/// Puts into `changes` the controls that may be on now, with their bytes before the test.
#[unsafe(no_mangle)]
pub extern "C" fn dovecounter_link_test_changes(test: &SavedTest, changes: &mut SavedChanges) -> u32
    ensures status { result ≡ status_by (refusal_in (test_in test.now)) }
    ensures told { (procedure : Procedure) → test_in test.now ≡ Some procedure → AreChanges changes.new (changes_of (test_of procedure)) }
    ensures refused { result ≢ done → changes.new ≡ changes.old }
{
    match restore(test) {
        Some(procedure) => {
            *changes = changes_of(&procedure.conversation.conversation.conversation);
            DONE
        }
        None => NO_CONVERSATION,
    }
}

/// Puts into `results` what it has shown. Where `big_endian` is 0, counts and ratios of signal to noise begin with their lowest byte.
#[unsafe(no_mangle)]
pub extern "C" fn dovecounter_link_results(
    test: &SavedTest,
    big_endian: u8,
    results: &mut LinkResults,
) -> u32
    ensures status { result ≡ status_by (refusal_in (test_in test.now)) }
    ensures told { (procedure : Procedure) → test_in test.now ≡ Some procedure → results.new ≡ results_of (test_of procedure) (endian_of big_endian) }
    ensures refused { result ≢ done → results.new ≡ results.old }
{
    match restore(test) {
        Some(procedure) => {
            let test = &procedure.conversation.conversation.conversation;
            *results = results_of(test, endian_of(big_endian));
            DONE
        }
        None => NO_CONVERSATION,
    }
}

fn endian_of(big_endian: u8) -> Endian
    ensures { result ≡ endian_of big_endian }
{
    if big_endian == 0 {
        Endian::Little
    } else {
        Endian::Big
    }
}

/// Puts into `capabilities` what byte 142 of page 01h and bytes 128 to 139 of page 13h advertise.
#[unsafe(no_mangle)]
pub extern "C" fn dovecounter_link_capabilities(
    advertised: u8,
    bytes: &[u8; 12],
    capabilities: &mut LinkCapabilities,
)
    ensures { capabilities.new ≡ capabilities_of advertised bytes.now }
{
    *capabilities = LinkCapabilities::of(advertised, bytes);
}
