// Changes of lanes, which C keeps.
ghost use Rattle.std.specs.Prelude.{◌≡◌, ◌≢◌, ℕ, Some};
ghost use Rattle.bus_model.specs.declared.operation.Op.{Op};
ghost use Rattle.bus_model.specs.declared.operation.Reply.{Reply as Told};
ghost use Rattle.conversations.specs.declared.next.Next.TheVariants as nexts;
ghost use Rattle.conversations.specs.Patiently.{paused};
ghost use Rattle.saved_lanes.specs.SavedLanes.{Procedure, changing_in};
ghost use Rattle.saved_lanes.specs.Turns.{after, begun_change};
ghost use Rattle.firmware_api.specs.LanesTold.{IsEndTold, refusal_of, wanted_in};
ghost use Rattle.firmware_api.specs.Operations.{reply_of};
ghost use Rattle.firmware_api.specs.Patiences.{doubts, given};
ghost use Rattle.firmware_api.specs.Statuses.{done, status_by};
ghost use Rattle.firmware_api.specs.Updates.{IsNextTold, IsReplyTold};

use crate::conversation::{WAITED, reply_to};
use crate::operation::Operation;
use crate::patience::Patience;
use crate::status::{DONE, ENDED, NO_CONVERSATION, NO_REPLY, NOT_ENDED};
use conversations::{Conversation, Next};
use saved_lanes::{
    SavedChanging, SavedLaneChange, SavedLaneEnd, begin, ending_of, restore, take_saved, wait_saved,
};

/// Puts into `changing` a change of lanes of which nothing was done yet.
#[unsafe(no_mangle)]
pub extern "C" fn dovecounter_lane_begin(
    change: &SavedLaneChange,
    patience: &Patience,
    changing: &mut SavedChanging,
) -> u32
    ensures status { result ≡ status_by (refusal_of change.now) }
    ensures begun { result ≡ done → changing_in changing.new ≡ Some (begun_change change.now (given patience.now) (doubts patience.now)) }
    ensures refused { result ≢ done → changing.new ≡ changing.old }
{
    match begin(change, patience.given(), patience.doubts()) {
        Some(saved) => {
            *changing = saved;
            DONE
        }
        None => NO_CONVERSATION,
    }
}

/// Puts into `operation` what is to be done now.
#[unsafe(no_mangle)]
pub extern "C" fn dovecounter_lane_next(changing: &SavedChanging, operation: &mut Operation) -> u32
    ensures told { IsNextTold result operation.new (wanted_in changing.now) }
    ensures refused { result ≢ done → operation.new ≡ operation.old }
{
    let Some(procedure) = restore(changing) else {
        return NO_CONVERSATION;
    };
    match procedure.next() {
        Next::Do(op) => {
            operation.put(&op);
            DONE
        }
        Next::Wait(milliseconds) => {
            operation.put_wait(milliseconds);
            DONE
        }
        Next::End(_spent) => ENDED,
    }
}

/// Takes what came of that.
#[unsafe(no_mangle)]
pub extern "C" fn dovecounter_lane_reply(
    changing: &mut SavedChanging,
    outcome: u8,
    bytes: &[u8],
) -> u32
    ensures told { IsReplyTold result outcome (reply_of outcome bytes.now) (wanted_in changing.old) }
    ensures taken { result ≡ done → (procedure : Procedure) (op : Op) (reply : Told) → changing_in changing.old ≡ Some procedure →
        wanted_in changing.old ≡ Some (nexts.Do op) → reply_of outcome bytes.now ≡ Some reply →
        changing_in changing.new ≡ Some (after procedure reply) }
    ensures waited { result ≡ done → (procedure : Procedure) (time : ℕ) → changing_in changing.old ≡ Some procedure →
        wanted_in changing.old ≡ Some (nexts.Wait time) → changing_in changing.new ≡ Some (paused procedure) }
    ensures refused { result ≢ done → changing.new ≡ changing.old }
{
    let Some(procedure) = restore(changing) else {
        return NO_CONVERSATION;
    };
    match procedure.next() {
        Next::Do(op) => match reply_to(&op, outcome, bytes) {
            Some(reply) => {
                take_saved(procedure, &reply, changing);
                DONE
            }
            None => NO_REPLY,
        },
        Next::Wait(_) if outcome == WAITED => {
            wait_saved(procedure, changing);
            DONE
        }
        Next::Wait(_) => NO_REPLY,
        Next::End(_spent) => ENDED,
    }
}

/// Puts into `ended` how it ended.
#[unsafe(no_mangle)]
pub extern "C" fn dovecounter_lane_end(changing: &SavedChanging, ended: &mut SavedLaneEnd) -> u32
    ensures told { IsEndTold result ended.new (changing_in changing.now) }
    ensures refused { result ≢ done → ended.new ≡ ended.old }
{
    let Some(procedure) = restore(changing) else {
        return NO_CONVERSATION;
    };
    match procedure.next() {
        Next::End(spent) => {
            *ended = ending_of(&procedure, &spent);
            DONE
        }
        Next::Do(_) | Next::Wait(_) => NOT_ENDED,
    }
}
