ghost use Rattle.std.specs.Prelude.{◌≡◌, ◌≢◌, ◌≤◌, ◌∷◌, [], Bool, List, Some, ℕ};
ghost use Rattle.field_tables.specs.LaneSets.{lanes_in};
ghost use Rattle.bus_model.specs.declared.operation.Op.{Op};
ghost use Rattle.bus_model.specs.declared.operation.Reply.{Reply};
ghost use Rattle.conversations.specs.declared.event.Event.TheVariants.{Waited};
ghost use Rattle.conversations.specs.declared.next.Next.TheVariants as nexts;
ghost use Rattle.conversations.specs.declared.pausing.Patience.{Patience as Given};
ghost use Rattle.conversations.specs.Events.{Events, made};
ghost use Rattle.control_sets.specs.declared.procedures.power.Power.TheVariants.{Asleep, Awake};
ghost use Rattle.control_sets.specs.declared.procedures.procedure.Work.TheVariants.{Activation, Provisioning};
ghost use Rattle.module_reading.specs.declared.request.Request.{Request};
ghost use Rattle.module_reading.specs.Regions.{everything};
ghost use Rattle.firmware_api.specs.declared.half.HalfBytes.{HalfBytes};
ghost use Rattle.firmware_api.specs.declared.kept.Kept.{Kept};
ghost use Rattle.firmware_api.specs.declared.kept.Kept.TheVariants as kinds;
ghost use Rattle.conversations.specs.Patiently.{Patient};
ghost use Rattle.firmware_api.specs.KeptConversations.{Bringing, Ending, EndsSo, Fetching, InHand, Subject, Turning, WasTold, after, after_pause};
ghost use Rattle.firmware_api.specs.Halves.{memory_of};
ghost use Rattle.firmware_api.specs.Operations.{reply_of, waited};
ghost use Rattle.firmware_api.specs.Patiences.{doubts, given};
ghost use Rattle.firmware_api.specs.ReadEnds.{HasReadModule};
ghost use Rattle.firmware_api.specs.SavedConversations.{HasInFront, IsEndTold, IsNextTold, IsReplyFor, IsReplyTold, IsSavedAt, conversation_in, end_of, ended_by, ended_with, halves_in, left_by, overdue, piece_for, size_refusal, wanted};
ghost use Rattle.control_sets.specs.SavedNumbers.{numbers};
ghost use Rattle.firmware_api.specs.Statuses.{done, status_by};

mod begun;
mod numbers;
pub mod whole_half;

use crate::half::HalfBytes;
use crate::kept::{Ending, Kept};
use crate::operation::{Operation, reply_of};
use crate::patience::Patience;
use crate::status::{DONE, ENDED, NO_CONVERSATION, NO_REPLY, NOT_ENDED, TOO_FEW_BYTES};
use bus_model::{Op, Reply};
use control_sets::{ControlSet, Power, ProvisionFault, SavedFault, Work};
use conversations::{Next, Spent, Timed, Watched, can_have};
use field_tables::LaneSet;
use module_reading::Request;
use module_states::{ModuleState, state_of};
pub use numbers::{MAX_READ, SavedConversation};

/// How a conversation ended.
#[repr(C)]
#[derive(Clone, Copy)]
pub struct SavedEnd {
    /// How many operations a success took; 0 if there is a fault.
    pub steps: u16,
    /// Why there is no success.
    pub fault: SavedFault,
}

/// What came of a wait.
pub const WAITED: u8 = 3;

/// Puts into `conversation` the procedure that makes these control bytes active, by taking down and applying these lanes.
#[unsafe(no_mangle)]
pub extern "C" fn dovecounter_provision_begin(
    control: &ControlSet,
    lanes: u8,
    patience: &Patience,
    conversation: &mut SavedConversation,
)
    ensures { (halves : List HalfBytes) →
        IsSavedAt (Bringing (Provisioning control.now (lanes_in lanes)) (doubts patience.now) (doubts patience.now)) (given patience.now) [] conversation.new halves }
{
    let (control, lanes) = (*control, LaneSet::from(lanes));
    begun::put_tasks(
        Work::Provisioning { control, lanes },
        patience,
        conversation,
    );
}

/// Puts into `conversation` the procedure that brings up the data paths of these lanes, if these control bytes are active, and takes
/// down those of all others.
#[unsafe(no_mangle)]
pub extern "C" fn dovecounter_activate_begin(
    control: &ControlSet,
    lanes: u8,
    patience: &Patience,
    conversation: &mut SavedConversation,
)
    ensures { (halves : List HalfBytes) →
        IsSavedAt (Bringing (Activation control.now (lanes_in lanes)) (doubts patience.now) (doubts patience.now)) (given patience.now) [] conversation.new halves }
{
    let (control, lanes) = (*control, LaneSet::from(lanes));
    begun::put_tasks(Work::Activation { control, lanes }, patience, conversation);
}

/// Puts into `conversation` the procedure that wakes a module up.
#[unsafe(no_mangle)]
pub extern "C" fn dovecounter_wake_begin(patience: &Patience, conversation: &mut SavedConversation)
    ensures { (halves : List HalfBytes) → IsSavedAt (Turning Awake) (given patience.now) [] conversation.new halves }
{
    begun::put_power(Power::Awake, patience, conversation);
}

/// Puts into `conversation` the procedure that puts a module to sleep.
#[unsafe(no_mangle)]
pub extern "C" fn dovecounter_sleep_begin(patience: &Patience, conversation: &mut SavedConversation)
    ensures { (halves : List HalfBytes) → IsSavedAt (Turning Asleep) (given patience.now) [] conversation.new halves }
{
    begun::put_power(Power::Asleep, patience, conversation);
}

/// Puts into `conversation` a reading that has read nothing yet, of all that may be requested, over a bus that fetches at most so many
/// bytes at once. A piece of a half has a multiple of 8 bytes.
#[unsafe(no_mangle)]
pub extern "C" fn dovecounter_read_begin(
    most: u8,
    patience: &Patience,
    conversation: &mut SavedConversation,
) -> u32
    ensures status { result ≡ status_by (size_refusal most) }
    ensures begun { result ≡ done → (halves : List HalfBytes) →
        IsSavedAt (Fetching everything (piece_for most) (doubts patience.now)) (given patience.now) [] conversation.new halves }
    ensures halves { result ≡ done → conversation.new.halves ≡ 0 }
    ensures refused { result ≢ done → conversation.new ≡ conversation.old }
{
    let requested = Request::everything().halves;
    dovecounter_read_some_begin(requested, most, patience, conversation)
}

/// Puts into `conversation` such a reading of the lower half of A0 and of the halves that are requested, each by its bit.
#[unsafe(no_mangle)]
pub extern "C" fn dovecounter_read_some_begin(
    requested: u8,
    most: u8,
    patience: &Patience,
    conversation: &mut SavedConversation,
) -> u32
    ensures status { result ≡ status_by (size_refusal most) }
    ensures begun { result ≡ done → (halves : List HalfBytes) →
        IsSavedAt (Fetching (record { halves = requested }) (piece_for most) (doubts patience.now)) (given patience.now) [] conversation.new halves }
    ensures halves { result ≡ done → conversation.new.halves ≡ 0 }
    ensures refused { result ≢ done → conversation.new ≡ conversation.old }
{
    if most < 8 {
        return TOO_FEW_BYTES;
    }
    let request = Request { halves: requested };
    begun::put_reading(request, begun::piece_for(most), patience, conversation);
    DONE
}

/// Puts into `operation` what is to be done now. `halves` is the array in which a reading has put what it has read.
#[unsafe(no_mangle)]
pub extern "C" fn dovecounter_next(
    conversation: &SavedConversation,
    halves: &[HalfBytes; MAX_READ],
    operation: &mut Operation,
) -> u32
    ensures told { IsNextTold result operation.new (wanted conversation.now halves.now) }
    ensures refused { result ≢ done → operation.new ≡ operation.old }
{
    match wanted(conversation, halves) {
        Some(Next::Do(op)) => {
            operation.put(&op);
            DONE
        }
        Some(Next::Wait(milliseconds)) => {
            operation.put_wait(milliseconds);
            DONE
        }
        Some(Next::End(_ending)) => ENDED,
        None => NO_CONVERSATION,
    }
}

/// Tells the conversation what came of that.
#[unsafe(no_mangle)]
pub extern "C" fn dovecounter_reply(
    conversation: &mut SavedConversation,
    halves: &mut [HalfBytes; MAX_READ],
    outcome: u8,
    bytes: &[u8],
) -> u32
    ensures told { IsReplyTold result outcome (reply_of outcome bytes.now) (wanted conversation.old halves.old) }
    ensures after_pause { result ≡ done → (kept : Kept) (time : ℕ) → conversation_in conversation.old halves.old ≡ Some kept →
        wanted conversation.old halves.old ≡ Some (nexts.Wait time) → conversation_in conversation.new halves.new ≡ Some (after_pause kept) }
    ensures taken { result ≡ done → (subject : Subject) (patience : Given) (events : Events) (op : Op) (reply : Reply) →
        IsSavedAt subject patience events conversation.old halves.old → wanted conversation.old halves.old ≡ Some (nexts.Do op) →
        reply_of outcome bytes.now ≡ Some reply → IsSavedAt subject patience (made op reply ∷ events) conversation.new halves.new }
    ensures waited { result ≡ done → (subject : Subject) (patience : Given) (events : Events) (time : ℕ) →
        IsSavedAt subject patience events conversation.old halves.old → wanted conversation.old halves.old ≡ Some (nexts.Wait time) →
        IsSavedAt subject patience (Waited time ∷ events) conversation.new halves.new }
    ensures of_reading { result ≡ done → (read : Patient InHand) (op : Op) (reply : Reply) → conversation_in conversation.old halves.old ≡ Some (kinds.OfReading read) →
        wanted conversation.old halves.old ≡ Some (nexts.Do op) → reply_of outcome bytes.now ≡ Some reply →
        (conversation_in conversation.new halves.new ≡ Some (after (kinds.OfReading read) reply))
        × HasInFront (halves_in conversation.old halves.old) (halves_in conversation.new halves.new) }
    ensures refused { result ≢ done → (conversation.new ≡ conversation.old) × (halves.new ≡ halves.old) }
{
    let Some(mut kept) = numbers::restore(conversation, halves) else {
        return NO_CONVERSATION;
    };
    match kept.next() {
        Next::Do(op) => match reply_to(&op, outcome, bytes) {
            Some(reply) => {
                numbers::put_after(&mut kept, &reply, conversation, halves);
                DONE
            }
            None => NO_REPLY,
        },
        Next::Wait(_) if outcome == WAITED => {
            numbers::put_paused(conversation);
            DONE
        }
        Next::Wait(_) => NO_REPLY,
        Next::End(_ending) => ENDED,
    }
}

/// Puts into `ended` how the conversation ended. Of a reading that ended in time, `halves` has the image of a module by the steps made
/// since it began, whatever the bus refused.
#[unsafe(no_mangle)]
pub extern "C" fn dovecounter_end(
    conversation: &SavedConversation,
    halves: &[HalfBytes; MAX_READ],
    ended: &mut SavedEnd,
) -> u32
    ensures told { IsEndTold result ended.new (wanted conversation.now halves.now) }
    ensures refused { result ≢ done → ended.new ≡ ended.old }
    ensures ends { (kept : Kept) (events : Events) (ending : Ending) → conversation_in conversation.now halves.now ≡ Some kept →
        wanted conversation.now halves.now ≡ Some (nexts.End ending) → WasTold events kept → EndsSo kept events ending }
    ensures read { (request : Request) (piece : ℕ) (doubts : Bool) (patience : Given) (events : Events) (ending : Ending) →
        IsSavedAt (Fetching request piece doubts) patience events conversation.now halves.now → wanted conversation.now halves.now ≡ Some (nexts.End ending) →
        HasReadModule doubts request events (memory_of (halves_in conversation.now halves.now)) ending }
{
    let Some(kept) = numbers::restore(conversation, halves) else {
        return NO_CONVERSATION;
    };
    match kept.next() {
        Next::End(ending) => {
            *ended = end_of(ending);
            DONE
        }
        Next::Do(_) | Next::Wait(_) => NOT_ENDED,
    }
}

// What the conversation with these numbers wants, if one has them.
fn wanted(conversation: &SavedConversation, halves: &[HalfBytes; MAX_READ]) -> Option<Next<Ending>>
    ensures { result ≡ wanted conversation.now halves.now }
{
    match numbers::restore(conversation, halves) {
        Some(kept) => Some(kept.next()),
        None => None,
    }
}

/// The reply, if the operation can have it.
pub fn reply_to(op: &Op, outcome: u8, bytes: &[u8]) -> Option<Reply>
    ensures { IsReplyFor result op.now (reply_of outcome bytes.now) }
{
    match reply_of(outcome, bytes) {
        Some(reply) if can_have(op, &reply) => Some(reply),
        _ => None,
    }
}

fn end_of(ending: Ending) -> SavedEnd
    ensures { result ≡ end_of ending }
{
    match ending {
        Watched::InOrder(spent) => ended_by(spent),
        Watched::Left(code) => without_success(left_by(code)),
    }
}

/// What is said of a module whose state has this code, and isn't ModuleReady.
pub fn left_by(code: u8) -> SavedFault
    ensures { result ≡ left_by code }
{
    match state_of(code) {
        Ok(ModuleState::Fault) => of_state(FAULTY, code),
        Ok(_) => of_state(RESET, code),
        Err(_) => SavedFault::of(Some(ProvisionFault::Reserved(code))),
    }
}

const RESET: u8 = 9;

const FAULTY: u8 = 10;

fn of_state(code: u8, state: u8) -> SavedFault
    ensures { result ≡ numbers code state 0 }
{
    SavedFault {
        code,
        first: state,
        second: 0,
    }
}

fn ended_by(spent: Spent<Timed<Option<ProvisionFault>>>) -> SavedEnd
    ensures { result ≡ ended_by spent.steps spent.end }
{
    match spent.end {
        Some(Timed::InTime(None)) => SavedEnd {
            steps: spent.steps,
            fault: SavedFault::of(None),
        },
        Some(Timed::InTime(fault)) => without_success(SavedFault::of(fault)),
        Some(Timed::Overdue) => without_success(overdue()),
        None => without_success(SavedFault::of(Some(ProvisionFault::GaveUp))),
    }
}

const OVERDUE: SavedFault = SavedFault {
    code: 8,
    first: 0,
    second: 0,
};

/// What is said of a module that answers too seldom.
pub fn overdue() -> SavedFault
    ensures { result ≡ overdue }
{
    OVERDUE
}

fn without_success(fault: SavedFault) -> SavedEnd
    ensures { result ≡ ended_with 0 fault }
{
    SavedEnd { steps: 0, fault }
}
