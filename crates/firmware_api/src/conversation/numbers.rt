// A conversation as plain numbers: from a conversation its numbers, and from them the conversation.
ghost use Rattle.std.specs.Prelude.{◌≡◌, ◌≢◌, ◌≤◌, ◌<◌, ◌∷◌, List, None, Some, length, take, true};
ghost use Rattle.bus_model.specs.declared.operation.Op.{Op};
ghost use Rattle.conversations.specs.declared.next.Next.TheVariants.{Do};
ghost use Rattle.conversations.specs.Events.{Events, made};
ghost use Rattle.conversations.specs.Wanted.{IsReplyTo};
ghost use Rattle.control_sets.specs.OutcomeAnswers.{most_steps};
ghost use Rattle.firmware_api.specs.declared.half.HalfBytes.{HalfBytes};
ghost use Rattle.firmware_api.specs.declared.kept.Kept.TheVariants as kinds;
ghost use Rattle.conversations.specs.Patiently.{Patient};
ghost use Rattle.firmware_api.specs.KeptConversations.{InHand, WasTold, after, next_of};
ghost use Rattle.firmware_api.specs.SavedConversations as spec;
ghost use Rattle.firmware_api.specs.SavedConversations.{HasInFront, conversation_in, halves_in};

use super::whole_half::half_by;
use crate::half::{HalfBytes, all_have_places, image_of};
use crate::kept::Kept;
use crate::read_module::number_of;
use arrayvec::ArrayVec;
use bus_model::Reply;
use control_sets::{
    MAX_STEPS, PatientPower, PatientProcedure, PowerChange, ProvisionFault, SavedFault,
    SavedProcedure, TaskList, WatchfulProcedure, numbers_of_selected,
};
use conversations::{InPieces, Look, OnPage, Pausing, Watching, Within};
use module_reading::{Halves, PatientReading, Request};
use module_states::state_of;
use paged_memory::PAGE_LEN;

/// What stands in each conversation, so that other memory is not taken for one: `DCC1`.
const CONVERSATION: u32 = 0x4443_4331;

/// The number of its work; those of procedures are below.
const WORK_OF_READING: u8 = 5;

/// The most halves that are read of a module.
pub const MAX_READ: usize = 5;

/// A conversation under way, as C keeps it.
#[repr(C)]
#[derive(Clone, Copy)]
pub struct SavedConversation {
    pub magic: u32,
    /// What a procedure is saved as. Of a reading, which halves are requested (in place of lanes), how many were read or left out, the
    /// steps, the selection, the page, and how patient it is and was.
    pub saved: SavedProcedure,
    /// 1 if nothing is known of the page selection after a refusal, else 0.
    pub doubts: u8,
    /// 1 if the last selection was accepted and isn't read back, where a page may be lacked; else 0.
    pub taken: u8,
    /// The number of the page of that selection, or 0.
    pub taken_page: u16,
    /// 1 if a procedure looks at the module's state after each wait, else 0.
    pub watches: u8,
    /// 1 if it looks before its next operation, else 0.
    pub look: u8,
    /// What it was shown, if the module was in ModuleReady no more.
    pub left: SavedFault,
    /// How many halves were read.
    pub halves: u8,
    /// How many bytes a piece has.
    pub piece: u8,
    /// How many bytes of the half in hand were read.
    pub read: u8,
    /// Those bytes.
    pub part: [u8; PAGE_LEN],
}

// ---- from numbers

/// The conversation that has these numbers, if one has, and of which these halves were read.
#[tactic(auto, unfolding(crate::specs::SavedConversations::conversation_in))]
pub fn restore(saved: &SavedConversation, halves: &[HalfBytes; MAX_READ]) -> Option<Kept>
    ensures { result ≡ conversation_in saved.now halves.now }
{
    if !is_sound(saved) {
        return None;
    }
    if saved.saved.work == WORK_OF_READING {
        return reading(saved, halves);
    }
    match TaskList::restore(&saved.saved, saved.doubts == 1) {
        Some(procedure) => Some(tasks(saved, procedure, looked(saved)?)),
        None => power(saved),
    }
}

// The procedure, which looks at the module's state or doesn't.
fn tasks(saved: &SavedConversation, procedure: PatientProcedure, look: Look) -> Kept
    ensures { result ≡ spec.tasks_in saved.now procedure look }
{
    Kept::OfTasks(Watching {
        conversation: procedure,
        watches: saved.watches == 1,
        look,
    })
}

fn looked(saved: &SavedConversation) -> Option<Look>
    ensures { result ≡ spec.look_in saved.now }
{
    match (saved.look, saved.left.fault()?) {
        (0, None) => Some(Look::Seen),
        (1, None) => Some(Look::Due),
        (0, Some(fault)) => Some(Look::Left(code_in(fault)?)),
        _ => None,
    }
}

// The code of the module's state that shows the fault, if one does.
fn code_in(fault: ProvisionFault) -> Option<u8>
    ensures { result ≡ spec.code_in fault }
{
    match fault {
        ProvisionFault::ModuleState(code) if state_of(code).is_ok() => Some(code),
        ProvisionFault::Reserved(code) if state_of(code).is_err() => Some(code),
        _ => None,
    }
}

fn power(saved: &SavedConversation) -> Option<Kept>
    ensures { result ≡ spec.power_in saved.now }
{
    match PowerChange::restore(&saved.saved) {
        Some(change) => Some(Kept::OfPower(change)),
        None => None,
    }
}

fn reading(saved: &SavedConversation, halves: &[HalfBytes; MAX_READ]) -> Option<Kept>
    ensures { result ≡ spec.reading_in saved.now halves.now }
{
    if !is_reading(saved, halves) {
        return None;
    }
    let on_page = OnPage {
        conversation: Halves {
            request: Request {
                halves: saved.saved.lanes,
            },
            image: image_of(&halves[..usize::from(saved.halves)]),
            settled: saved.saved.met,
        },
        selection: saved.saved.selected()?,
        taken: if saved.taken == 1 {
            Some(saved.taken_page)
        } else {
            None
        },
        doubts: saved.doubts == 1,
    };
    let pieces = InPieces {
        conversation: on_page,
        piece: saved.piece,
        part: ArrayVec::try_from(&saved.part[..usize::from(saved.read)]).unwrap(),
    };
    Some(Kept::OfReading(Within {
        conversation: Pausing {
            conversation: pieces,
            patience: saved.saved.patience(),
            due: saved.saved.is_due()?,
            idle: saved.saved.idle,
        },
        steps: saved.saved.steps,
        limit: MAX_STEPS,
    }))
}

fn is_sound(saved: &SavedConversation) -> bool
    ensures { result ≡ spec.is_sound saved.now }
{
    saved.magic == CONVERSATION
        && saved.doubts <= 1
        && saved.taken <= 1
        && (saved.taken == 1 || saved.taken_page == 0)
        && saved.watches <= 1
}

fn is_reading(saved: &SavedConversation, halves: &[HalfBytes; MAX_READ]) -> bool
    ensures { result ≡ spec.is_reading saved.now halves.now }
{
    saved.saved.steps <= MAX_STEPS
        && saved.saved.met <= MAX_READ
        && saved.saved.met <= usize::from(saved.saved.steps)
        && usize::from(saved.halves) <= saved.saved.met
        && 0 < saved.piece
        && saved.read < 128
        && all_have_places(&halves[..usize::from(saved.halves)])
}

// ---- to numbers

/// Those of provisioning or activation.
pub fn put_tasks(procedure: &WatchfulProcedure, saved: &mut SavedConversation)
    ensures { (events : Events) (halves : List HalfBytes) → WasTold events (kinds.OfTasks procedure.now) → procedure.now.conversation.limit ≡ most_steps →
        conversation_in saved.new halves ≡ Some (kinds.OfTasks procedure.now) }
{
    let doubts = procedure.conversation.conversation.conversation.doubts;
    let numbers = TaskList::save(&procedure.conversation);
    *saved = procedure_numbers(numbers, doubts, procedure.watches, procedure.look);
}

/// Those of a change of power.
pub fn put_power(change: &PatientPower, saved: &mut SavedConversation)
    ensures { (events : Events) (halves : List HalfBytes) → WasTold events (kinds.OfPower change.now) → change.now.limit ≡ most_steps →
        conversation_in saved.new halves ≡ Some (kinds.OfPower change.now) }
{
    *saved = procedure_numbers(PowerChange::save(change), false, false, Look::Seen);
}

fn procedure_numbers(
    saved: SavedProcedure,
    doubts: bool,
    watches: bool,
    look: Look,
) -> SavedConversation
    ensures { result ≡ spec.procedure_numbers saved doubts watches look }
{
    SavedConversation {
        magic: CONVERSATION,
        saved,
        doubts: number_of(doubts),
        taken: 0,
        taken_page: 0,
        watches: number_of(watches),
        look: number_of(matches!(look, Look::Due)),
        left: SavedFault::of(fault_of(look)),
        halves: 0,
        piece: 0,
        read: 0,
        part: [0; PAGE_LEN],
    }
}

fn fault_of(look: Look) -> Option<ProvisionFault>
    ensures { result ≡ spec.fault_of_look look }
{
    match look {
        Look::Left(code) => Some(match state_of(code) {
            Ok(_) => ProvisionFault::ModuleState(code),
            Err(_) => ProvisionFault::Reserved(code),
        }),
        Look::Seen | Look::Due => None,
    }
}

/// Those of a reading of which so many halves were read.
pub fn put_reading(read: &PatientReading, count: u8, saved: &mut SavedConversation)
    requires { spec.HasNumbers read.now count }
    ensures same { (halves : List HalfBytes) → spec.HasRead read.now (take count halves) → conversation_in saved.new halves ≡ Some (kinds.OfReading read.now) }
    ensures halves { saved.new.halves ≡ count }
{
    let on_page = &read.conversation.conversation.conversation;
    saved.magic = CONVERSATION;
    saved.saved = numbers_of_reading(read);
    saved.doubts = number_of(on_page.doubts);
    saved.taken = number_of(on_page.taken.is_some());
    saved.taken_page = on_page.taken.unwrap_or(0);
    saved.watches = 0;
    saved.look = 0;
    saved.left = SavedFault::of(None);
    saved.halves = count;
    saved.piece = read.conversation.conversation.piece;
    saved.read = read.conversation.conversation.part.len() as u8;
    put_part(&read.conversation.conversation.part, &mut saved.part);
}

fn numbers_of_reading(read: &PatientReading) -> SavedProcedure
    ensures { spec.AreOfReading result read.now }
{
    let pausing = &read.conversation;
    let on_page = &pausing.conversation.conversation;
    let (selection, page) = numbers_of_selected(on_page.selection);
    SavedProcedure {
        met: on_page.conversation.settled,
        steps: read.steps,
        work: WORK_OF_READING,
        lanes: on_page.conversation.request.halves,
        control: [0; 8],
        selection,
        page,
        fault: SavedFault::of(None),
        due: number_of(pausing.due),
        idle: pausing.idle,
        pause: pausing.patience.pause,
        limit: pausing.patience.limit,
    }
}

// With zeros after them.
fn put_part(part: &ArrayVec<u8, PAGE_LEN>, all: &mut [u8; PAGE_LEN])
    requires { length part.now.items < 128 }
    ensures { take (length part.now.items) all.new ≡ part.now.items }
{
    *all = [0; PAGE_LEN];
    all[..part.len()].copy_from_slice(part);
}

/// The pause that was due is over.
pub fn put_paused(saved: &mut SavedConversation)
    ensures { saved.new ≡ spec.paused_numbers saved.old }
{
    saved.saved.idle = saved.saved.idle.saturating_add(saved.saved.pause);
    saved.saved.due = 0;
    if saved.watches == 1 && matches!(saved.left.fault(), Some(None)) {
        saved.look = 1;
    }
}

// ---- after a reply

/// Those of the conversation after the reply, with a half that the reply makes whole in front of the others.
pub fn put_after(
    kept: &mut Kept,
    reply: &Reply,
    saved: &mut SavedConversation,
    halves: &mut [HalfBytes; MAX_READ],
)
    requires was { conversation_in saved.old halves.old ≡ Some kept.old }
    requires reply { IsReplyTo (next_of kept.old) reply.now }
    ensures same { (events : Events) (op : Op) → next_of kept.old ≡ Do op → WasTold events kept.old →
        conversation_in saved.new halves.new ≡ Some (after kept.old reply.now) }
    ensures of_reading { (read : Patient InHand) → kept.old ≡ kinds.OfReading read → conversation_in saved.new halves.new ≡ Some (after kept.old reply.now) }
    ensures told { (events : Events) (op : Op) → next_of kept.old ≡ Do op → WasTold events kept.old →
        WasTold (made op reply.now ∷ events) (after kept.old reply.now) }
    ensures halves { (read : Patient InHand) → kept.old ≡ kinds.OfReading read → HasInFront (halves_in saved.old halves.old) (halves_in saved.new halves.new) }
{
    let half = half_by(kept, reply);
    kept.take(reply);
    match kept {
        Kept::OfTasks(procedure) => put_tasks(procedure, saved),
        Kept::OfPower(change) => put_power(change, saved),
        Kept::OfReading(read) => {
            let count = put_half(half, saved.halves, halves);
            put_reading(read, count, saved);
        }
    }
}

// Puts a new half in front of those that were read; answers how many there are.
fn put_half(half: Option<HalfBytes>, count: u8, halves: &mut [HalfBytes; MAX_READ]) -> u8
    requires { half ≢ None → count < 5 }
    ensures { spec.IsInFront half count halves.old result halves.new }
{
    match half {
        Some(half) => {
            let mut all = [half; MAX_READ];
            all[1..].copy_from_slice(&halves[..MAX_READ - 1]);
            *halves = all;
            count + 1
        }
        None => count,
    }
}
