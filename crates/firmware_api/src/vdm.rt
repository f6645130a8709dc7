// Readings of statistics (VDM), which C keeps.
ghost use Rattle.std.specs.Prelude.{◌≡◌, ◌≢◌, ◌≤◌, ◌+◌, ◌∷◌, ℕ, List, Some, length, take};
ghost use Rattle.bus_model.specs.declared.operation.Op.{Op};
ghost use Rattle.bus_model.specs.declared.operation.Reply.{Reply as Told};
ghost use Rattle.conversations.specs.declared.next.Next.TheVariants as nexts;
ghost use Rattle.conversations.specs.Wanted.{IsReplyTo};
ghost use Rattle.saved_vdm.specs.VdmTurns.{GivesHalf, count_of, image_with, page_given};
ghost use Rattle.vdm_reading.specs.declared.reading.VdmReading.{VdmReading as Reading};
ghost use Rattle.vdm_reading.specs.VdmStages.{after, begun, rested, wants};
ghost use Rattle.firmware_api.specs.declared.half.HalfBytes.{HalfBytes as Half};
ghost use Rattle.firmware_api.specs.Halves.{memory_of};
ghost use Rattle.firmware_api.specs.Operations.{reply_of};
ghost use Rattle.firmware_api.specs.Statuses.{done};
ghost use Rattle.firmware_api.specs.Updates.{IsNextTold, IsReplyTold};
ghost use Rattle.firmware_api.specs.VdmTold.{IsEndTold, IsInserted, halves_with, vdm_in, wanted_in};

use crate::conversation::whole_half::half_at;
use crate::conversation::{WAITED, reply_to};
use crate::half::{HalfBytes, image_of};
use crate::operation::Operation;
use crate::status::{DONE, ENDED, NO_CONVERSATION, NO_REPLY, NOT_ENDED};
use bus_model::Reply;
use conversations::{Conversation, Next};
use paged_memory::Key;
use saved_vdm::{
    MAX_HALVES, SavedVdm, SavedVdmEnd, begin, ending_of, restore, take_saved, wait_saved,
};
use vdm_reading::{VdmReading, VdmRequest};

/// Puts into `reading` a reading of the statistics of a bank that has made nothing yet, and pauses for so many milliseconds after a
/// fruitless transaction.
#[unsafe(no_mangle)]
pub extern "C" fn dovecounter_vdm_begin(pause: u32, bank: u8, reading: &mut SavedVdm)
    ensures begun { (halves : List Half) → vdm_in reading.new halves ≡ Some (begun (record { pause = pause; bank = bank })) }
    ensures halves { reading.new.halves ≡ 0 }
{
    *reading = begin(VdmRequest { pause, bank });
}

/// Puts into `operation` what is to be done now. `halves` is the array in which the reading has put what it has read.
#[unsafe(no_mangle)]
pub extern "C" fn dovecounter_vdm_next(
    reading: &SavedVdm,
    halves: &[HalfBytes; MAX_HALVES],
    operation: &mut Operation,
) -> u32
    ensures told { IsNextTold result operation.new (wanted_in reading.now halves.now) }
    ensures refused { result ≢ done → operation.new ≡ operation.old }
{
    let Some(it) = restored(reading, halves) else {
        return NO_CONVERSATION;
    };
    match it.next() {
        Next::Do(op) => {
            operation.put(&op);
            DONE
        }
        Next::Wait(milliseconds) => {
            operation.put_wait(milliseconds);
            DONE
        }
        Next::End(_end) => ENDED,
    }
}

/// Takes what came of that.
#[unsafe(no_mangle)]
pub extern "C" fn dovecounter_vdm_reply(
    reading: &mut SavedVdm,
    halves: &mut [HalfBytes; MAX_HALVES],
    outcome: u8,
    bytes: &[u8],
) -> u32
    ensures told { IsReplyTold result outcome (reply_of outcome bytes.now) (wanted_in reading.old halves.old) }
    ensures taken { result ≡ done → (it : Reading) (op : Op) (reply : Told) → vdm_in reading.old halves.old ≡ Some it →
        wanted_in reading.old halves.old ≡ Some (nexts.Do op) → reply_of outcome bytes.now ≡ Some reply →
        (vdm_in reading.new halves.new ≡ Some (after it reply)) × IsInserted (page_given it reply) reply reading.old reading.new halves.old halves.new }
    ensures waited { result ≡ done → (it : Reading) (time : ℕ) → vdm_in reading.old halves.old ≡ Some it →
        wanted_in reading.old halves.old ≡ Some (nexts.Wait time) →
        (vdm_in reading.new halves.new ≡ Some (rested it)) × (reading.new.halves ≡ reading.old.halves) × (halves.new ≡ halves.old) }
    ensures refused { result ≢ done → (reading.new ≡ reading.old) × (halves.new ≡ halves.old) }
{
    let Some(it) = restored(reading, halves) else {
        return NO_CONVERSATION;
    };
    match it.next() {
        Next::Do(op) => match reply_to(&op, outcome, bytes) {
            Some(reply) => {
                put_after(it, &reply, reading, halves);
                DONE
            }
            None => NO_REPLY,
        },
        Next::Wait(_) if outcome == WAITED => {
            put_rested(it, reading, halves);
            DONE
        }
        Next::Wait(_) => NO_REPLY,
        Next::End(_end) => ENDED,
    }
}

/// Puts into `ended` how it ended.
#[unsafe(no_mangle)]
pub extern "C" fn dovecounter_vdm_end(
    reading: &SavedVdm,
    halves: &[HalfBytes; MAX_HALVES],
    ended: &mut SavedVdmEnd,
) -> u32
    ensures told { IsEndTold result ended.new (vdm_in reading.now halves.now) }
    ensures refused { result ≢ done → ended.new ≡ ended.old }
{
    let Some(it) = restored(reading, halves) else {
        return NO_CONVERSATION;
    };
    match it.next() {
        Next::End(end) => {
            *ended = ending_of(&end);
            DONE
        }
        Next::Do(_) | Next::Wait(_) => NOT_ENDED,
    }
}

// The reading with these numbers and halves, if one has them.
fn restored(reading: &SavedVdm, halves: &[HalfBytes; MAX_HALVES]) -> Option<VdmReading>
    ensures { result ≡ vdm_in reading.now halves.now }
{
    let count = usize::from(reading.halves).min(MAX_HALVES);
    restore(reading, image_of(&halves[..count]))
}

// The reading after the reply, with the half that the reply gives in front of the others.
fn put_after(
    it: VdmReading,
    reply: &Reply,
    reading: &mut SavedVdm,
    halves: &mut [HalfBytes; MAX_HALVES],
)
    requires was { vdm_in reading.old halves.old ≡ Some it }
    requires reply { IsReplyTo (wants it) reply.now }
    ensures taken { vdm_in reading.new halves.new ≡ Some (after it reply.now) }
    ensures inserted { IsInserted (page_given it reply.now) reply.now reading.old reading.new halves.old halves.new }
{
    let page = take_saved(it, reply, reading);
    put_page(page, reply, halves);
}

fn put_rested(it: VdmReading, reading: &mut SavedVdm, halves: &[HalfBytes; MAX_HALVES])
    requires { vdm_in reading.old halves.now ≡ Some it }
    ensures rested { vdm_in reading.new halves.now ≡ Some (rested it) }
    ensures count { reading.new.halves ≡ reading.old.halves }
{
    wait_saved(it, reading);
}

// Puts the half that the reply gives of the page in front of the others.
fn put_page(page: Option<u16>, reply: &Reply, halves: &mut [HalfBytes; MAX_HALVES])
    requires { GivesHalf page reply.now }
    ensures halves { halves.new ≡ halves_with page reply.now halves.old }
    ensures memory { (count : ℕ) → count + count_of page ≤ 15 →
        memory_of (take (count + count_of page) halves.new) ≡ image_with page reply.now (memory_of (take count halves.old)) }
{
    match (page, reply) {
        (Some(page), Reply::Bytes(bytes)) => {
            put_in_front(half_at(Key::of_page(page), bytes), halves)
        }
        _ => {}
    }
}

fn put_in_front(half: HalfBytes, halves: &mut [HalfBytes; MAX_HALVES])
    ensures { halves.new ≡ half ∷ take 14 halves.old }
{
    let mut all = [half; MAX_HALVES];
    all[1..].copy_from_slice(&halves[..MAX_HALVES - 1]);
    *halves = all;
}
