// A port in memory of C: its numbers, and the halves that its reading has read.
ghost use Rattle.std.specs.Prelude.{◌≡◌, ◌≢◌, ◌≤◌, ◌<◌, None, Some, false, true};
ghost use Rattle.port_manager.specs.declared.port.Outcome.{Outcome};
ghost use Rattle.port_manager.specs.Jobs.{IsReplyTo, asked};
ghost use Rattle.port_manager.specs.declared.port.Outstanding.TheVariants.{Nothing};
ghost use Rattle.port_manager.specs.Flags.{no_flags};
ghost use Rattle.port_manager.specs.Ports.{IfWorking, IsAwaited, IsTaken, absent, asked_in};
ghost use Rattle.saved_port.specs.Known.{IsKnown};
ghost use Rattle.saved_port.specs.Outcomes.{AreNumbersOf};
ghost use Rattle.saved_port.specs.Shown.{IsShown};
ghost use Rattle.firmware_api.specs.KeptPorts.{FitsIn, HasFewHalves, HasRoom, IsHalfAt, IsHalfBy, IsHalfIn, IsKept, count_at, count_of, kept_in};
ghost use Rattle.firmware_api.specs.SavedConversations.{IsInFront};

use crate::conversation::MAX_READ;
use crate::conversation::whole_half::whole_half;
use crate::half::{HalfBytes, image_of};
use bus_model::Reply;
use paged_memory::PAGE_LEN;
use port_manager::{Job, Outstanding, Port, Stage, Times, Wanted};
use saved_port::{SavedOutcome, SavedPort, outcome_of, save, take_known};

/// A port, as C keeps it.
#[repr(C)]
#[derive(Clone, Copy)]
pub struct KeptPort {
    pub numbers: SavedPort,
    /// The halves that its reading has read, the newest first.
    pub halves: [HalfBytes; MAX_READ],
}

/// Makes a port the one that has these numbers, if one has. Whether one has. Not inlined: it takes much of a stack.
#[inline(never)]
#[tactic(auto, unfolding(crate::specs::KeptPorts::kept_in))]
pub fn restore(kept: &KeptPort, port: &mut Port) -> bool
    ensures found { result ≡ true → kept_in kept.now ≡ Some port.new }
    ensures none { result ≡ false → kept_in kept.now ≡ None }
    ensures fits { result ≡ true → FitsIn port.new kept.now.numbers.half_count kept.now.halves }
{
    let count = usize::from(kept.numbers.half_count);
    if count > MAX_READ {
        return false;
    }
    saved_port::restore(&kept.numbers, image_of(&kept.halves[..count]), port)
}

/// A port to be filled: an empty one, all of whose times are 0.
pub fn blank() -> Port
    ensures { result ≡ absent (record { settle = 0; period = 0; first = 0; most = 0; recheck = 0 }) Nothing no_flags false }
{
    Port::new(Times {
        settle: 0,
        period: 0,
        first: 0,
        most: 0,
        recheck: 0,
    })
}

/// The memory of a port whose reading has read nothing.
pub fn kept(port: &Port) -> KeptPort
    ensures same { FitsIn port.now 0 result.halves → IsKnown port.now → kept_in result ≡ Some port.now }
    ensures shown { IsShown port.now result.numbers }
    ensures count { result.numbers.half_count ≡ 0 }
{
    let nothing = HalfBytes {
        device: 0,
        upper: 0,
        bank: 0,
        page: 0,
        bytes: [0; PAGE_LEN],
    };
    let numbers = save(port, 0);
    KeptPort {
        numbers,
        halves: [nothing; MAX_READ],
    }
}

/// Keeps the port, and as many halves as its reading has read.
pub fn put(port: &Port, kept: &mut KeptPort)
    ensures same { FitsIn port.now (count_of port.now kept.old.numbers.half_count) kept.old.halves → IsKnown port.now → kept_in kept.new ≡ Some port.now }
    ensures shown { IsShown port.now kept.new.numbers }
    ensures count { kept.new.numbers.half_count ≡ count_of port.now kept.old.numbers.half_count }
{
    let count = count_of(port, kept.numbers.half_count);
    let numbers = save(port, count);
    kept.numbers = numbers;
}

fn count_of(port: &Port, count: u16) -> u16
    ensures { result ≡ count_of port.now count }
{
    match &port.stage {
        Stage::Absent | Stage::Left(_) => 0,
        Stage::Working(job) => count_at(job, count),
    }
}

fn count_at(job: &Job, count: u16) -> u16
    ensures { result ≡ count_at job.now count }
{
    match job {
        Job::Reading(reading, _) => {
            let settled = reading.conversation.conversation.conversation.settled;
            if settled == 0 { 0 } else { count }
        }
        Job::Waking(_)
        | Job::Sleeping(_)
        | Job::Provisioning(_, _)
        | Job::Activating(_, _)
        | Job::Confirming(_)
        | Job::Watching(_) => 0,
    }
}

/// Has the port take the reply to the operation that was to be made, and keeps it and its halves.
pub fn take(
    held: &mut Port,
    reply: &Reply,
    wanted: &Wanted,
    now: u64,
    kept: &mut KeptPort,
) -> SavedOutcome
    requires fits { FitsIn held.old kept.old.numbers.half_count kept.old.halves }
    requires reply { IsAwaited held.old reply.now }
    ensures { (led : Outcome) × IsTaken held.old reply.now wanted.now now led held.new × AreNumbersOf led result
        × (IsKept kept.old held.old → IsKept kept.new held.new) }
{
    let half = half_by(held, reply);
    let led = take_known(held, reply, wanted, now);
    put_half(half, kept);
    put(held, kept);
    outcome_of(led)
}

// The half that a reply makes whole, if it is awaited by a reading, and does.
fn half_by(port: &Port, reply: &Reply) -> Option<HalfBytes>
    requires few { IfWorking port.now.stage HasFewHalves }
    requires reply { IsAwaited port.now reply.now }
    ensures half { IsHalfBy port.now.outstanding port.now.stage reply.now result }
    ensures room { result ≢ None → IfWorking port.now.stage HasRoom }
{
    match port.outstanding {
        Outstanding::Awaited => half_in(&port.stage, reply),
        Outstanding::Nothing | Outstanding::Stale | Outstanding::Forsaken => None,
    }
}

fn half_in(stage: &Stage, reply: &Reply) -> Option<HalfBytes>
    requires few { IfWorking stage.now HasFewHalves }
    requires reply { IsReplyTo (asked_in stage.now) reply.now }
    ensures half { IsHalfIn stage.now reply.now result }
    ensures room { result ≢ None → IfWorking stage.now HasRoom }
{
    match stage {
        Stage::Absent | Stage::Left(_) => None,
        Stage::Working(job) => half_at(job, reply),
    }
}

fn half_at(job: &Job, reply: &Reply) -> Option<HalfBytes>
    requires few { HasFewHalves job.now }
    requires reply { IsReplyTo (asked job.now) reply.now }
    ensures half { IsHalfAt job.now reply.now result }
    ensures room { result ≢ None → HasRoom job.now }
{
    match job {
        Job::Reading(reading, _) => whole_half(&reading.conversation.conversation, reply),
        Job::Waking(_)
        | Job::Sleeping(_)
        | Job::Provisioning(_, _)
        | Job::Activating(_, _)
        | Job::Confirming(_)
        | Job::Watching(_) => None,
    }
}

// Puts a half in front of those that were read.
fn put_half(half: Option<HalfBytes>, kept: &mut KeptPort)
    ensures front { (half ≢ None → kept.old.numbers.half_count < 5) → IsInFront half kept.old.numbers.half_count kept.old.halves kept.new.numbers.half_count kept.new.halves }
    ensures full { 5 ≤ kept.old.numbers.half_count → kept.new ≡ kept.old }
{
    match half {
        Some(half) if kept.numbers.half_count < 5 => {
            let mut all = [half; MAX_READ];
            all[1..].copy_from_slice(&kept.halves[..MAX_READ - 1]);
            kept.halves = all;
            kept.numbers.half_count += 1;
        }
        _ => {}
    }
}
