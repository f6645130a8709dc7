ghost use Rattle.std.specs.Prelude.{◌≡◌, ◌≤◌};
ghost use Rattle.command_block.specs.Phases as spec;

use crate::attempt::Phase;
use crate::message::{Message, complement, total};
use crate::outcome::Outcome;
use arrayvec::ArrayVec;
use bus_model::Reply;

/// What a reply on the bus says.
#[derive(Debug, PartialEq, Eq, Drop)]
pub enum Judgement {
    /// The attempt is in this phase now.
    On(Phase),
    /// The operation is to be made again.
    Again,
    /// The attempt ends.
    Ends(Outcome),
}

/// What the reply to the operation of a phase says.
pub fn judged(message: &Message, phase: Phase, reply: &Reply) -> Judgement
    ensures { result ≡ spec.judged message.now phase reply.now }
{
    match reply {
        Reply::Done => if_done(message, phase),
        Reply::Refused => if_refused(phase),
        Reply::Bytes(bytes) => if_bytes(message, phase, bytes.as_slice()),
    }
}

fn if_done(message: &Message, phase: Phase) -> Judgement
    ensures { result ≡ spec.if_done message.now phase }
{
    match phase {
        Phase::Filling { at } => after_piece(message.body.len(), at),
        Phase::Triggering => Judgement::On(Phase::Resting),
        _ => Judgement::Again,
    }
}

// A piece of the body was stored, or behind all of them the header.
fn after_piece(count: usize, at: u8) -> Judgement
    requires { count ≤ 120 }
    ensures { result ≡ spec.after_piece count at }
{
    if usize::from(at) < count {
        Judgement::On(Phase::Filling { at: at + 8 })
    } else {
        Judgement::On(Phase::Triggering)
    }
}

fn if_refused(phase: Phase) -> Judgement
    ensures { result ≡ spec.if_refused phase }
{
    match phase {
        Phase::Filling { at } => doubted(at),
        Phase::Triggering => Judgement::Ends(Outcome::Unknown),
        _ => Judgement::Again,
    }
}

// The module may have reset itself, so what was stored of the body is read back first.
fn doubted(at: u8) -> Judgement
    ensures { result ≡ spec.doubted at }
{
    if at == 0 {
        Judgement::Again
    } else {
        Judgement::On(Phase::Checking { at })
    }
}

fn if_bytes(message: &Message, phase: Phase, bytes: &[u8]) -> Judgement
    ensures { result ≡ spec.if_bytes message.now phase bytes.now }
{
    match phase {
        Phase::Idle => after_idle(bytes),
        Phase::Filling { at } => doubted(at),
        Phase::Awaiting => after_status(message.replies, bytes),
        Phase::Counting => after_count(bytes),
        Phase::Reading { check, .. } => after_bytes(check, bytes),
        Phase::Checking { at } => after_back(message.body.as_slice(), at, bytes),
        Phase::Triggering => Judgement::Ends(Outcome::Unknown),
        _ => Judgement::Again,
    }
}

fn after_idle(bytes: &[u8]) -> Judgement
    ensures { result ≡ spec.after_idle bytes.now }
{
    match bytes {
        [status] if *status < 128 => Judgement::On(Phase::Filling { at: 0 }),
        _ => Judgement::Again,
    }
}

fn after_status(replies: bool, bytes: &[u8]) -> Judgement
    ensures { result ≡ spec.after_status replies bytes.now }
{
    match bytes {
        [status] => by_status(replies, *status),
        _ => Judgement::Again,
    }
}

fn by_status(replies: bool, status: u8) -> Judgement
    ensures { result ≡ spec.by_status replies status }
{
    if status == 1 {
        if replies {
            Judgement::On(Phase::Counting)
        } else {
            Judgement::Ends(Outcome::Succeeded(ArrayVec::new()))
        }
    } else if 64 <= status && status < 128 {
        Judgement::Ends(Outcome::Failed(status))
    } else {
        Judgement::Again
    }
}

fn after_count(bytes: &[u8]) -> Judgement
    ensures { result ≡ spec.after_count bytes.now }
{
    match bytes {
        [count, check] if 0 < *count && *count <= 120 => {
            Judgement::On(Phase::Reading {
                count: *count,
                check: *check,
            })
        }
        _ => Judgement::Again,
    }
}

fn after_bytes(check: u8, bytes: &[u8]) -> Judgement
    ensures { result ≡ spec.after_bytes check bytes.now }
{
    if bytes.len() <= 128 && complement(total(bytes)) == check {
        Judgement::Ends(Outcome::Succeeded(ArrayVec::try_from(bytes).unwrap()))
    } else {
        Judgement::On(Phase::Resting)
    }
}

// The module has the body before this byte, or the body is stored anew.
fn after_back(body: &[u8], at: u8, bytes: &[u8]) -> Judgement
    ensures { result ≡ spec.after_back body.now at bytes.now }
{
    let stored = &body[..usize::from(at).min(body.len())];
    if bytes == stored {
        Judgement::On(Phase::Filling { at })
    } else {
        Judgement::On(Phase::Filling { at: 0 })
    }
}
