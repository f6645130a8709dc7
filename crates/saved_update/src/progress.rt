//! How an update or a single command ended, and how far an update has come, as numbers.
ghost use Rattle.std.specs.Prelude.{◌≡◌, ◌≤◌};
ghost use Rattle.saved_update.specs.Endings as spec;

use crate::delivery::padded;
use crate::work::{Ending, Work};
use bus_model::MAX_FETCH;
use command_block::Outcome;
use firmware_update::{Cause, Known, Session, Stage, Update};

/// How an update or a single command ended.
#[repr(C)]
#[derive(Clone, Copy)]
pub struct SavedEnding {
    /// 0 for a success, and if the commit is held back; 1 if the module refused with a status, 2 if it was not sent, 3 if what came
    /// of it is unknown; of an update also 4 if the module takes no blocks, 5 if no bank may be overwritten, 6 if it gave up.
    pub fault: u8,
    /// The status with which the module refused, or 0.
    pub status: u8,
    /// What is known of the module's firmware after an update: 1 to 9, in their order; 0 of a single command.
    pub known: u8,
    /// How many bytes the reply to a single command has.
    pub count: u8,
    /// Those bytes, and zeros after them.
    pub reply: [u8; MAX_FETCH],
}

/// How far an update has come.
#[repr(C)]
#[derive(Clone, Copy)]
pub struct Progress {
    /// How many bytes of the file the module has.
    pub sent: u32,
    /// Of how many.
    pub all: u32,
    /// What is known of the module's firmware if nothing more is done, whatever comes of the command on its way: as at the end.
    pub known: u8,
}

/// The numbers of how it ended.
pub fn ending_of(work: &Work, ending: &Ending) -> SavedEnding
    ensures { result ≡ spec.ending_of work.now ending.now }
{
    match ending {
        Ending::Updated(end) => updated(known_of(work), *end),
        Ending::Answered(outcome) => answered(outcome),
    }
}

fn updated(known: u8, end: Result<(), Cause>) -> SavedEnding
    ensures { result ≡ spec.updated known end }
{
    match end {
        Ok(()) => without_reply(0, 0, known),
        Err(cause) => {
            let (fault, status) = numbers_of_cause(cause);
            without_reply(fault, status, known)
        }
    }
}

fn numbers_of_cause(cause: Cause) -> (u8, u8)
    ensures { result ≡ spec.numbers_of_cause cause }
{
    match cause {
        Cause::Refused(status) => (1, status),
        Cause::Unsent => (2, 0),
        Cause::Unknown => (3, 0),
        Cause::Unsupported => (4, 0),
        Cause::NotStanding => (5, 0),
        Cause::GaveUp => (6, 0),
        Cause::LeftOpen(status) => (7, status),
    }
}

fn answered(outcome: &Outcome) -> SavedEnding
    ensures { result ≡ spec.answered outcome.now }
{
    match outcome {
        Outcome::Succeeded(reply) => {
            let bytes = padded(reply);
            SavedEnding {
                fault: 0,
                status: 0,
                known: 0,
                count: reply.len() as u8,
                reply: bytes,
            }
        }
        Outcome::Failed(status) => without_reply(1, *status, 0),
        Outcome::Unsent => without_reply(2, 0, 0),
        Outcome::Unknown => without_reply(3, 0, 0),
    }
}

fn without_reply(fault: u8, status: u8, known: u8) -> SavedEnding
    ensures { result ≡ spec.without_reply fault status known }
{
    SavedEnding {
        fault,
        status,
        known,
        count: 0,
        reply: [0; MAX_FETCH],
    }
}

// ---- how far it has come

/// How far it has come: of a single command, nothing of nothing.
pub fn progress_of(work: &Work) -> Progress
    ensures { result ≡ spec.progress_of work.now }
{
    match work {
        Work::Updating { session, .. } => Progress {
            sent: sent_of(&session.update),
            all: session.update.size,
            known: number_of_known(known_now(session)),
        },
        Work::Asking { .. } => Progress {
            sent: 0,
            all: 0,
            known: 0,
        },
    }
}

fn known_now(session: &Session) -> Known
    ensures { result ≡ spec.known_now session.now }
{
    match &session.delivery {
        Some(delivery) => {
            let outcome = delivery
                .patient
                .conversation
                .conversation
                .conversation
                .known();
            let mut update = session.update;
            update.take(&outcome);
            update.known()
        }
        None => session.update.known(),
    }
}

fn sent_of(update: &Update) -> u32
    ensures { result ≡ spec.sent_of update.now }
{
    match update.stage {
        Stage::Asking | Stage::Looking { .. } | Stage::Starting { .. } => 0,
        Stage::Sending {
            header,
            address,
            ..
        } => address.saturating_add(u32::from(header)),
        _ => update.size,
    }
}

fn known_of(work: &Work) -> u8
    ensures { result ≡ spec.known_of work.now }
{
    match work {
        Work::Updating { session, .. } => number_of_known(session.update.known()),
        Work::Asking { .. } => 0,
    }
}

fn number_of_known(known: Known) -> u8
    ensures { result ≡ spec.number_of_known known }
{
    match known {
        Known::Untouched => 1,
        Known::Begun => 2,
        Known::Aborted => 3,
        Known::MayBeComplete => 4,
        Known::Complete => 5,
        Known::MayRun => 6,
        Known::Runs => 7,
        Known::MayBeCommitted => 8,
        Known::Committed => 9,
    }
}
