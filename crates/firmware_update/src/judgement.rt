ghost use Rattle.std.specs.Prelude.{◌≡◌};
ghost use Rattle.firmware_update.specs.Progress.{after_features, after_info, again_if_query, judged, judged_failed, judged_reply, judged_unknown, judged_unsent, on_or_again, refused_start, sent_block};

use crate::bank::Bank;
use crate::command::block_length;
use crate::replies::{new_is_committed, new_runs, standing_bank, start_size};
use crate::update::{Cause, Stage};
use command_block::Outcome;

/// What an outcome says.
#[derive(Clone, Copy, Debug, PartialEq, Eq)]
pub enum Judgement {
    /// The update is at this stage now.
    On(Stage),
    /// The command is to be sent again.
    Again,
    /// The update ends.
    Fails(Cause),
}

/// What came of the command of a stage says this.
pub fn judged(size: u32, stage: Stage, outcome: &Outcome) -> Judgement
    ensures { result ≡ judged size stage outcome.now }
{
    match outcome {
        Outcome::Succeeded(reply) => judged_reply(size, stage, reply.as_slice()),
        Outcome::Failed(code) => judged_failed(stage, *code),
        Outcome::Unsent => judged_unsent(size, stage),
        Outcome::Unknown => judged_unknown(size, stage),
    }
}

fn judged_reply(size: u32, stage: Stage, reply: &[u8]) -> Judgement
    ensures { result ≡ judged_reply size stage reply.now }
{
    match stage {
        Stage::Asking => after_features(start_size(size, reply)),
        Stage::Looking { header } => after_info(header, standing_bank(reply)),
        Stage::Starting { header, old } => {
            Judgement::On(Stage::Sending {
                header,
                old,
                address: 0,
            })
        }
        Stage::Sending {
            header,
            old,
            address,
        } => sent_block(size, header, old, address),
        Stage::Running { old } => Judgement::On(Stage::Watching { old }),
        Stage::Watching { old } => on_or_again(Stage::Committing { old }, new_runs(old, reply)),
        Stage::Committing { old } => Judgement::On(Stage::Verifying { old }),
        Stage::Verifying { old } => on_or_again(Stage::Finished, new_is_committed(old, reply)),
        Stage::Finished => Judgement::Again,
    }
}

fn after_features(header: Option<u8>) -> Judgement
    ensures { result ≡ after_features header }
{
    match header {
        Some(header) => Judgement::On(Stage::Looking { header }),
        None => Judgement::Fails(Cause::Unsupported),
    }
}

fn after_info(header: u8, bank: Option<Bank>) -> Judgement
    ensures { result ≡ after_info header bank }
{
    match bank {
        Some(old) => Judgement::On(Stage::Starting { header, old }),
        None => Judgement::Fails(Cause::NotStanding),
    }
}

// A block was accepted, or that all were sent.
fn sent_block(size: u32, header: u8, old: Bank, address: u32) -> Judgement
    ensures { result ≡ sent_block size header old address }
{
    let length = block_length(size, header, address);
    if length == 0 {
        Judgement::On(Stage::Running { old })
    } else {
        Judgement::On(Stage::Sending {
            header,
            old,
            address: address + length,
        })
    }
}

fn on_or_again(stage: Stage, holds: bool) -> Judgement
    ensures { result ≡ on_or_again stage holds }
{
    if holds {
        Judgement::On(stage)
    } else {
        Judgement::Again
    }
}

fn judged_failed(stage: Stage, code: u8) -> Judgement
    ensures { result ≡ judged_failed stage code }
{
    match stage {
        Stage::Watching { .. } | Stage::Verifying { .. } => Judgement::Again,
        Stage::Starting { .. } => Judgement::Fails(refused_start(code)),
        _ => Judgement::Fails(Cause::Refused(code)),
    }
}

// A Start is refused with 43h or 47h while an earlier download is open.
fn refused_start(code: u8) -> Cause
    ensures { result ≡ refused_start code }
{
    if code == 0x43 || code == 0x47 {
        Cause::LeftOpen(code)
    } else {
        Cause::Refused(code)
    }
}

fn judged_unsent(size: u32, stage: Stage) -> Judgement
    ensures { result ≡ judged_unsent size stage }
{
    again_if_query(size, stage, Cause::Unsent)
}

fn judged_unknown(size: u32, stage: Stage) -> Judgement
    ensures { result ≡ judged_unknown size stage }
{
    match stage {
        Stage::Running { old } => Judgement::On(Stage::Watching { old }),
        Stage::Committing { old } => Judgement::On(Stage::Verifying { old }),
        _ => again_if_query(size, stage, Cause::Unknown),
    }
}

// What may be sent again is: questions, and a block to the same address.
fn again_if_query(size: u32, stage: Stage, cause: Cause) -> Judgement
    ensures { result ≡ again_if_query size stage cause }
{
    match stage {
        Stage::Asking | Stage::Looking { .. } | Stage::Watching { .. } | Stage::Verifying { .. } =>
            { Judgement::Again }
        Stage::Sending {
            header,
            address,
            ..
        } if block_length(size, header, address) > 0 => { Judgement::Again }
        _ => Judgement::Fails(cause),
    }
}
