// From numbers to what works.
ghost use Rattle.std.specs.Prelude.{◌≡◌, ◌≤◌, ◌<◌, ◌^◌, IfSome, IsTrue, length};
ghost use Rattle.firmware_update.specs.Sessions.{HasRoomAt, IsAbout};
ghost use Rattle.firmware_update.specs.Courses.{delay_for};
ghost use Rattle.firmware_update.specs.Progress.{next};
ghost use Rattle.saved_update.specs.SavedUpdates.{work_in};
ghost use Rattle.saved_update.specs.SavedUpdates as spec;
ghost use Rattle.saved_update.specs.Works.{IsOf};

use crate::delivery::delivery_in;
use crate::numbers::{SavedDelivery, SavedDurations, SavedStage, SavedUpdate};
use crate::work::{Question, Work};
use command_block::Delivery;
use firmware_update::{
    Bank, Cause, Closing, DELAY, Durations, MAX_TRIES, Session, Stage, Update, UpdateNext,
};

/// What stands in each update, so that other memory is not taken for one: `DCU1`.
pub const UPDATE: u32 = 0x4443_5531;

/// What works by these numbers, with this file, if anything does.
#[tactic(auto, unfolding(crate::specs::SavedUpdates::work_in))]
pub fn restore(saved: &SavedUpdate, file: &[u8]) -> Option<Work>
    ensures value { result ≡ work_in file.now saved.now }
    ensures short { IfSome result (λ work. length file.now < 2 ^ 32) }
    ensures of { IfSome result (IsOf file.now) }
{
    if is_sound(saved, file) {
        work_by(saved, file)
    } else {
        None
    }
}

fn is_sound(saved: &SavedUpdate, file: &[u8]) -> bool
    ensures value { result ≡ spec.is_sound file.now saved.now }
    ensures sized { IsTrue result → saved.now.size ≡ length file.now }
    ensures short { IsTrue result → length file.now < 2 ^ 32 }
    ensures room { IsTrue result → saved.now.stage.header ≤ 112 }
{
    saved.magic == UPDATE && saved.size as usize == file.len() && saved.stage.header <= 112
}

fn work_by(saved: &SavedUpdate, file: &[u8]) -> Option<Work>
    requires short { length file.now < 2 ^ 32 }
    requires sized { saved.now.size ≡ length file.now }
    requires room { saved.now.stage.header ≤ 112 }
    ensures value { result ≡ spec.work_by file.now saved.now }
    ensures of { IfSome result (IsOf file.now) }
{
    if saved.work == 0 {
        Some(Work::Updating {
            session: session_in(saved, file),
            held: saved.held == 1,
        })
    } else if saved.size == 0 {
        let question = question_in(saved.work, saved.password);
        Some(asking_in(question, file, &saved.delivery))
    } else {
        None
    }
}

fn question_in(number: u8, password: u32) -> Question
    ensures { result ≡ spec.question_in number password }
{
    match number {
        1 => Question::Features,
        2 => Question::Info,
        3 => Question::Commit,
        4 => Question::Abort,
        _ => Question::Password(password),
    }
}

fn asking_in(question: Question, file: &[u8], saved: &SavedDelivery) -> Work
    requires none { length file.now ≡ 0 }
    ensures value { result ≡ spec.asking_in question saved.now }
    ensures of { IsOf file.now result }
{
    let delivery = delivery_in(question.message(), 0, 0, saved);
    Work::Asking { question, delivery }
}

// ---- an update

fn session_in(saved: &SavedUpdate, file: &[u8]) -> Session
    requires short { length file.now < 2 ^ 32 }
    requires room { saved.now.stage.header ≤ 112 }
    requires sized { saved.now.size ≡ length file.now }
    ensures value { result ≡ spec.session_in file.now saved.now }
    ensures about { IsAbout file.now result }
{
    let update = update_in(saved);
    let durations = durations_in(saved.durations);
    let delivery = delivery_by(&update, durations, file, &saved.delivery);
    Session {
        update,
        durations,
        delivery,
    }
}

fn delivery_by(
    update: &Update,
    durations: Durations,
    file: &[u8],
    saved: &SavedDelivery,
) -> Option<Delivery>
    requires short { length file.now < 2 ^ 32 }
    requires room { HasRoomAt update.now.stage }
    ensures { result ≡ spec.delivery_by file.now update.now durations saved.now (next update.now) }
{
    match update.next() {
        UpdateNext::Send(command) => Some(delivery_in(
            command.message(file),
            durations.duration(command),
            delay_for(update),
            saved,
        )),
        UpdateNext::Done(_end) => None,
    }
}

fn delay_for(update: &Update) -> u32
    ensures { result ≡ delay_for update.now }
{
    if update.tries < MAX_TRIES { DELAY } else { 0 }
}

fn update_in(saved: &SavedUpdate) -> Update
    requires room { saved.now.stage.header ≤ 112 }
    ensures value { result ≡ spec.update_in saved.now }
    ensures room { HasRoomAt result.stage }
{
    Update {
        size: saved.size,
        stage: stage_in(saved.stage),
        tries: saved.tries,
        fault: fault_in(saved.fault, saved.status),
        closing: closing_in(saved.closing),
    }
}

fn stage_in(saved: SavedStage) -> Stage
    requires room { saved.header ≤ 112 }
    ensures value { result ≡ spec.stage_in saved }
    ensures room { HasRoomAt result }
{
    let header = saved.header;
    let old = bank_in(saved.old);
    match saved.stage {
        0 => Stage::Asking,
        1 => Stage::Looking { header },
        2 => Stage::Starting { header, old },
        3 => Stage::Sending {
            header,
            old,
            address: saved.address,
        },
        4 => Stage::Running { old },
        5 => Stage::Watching { old },
        6 => Stage::Committing { old },
        7 => Stage::Verifying { old },
        _ => Stage::Finished,
    }
}

fn bank_in(number: u8) -> Bank
    ensures { result ≡ spec.bank_in number }
{
    if number == 1 { Bank::B } else { Bank::A }
}

fn durations_in(saved: SavedDurations) -> Durations
    ensures { result ≡ spec.durations_in saved }
{
    Durations {
        start: saved.start,
        abort: saved.abort,
        block: saved.block,
        complete: saved.complete,
    }
}

fn fault_in(number: u8, status: u8) -> Option<Cause>
    ensures { result ≡ spec.fault_in number status }
{
    match number {
        0 => None,
        1 => Some(Cause::Refused(status)),
        2 => Some(Cause::Unsent),
        3 => Some(Cause::Unknown),
        4 => Some(Cause::Unsupported),
        5 => Some(Cause::NotStanding),
        7 => Some(Cause::LeftOpen(status)),
        _ => Some(Cause::GaveUp),
    }
}

fn closing_in(number: u8) -> Closing
    ensures { result ≡ spec.closing_in number }
{
    match number {
        1 => Closing::Closed,
        2 => Closing::Left,
        _ => Closing::Due,
    }
}
