// The numbers of what works.
ghost use Rattle.std.specs.Prelude.{◌≡◌, ◌≤◌, ◌==◌, ℕ, List, Some, false};
ghost use Rattle.firmware_update.specs.Sessions.{HasRoomAt};
ghost use Rattle.saved_update.specs.declared.work.Work.TheVariants as works;
ghost use Rattle.saved_update.specs.SavedDeliveries.{AreNumbersOf};
ghost use Rattle.saved_update.specs.SavedUpdates.{work_in};
ghost use Rattle.saved_update.specs.SavedUpdates as spec;
ghost use Rattle.saved_update.specs.Works.{IsOf};

use crate::delivery::{no_delivery, number_of, numbers_of};
use crate::numbers::{SavedDelivery, SavedDurations, SavedStage, SavedUpdate};
use crate::restoring::UPDATE;
use crate::work::{Question, Work};
use command_block::Delivery;
use firmware_update::{Bank, Cause, Closing, Durations, Session, Stage};

/// The numbers of what works.
pub fn save(work: &Work) -> SavedUpdate
    ensures { (file : List ℕ) → IsOf file work.now → work_in file result ≡ Some work.now }
{
    match work {
        Work::Updating { session, held } => numbers_of_session(session, *held),
        Work::Asking { question, delivery } => numbers_of_question(*question, delivery),
    }
}

fn numbers_of_question(question: Question, delivery: &Delivery) -> SavedUpdate
    ensures { (file : List ℕ) → IsOf file (works.Asking question delivery.now) → work_in file result ≡ Some (works.Asking question delivery.now) }
{
    let command = numbers_of_command(question);
    let durations = numbers_of_durations(Durations::new());
    let stage = stage_numbers(0, 0, 0);
    let delivery = numbers_of(delivery);
    SavedUpdate {
        magic: UPDATE,
        size: 0,
        durations,
        stage,
        password: command.1,
        work: command.0,
        held: 0,
        tries: 0,
        fault: 0,
        status: 0,
        closing: 0,
        delivery,
    }
}

fn numbers_of_command(question: Question) -> (u8, u32)
    ensures same { spec.question_in result.0 result.1 ≡ question }
    ensures some { (result.0 == 0) ≡ false }
{
    match question {
        Question::Features => (1, 0),
        Question::Info => (2, 0),
        Question::Commit => (3, 0),
        Question::Abort => (4, 0),
        Question::Password(password) => (5, password),
    }
}

// ---- an update

fn numbers_of_session(session: &Session, held: bool) -> SavedUpdate
    ensures { (file : List ℕ) → IsOf file (works.Updating session.now held) → work_in file result ≡ Some (works.Updating session.now held) }
{
    let durations = numbers_of_durations(session.durations);
    let stage = numbers_of_stage(session.update.stage);
    let held = number_of(held);
    let fault = numbers_of_fault(session.update.fault);
    let closing = number_of_closing(session.update.closing);
    let delivery = numbers_of_delivery(&session.delivery);
    SavedUpdate {
        magic: UPDATE,
        size: session.update.size,
        durations,
        stage,
        password: 0,
        work: 0,
        held,
        tries: session.update.tries,
        fault: fault.0,
        status: fault.1,
        closing,
        delivery,
    }
}

fn numbers_of_delivery(delivery: &Option<Delivery>) -> SavedDelivery
    ensures { AreNumbersOf result delivery.now }
{
    match delivery {
        Some(delivery) => numbers_of(delivery),
        None => no_delivery(),
    }
}

fn numbers_of_durations(durations: Durations) -> SavedDurations
    ensures { spec.durations_in result ≡ durations }
{
    SavedDurations {
        start: durations.start,
        abort: durations.abort,
        block: durations.block,
        complete: durations.complete,
    }
}

fn numbers_of_stage(stage: Stage) -> SavedStage
    ensures same { spec.stage_in result ≡ stage }
    ensures room { HasRoomAt stage → result.header ≤ 112 }
{
    match stage {
        Stage::Asking => stage_numbers(0, 0, 0),
        Stage::Looking { header } => stage_numbers(1, header, 0),
        Stage::Starting { header, old } => stage_numbers(2, header, number_of_bank(old)),
        Stage::Sending {
            header,
            old,
            address,
        } => SavedStage {
            address,
            stage: 3,
            header,
            old: number_of_bank(old),
        },
        Stage::Running { old } => stage_numbers(4, 0, number_of_bank(old)),
        Stage::Watching { old } => stage_numbers(5, 0, number_of_bank(old)),
        Stage::Committing { old } => stage_numbers(6, 0, number_of_bank(old)),
        Stage::Verifying { old } => stage_numbers(7, 0, number_of_bank(old)),
        Stage::Finished => stage_numbers(8, 0, 0),
    }
}

fn stage_numbers(stage: u8, header: u8, old: u8) -> SavedStage
    ensures { result ≡ record { address = 0; stage = stage; header = header; old = old } }
{
    SavedStage {
        address: 0,
        stage,
        header,
        old,
    }
}

fn number_of_bank(bank: Bank) -> u8
    ensures { spec.bank_in result ≡ bank }
{
    match bank {
        Bank::A => 0,
        Bank::B => 1,
    }
}

fn numbers_of_fault(fault: Option<Cause>) -> (u8, u8)
    ensures { spec.fault_in result.0 result.1 ≡ fault }
{
    match fault {
        None => (0, 0),
        Some(Cause::Refused(status)) => (1, status),
        Some(Cause::Unsent) => (2, 0),
        Some(Cause::Unknown) => (3, 0),
        Some(Cause::Unsupported) => (4, 0),
        Some(Cause::NotStanding) => (5, 0),
        Some(Cause::GaveUp) => (6, 0),
        Some(Cause::LeftOpen(status)) => (7, status),
    }
}

fn number_of_closing(closing: Closing) -> u8
    ensures { spec.closing_in result ≡ closing }
{
    match closing {
        Closing::Due => 0,
        Closing::Closed => 1,
        Closing::Left => 2,
    }
}
