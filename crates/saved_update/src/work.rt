//! What works at a module's firmware: an update, or a single command.
ghost use Rattle.std.specs.Prelude.{◌≡◌, ◌^◌, ◌<◌, ℕ, List, [], length};
ghost use Rattle.bus_model.specs.Operations.{IsWellShaped};
ghost use Rattle.conversations.specs.Wanted.{IfDo, IsReplyTo, IsWait};
ghost use Rattle.saved_update.specs.Works.{HasRested, IsOf, begun_question, begun_update, message_of_question, replied, wants};
ghost use Rattle.saved_update.specs.Works as spec;

use bus_model::Reply;
use command_block::{Delivery, Message, Outcome};
use conversations::{Conversation, Next};
use firmware_update::{Cause, Command, Durations, Session, Stage, Update, password_message};

/// A command that is sent alone.
#[derive(Clone, Copy, Debug, PartialEq, Eq)]
pub enum Question {
    /// How firmware is managed.
    Features,
    /// Which image runs, which is committed and which is valid.
    Info,
    /// The image that runs is to run after each reset.
    Commit,
    /// An open download is given up.
    Abort,
    /// This password gives access.
    Password(u32),
}

/// What works at a module's firmware.
#[derive(Drop)]
pub enum Work {
    /// An update.
    Updating {
        session: Session,
        /// Whether it ends before the Commit.
        held: bool,
    },
    /// A single command on its way.
    Asking {
        question: Question,
        delivery: Delivery,
    },
}

/// How that ended.
#[derive(Drop)]
pub enum Ending {
    /// The new image runs, and is committed unless that was held back; or why not.
    Updated(Result<(), Cause>),
    /// What came of the command.
    Answered(Outcome),
}

impl Question {
    /// As a message of the command data block.
    pub fn message(self) -> Message
        ensures { result ≡ message_of_question self }
    {
        match self {
            Question::Features => Command::Features.message(&[]),
            Question::Info => Command::Info.message(&[]),
            Question::Commit => Command::Commit.message(&[]),
            Question::Abort => Command::Abort.message(&[]),
            Question::Password(password) => password_message(password),
        }
    }
}

impl Work {
    /// An update to a file of this size, which ends before the Commit if that is held back.
    pub fn update(size: u32, held: bool) -> Work
        ensures value { (file : List ℕ) → length file ≡ size → result ≡ begun_update file held }
        ensures of { (file : List ℕ) → length file ≡ size → IsOf file result }
    {
        let update = Update::of(size);
        let durations = Durations::new();
        let first = Delivery::of(Command::Features.message(&[]), 0, 0);
        let session = Session {
            update,
            durations,
            delivery: Some(first),
        };
        Work::Updating { session, held }
    }

    /// A single command.
    pub fn question(question: Question) -> Work
        ensures value { result ≡ begun_question question }
        ensures of { IsOf [] result }
    {
        let delivery = Delivery::of(question.message(), 0, 0);
        Work::Asking { question, delivery }
    }

    /// The operation to be made now, or how long to wait, or the end.
    pub fn next(&self) -> Next<Ending>
        ensures value { result ≡ wants self.now }
        ensures shape { IfDo result IsWellShaped }
    {
        match self {
            Work::Updating { session, held } if *held && is_held(&session.update) => {
                Next::End(Ending::Updated(Ok(())))
            }
            Work::Updating { session, .. } => next_of_session(session),
            Work::Asking { delivery, .. } => next_of_delivery(delivery),
        }
    }

    /// Takes the reply to the operation that was to be made; the file is the same each time.
    pub fn take(&mut self, file: &[u8], reply: &Reply)
        requires short { length file.now < 2 ^ 32 }
        requires of { IsOf file.now self.old }
        requires answers { IsReplyTo (wants self.old) reply.now }
        ensures value { self.new ≡ replied file.now self.old reply.now }
        ensures of { IsOf file.now self.new }
    {
        match self {
            Work::Updating { session, .. } => session.take(file, reply),
            Work::Asking { delivery, .. } => delivery.take(reply),
        }
    }

    /// So long as was asked for has passed.
    pub fn waited(&mut self, file: &[u8])
        requires short { length file.now < 2 ^ 32 }
        requires of { IsOf file.now self.old }
        requires waits { IsWait (wants self.old) }
        ensures rests { HasRested file.now self.old self.new }
        ensures of { IsOf file.now self.new }
    {
        match self {
            Work::Updating { session, .. } => session.waited(file),
            Work::Asking { delivery, .. } => delivery.waited(),
        }
    }
}

// The Commit comes next.
fn is_held(update: &Update) -> bool
    ensures { result ≡ spec.is_held update.now }
{
    update.fault.is_none() && matches!(update.stage, Stage::Committing { .. })
}

fn next_of_session(session: &Session) -> Next<Ending>
    ensures value { result ≡ spec.next_of_session session.now }
    ensures shape { IfDo result IsWellShaped }
{
    match session.next() {
        Next::Do(op) => Next::Do(op),
        Next::Wait(time) => Next::Wait(time),
        Next::End(end) => Next::End(Ending::Updated(end)),
    }
}

fn next_of_delivery(delivery: &Delivery) -> Next<Ending>
    ensures value { result ≡ spec.next_of_delivery delivery.now }
    ensures shape { IfDo result IsWellShaped }
{
    match delivery.next() {
        Next::Do(op) => Next::Do(op),
        Next::Wait(time) => Next::Wait(time),
        Next::End(outcome) => Next::End(Ending::Answered(outcome)),
    }
}
