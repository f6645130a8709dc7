//! An update over a bus, without the bus and without the file: it says which operation comes next, or how long to wait, and is told
//! the reply.
ghost use Rattle.std.specs.Prelude.{◌≡◌, ◌<◌, ◌^◌, ℕ, List, [], ◌∷◌, length, Result, ⊤};
ghost use Rattle.command_block.specs.declared.outcome.Outcome.{Outcome};
ghost use Rattle.bus_model.specs.declared.operation.Op.{Op};
ghost use Rattle.bus_model.specs.Operations.{IsWellShaped};
ghost use Rattle.command_block.specs.Deliveries.{delivery_wants};
ghost use Rattle.conversations.specs.declared.event.Event.TheVariants.{Waited};
ghost use Rattle.conversations.specs.declared.next.Next.TheVariants.{Do, Wait, End};
ghost use Rattle.conversations.specs.Events.{Events, made};
ghost use Rattle.conversations.specs.Wanted.{IfDo, IsReplyTo, IsWait};
ghost use Rattle.firmware_update.specs.declared.command.Command.{Command};
ghost use Rattle.firmware_update.specs.declared.update.Cause.{Cause};
ghost use Rattle.firmware_update.specs.declared.update.UpdateNext.TheVariants.{Send, Done};
ghost use Rattle.firmware_update.specs.Courses.{IsOnBus, IsSafeOnBus, IsWhole, delay_for, delivery_at, going_on, learned_by, stopped, turns_left, wanted};
ghost use Rattle.firmware_update.specs.Payloads.{HasRoom};
ghost use Rattle.firmware_update.specs.Progress.{next, taken};
ghost use Rattle.firmware_update.specs.Sessions.{IsAbout};
ghost use Rattle.firmware_update.specs.Turned.{HasRested, begun_session, replied};

use crate::durations::Durations;
use crate::update::{Cause, MAX_TRIES, Update, UpdateNext};
use bus_model::Reply;
use command_block::{Delivery, Outcome};
use conversations::{Conversation, Next};

/// How many milliseconds pass before a command is sent again.
pub const DELAY: u32 = 1000;

/// An update, and its next command on the way; none where it has come to an end.
#[derive(Drop)]
pub struct Session {
    pub update: Update,
    /// How long the module may need, as far as it has said that.
    pub durations: Durations,
    pub delivery: Option<Delivery>,
}

impl Session {
    /// Of an update to this file.
    pub fn of(file: &[u8]) -> Session
        requires { length file.now < 2 ^ 32 }
        ensures value { result ≡ begun_session file.now }
        ensures begins { IsOnBus file.now [] result }
        ensures about { IsAbout file.now result }
    {
        let update = Update::of(file.len() as u32);
        let durations = Durations::new();
        let delivery = delivery_at(&update, durations, file);
        Session {
            update,
            durations,
            delivery,
        }
    }

    /// The operation to be made now, or how long to wait, or the end: the new image runs and is committed, or why not.
    pub fn next(&self) -> Next<Result<(), Cause>>
        ensures value { result ≡ wanted self.now }
        ensures shape { IfDo result IsWellShaped }
        ensures safe { (file : List ℕ) (events : Events) → IsOnBus file events self.now → IsSafeOnBus file events self.now }
        ensures ends { (file : List ℕ) (events : Events) (end : Result ⊤ Cause) → IsOnBus file events self.now → result ≡ End end →
            IsWhole file events self.now.update (Done end) }
    {
        self.wanted()
    }

    fn wanted(&self) -> Next<Result<(), Cause>>
        ensures value { result ≡ wanted self.now }
        ensures shape { IfDo result IsWellShaped }
    {
        match &self.delivery {
            Some(delivery) => match delivery.next() {
                Next::Do(op) => Next::Do(op),
                Next::Wait(time) => Next::Wait(time),
                Next::End(_outcome) => Next::End(Err(Cause::GaveUp)),
            },
            None => Next::End(self.end()),
        }
    }

    /// How the update ended, where nothing is on the way.
    pub(crate) fn end(&self) -> Result<(), Cause>
        ensures { stopped (next self.now.update) ≡ End result }
    {
        match self.update.next() {
            UpdateNext::Send(_command) => Err(Cause::GaveUp),
            UpdateNext::Done(end) => end,
        }
    }

    /// Takes the reply to the operation that was to be made; the file is the same each time.
    pub fn take(&mut self, file: &[u8], reply: &Reply)
        requires short { length file.now < 2 ^ 32 }
        requires about { IsAbout file.now self.old }
        requires answers { IsReplyTo (wanted self.old) reply.now }
        ensures value { self.new ≡ replied file.now self.old reply.now }
        ensures told { (events : Events) (op : Op) → IsOnBus file.now events self.old → wanted self.old ≡ Do op →
            IsOnBus file.now (made op reply.now ∷ events) self.new }
        ensures fewer { (events : Events) (op : Op) → IsOnBus file.now events self.old → wanted self.old ≡ Do op →
            turns_left self.new < turns_left self.old }
        ensures about { IsAbout file.now self.new }
    {
        if let Some(mut delivery) = self.delivery.take() {
            delivery.take(reply);
            self.go_on(file, delivery);
        }
    }

    /// So long as was asked for has passed.
    pub fn waited(&mut self, file: &[u8])
        requires short { length file.now < 2 ^ 32 }
        requires about { IsAbout file.now self.old }
        requires waits { IsWait (wanted self.old) }
        ensures rests { HasRested file.now self.old self.new }
        ensures told { (events : Events) (time : ℕ) → IsOnBus file.now events self.old → wanted self.old ≡ Wait time →
            IsOnBus file.now (Waited time ∷ events) self.new }
        ensures fewer { (events : Events) (time : ℕ) → IsOnBus file.now events self.old → wanted self.old ≡ Wait time →
            turns_left self.new < turns_left self.old }
        ensures about { IsAbout file.now self.new }
    {
        if let Some(mut delivery) = self.delivery.take() {
            delivery.waited();
            self.go_on(file, delivery);
        }
    }

    /// Keeps what is on the way, or takes what came of it.
    pub(crate) fn go_on(&mut self, file: &[u8], delivery: Delivery)
        requires short { length file.now < 2 ^ 32 }
        requires room { (outcome : Outcome) (command : Command) → delivery_wants delivery ≡ End outcome →
            next (taken self.old.update outcome) ≡ Send command → HasRoom command }
        ensures { self.new ≡ going_on file.now self.old.update self.old.durations delivery }
    {
        match delivery.next() {
            Next::Do(_op) => self.delivery = Some(delivery),
            Next::Wait(_time) => self.delivery = Some(delivery),
            Next::End(outcome) => {
                self.durations = learned_by(self.update.next(), self.durations, &outcome);
                self.update.take(&outcome);
                self.delivery = delivery_at(&self.update, self.durations, file);
            }
        }
    }
}

// The next command on its way.
fn delivery_at(update: &Update, durations: Durations, file: &[u8]) -> Option<Delivery>
    requires short { length file.now < 2 ^ 32 }
    requires room { (command : Command) → next update.now ≡ Send command → HasRoom command }
    ensures { result ≡ delivery_at file.now update.now durations (next update.now) }
{
    match update.next() {
        UpdateNext::Send(command) => Some(Delivery::of(
            command.message(file),
            durations.duration(command),
            delay_for(update),
        )),
        UpdateNext::Done(_end) => None,
    }
}

// What the command that was sent told of how long the module may need.
fn learned_by(sent: UpdateNext, durations: Durations, outcome: &Outcome) -> Durations
    ensures { result ≡ learned_by sent outcome.now durations }
{
    match sent {
        UpdateNext::Send(command) => durations.learned(command, outcome),
        UpdateNext::Done(_end) => durations,
    }
}

// A command that is sent again comes after a delay.
fn delay_for(update: &Update) -> u32
    ensures { result ≡ delay_for update.now }
{
    if update.tries < MAX_TRIES { DELAY } else { 0 }
}
