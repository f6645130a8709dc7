//! One attempt to have a message carried out: a conversation whose operations need page 9Fh.
ghost use Rattle.std.specs.Prelude.{◌≡◌};
ghost use Rattle.bus_model.specs.Operations.{IsWellShaped};
ghost use Rattle.conversations.specs.Wanted.{IfDo};
ghost use Rattle.command_block.specs.Phases as spec;

use crate::judgement::{Judgement, judged};
use crate::message::Message;
use crate::operations::{head, piece, read_back, read_count, read_reply, read_status, trigger};
use crate::outcome::Outcome;
use bus_model::{Op, Reply};
use conversations::{Conversation, NeedsPages, Next};
use paged_memory::PageAddressing;

/// The page that shows the command data block.
pub const PAGE: u16 = 0x9f;

/// How long an attempt waits, in milliseconds, besides the pauses after fruitless transactions.
#[derive(Clone, Copy, Debug, PartialEq, Eq, Drop)]
pub struct Timing {
    /// Before the first operation; 0: not at all.
    pub delay: u32,
    /// Between the store of the id and the first look at the status, which may be that of the command before until the module takes
    /// this one up.
    pub rest: u32,
}

/// How far an attempt has come.
#[derive(Clone, Copy, Debug, PartialEq, Eq, Drop)]
pub enum Phase {
    /// The delay is to pass.
    Delayed,
    /// The module may be busy with another command.
    Idle,
    /// The body is to be stored from this byte on, and behind it the header.
    Filling { at: u8 },
    /// The id is to be stored, once.
    Triggering,
    /// That was taken, and a rest is due.
    Resting,
    /// What came of it is awaited.
    Awaiting,
    /// The length of the reply is to be read.
    Counting,
    /// The reply is to be read.
    Reading { count: u8, check: u8 },
    /// A store was refused once the body was stored up to this byte: that is to be read back before the next.
    Checking { at: u8 },
}

/// An attempt to have a message carried out.
#[derive(Debug, PartialEq, Eq, Drop)]
pub struct Attempt {
    pub message: Message,
    pub timing: Timing,
    pub phase: Phase,
    /// What came of it, once that is known.
    pub outcome: Option<Outcome>,
}

impl Attempt {
    ghost use Rattle.conversations.specs.Events.{Events, steps_of};
    ghost use Rattle.command_block.specs.AttemptEvents.{IsTold};
    ghost use Rattle.command_block.specs.Attempts.{IsAttempt};

    /// Nothing was done yet.
    pub fn of(message: Message, timing: Timing) -> Attempt
        ensures { result ≡ spec.begun message timing }
    {
        let phase = first_phase(timing);
        Attempt {
            message,
            timing,
            phase,
            outcome: None,
        }
    }

    /// What is known now of the message.
    pub fn known(&self) -> Outcome
        ensures value { result ≡ spec.known self.now }
        ensures shown { (own : Events) → IsTold own self.now → IsAttempt self.now.message (steps_of own) result }
    {
        self.known_now()
    }

    fn known_now(&self) -> Outcome
        ensures { result ≡ spec.known self.now }
    {
        match &self.outcome {
            Some(outcome) => outcome.copy(),
            None => given_up(self.phase),
        }
    }

    fn wanted(&self) -> Next<Outcome>
        ensures value { result ≡ spec.next_at self.now.message self.now.timing self.now.phase }
        ensures shape { IfDo result IsWellShaped }
    {
        match self.phase {
            Phase::Delayed => Next::Wait(self.timing.delay),
            Phase::Idle | Phase::Awaiting => Next::Do(read_status()),
            Phase::Filling { at } => Next::Do(filling(&self.message, at)),
            Phase::Triggering => Next::Do(trigger(&self.message)),
            Phase::Resting => Next::Wait(self.timing.rest),
            Phase::Counting => Next::Do(read_count()),
            Phase::Reading { count, .. } => Next::Do(read_reply(count)),
            Phase::Checking { at } => Next::Do(read_back(&self.message, at)),
        }
    }

    fn told(&mut self, reply: &Reply)
        ensures { self.new ≡ spec.taken self.old reply.now }
    {
        match judged(&self.message, self.phase, reply) {
            Judgement::On(phase) => self.phase = phase,
            Judgement::Again => {}
            Judgement::Ends(outcome) => self.outcome = Some(outcome),
        }
    }

    fn rested(&mut self)
        ensures { self.new ≡ spec.rested self.old }
    {
        match self.phase {
            Phase::Delayed => self.phase = Phase::Idle,
            Phase::Resting => self.phase = Phase::Awaiting,
            _ => {}
        }
    }

    fn lacking(&mut self)
        ensures { self.new ≡ spec.lacking self.old }
    {
        self.outcome = Some(self.known_now());
    }
}

impl Conversation for Attempt {
    ghost use Rattle.conversations.specs.Events.{steps_of};
    ghost use Rattle.command_block.specs.AttemptEvents.{EndsAttempt, GoesOnAttempt, IsTold};
    ghost use Rattle.command_block.specs.Phases.{taken, wants};

    type Topic = (Message, Timing);

    type End = Outcome;

    ghost topic = { λ attempt. (attempt.message, attempt.timing) };

    ghost wants = { wants };

    ghost after = { taken };

    ghost told = { IsTold };

    ghost ends = { λ topic own outcome. EndsAttempt topic.0 topic.1 own outcome };

    ghost goes_on = { λ topic own. GoesOnAttempt topic.0 topic.1 own };

    fn next(&self) -> Next<Outcome> {
        match &self.outcome {
            Some(outcome) => Next::End(outcome.copy()),
            None => self.wanted(),
        }
    }

    fn take(&mut self, reply: &Reply) {
        self.told(reply);
    }

    fn waited(&mut self) {
        if self.outcome.is_none() {
            self.rested();
        }
    }

    fn asked(&mut self, _number: u32) {}
}

impl NeedsPages for Attempt {
    ghost use Rattle.std.specs.Prelude.{Some, true};
    ghost use Rattle.paged_memory.specs.declared.page_addressing.PageAddressing.TheVariants.{BankAndPage};
    ghost use Rattle.command_block.specs.AttemptEvents.{attempt_after};
    ghost use Rattle.command_block.specs.Phases.{lacking, page_of};

    ghost page = { page_of };

    ghost needs = { λ topic own. page_of (attempt_after topic.0 topic.1 own) };

    ghost addressing = { λ attempt. Some BankAndPage };

    ghost addressed = { λ topic own. Some BankAndPage };

    ghost may_lack = { λ topic. true };

    ghost lacking = { λ attempt number. lacking attempt };

    fn page(&self) -> Option<u16> {
        match (&self.outcome, self.phase) {
            (
                None,
                Phase::Filling { .. }
                | Phase::Triggering
                | Phase::Counting
                | Phase::Reading { .. }
                | Phase::Checking { .. },
            ) => Some(PAGE),
            _ => None,
        }
    }

    fn addressing(&self) -> Option<PageAddressing> {
        Some(PageAddressing::BankAndPage)
    }

    fn may_lack(&self) -> bool {
        true
    }

    fn lacks(&mut self, _number: u16) {
        self.lacking();
    }
}

fn first_phase(timing: Timing) -> Phase
    ensures { result ≡ spec.first_phase timing }
{
    if timing.delay == 0 {
        Phase::Idle
    } else {
        Phase::Delayed
    }
}

// What is known if nothing more is done.
fn given_up(phase: Phase) -> Outcome
    ensures { result ≡ spec.given_up phase }
{
    match phase {
        Phase::Resting | Phase::Awaiting | Phase::Counting | Phase::Reading { .. } => {
            Outcome::Unknown
        }
        _ => Outcome::Unsent,
    }
}

// A piece of the body, or behind all of them the header.
fn filling(message: &Message, at: u8) -> Op
    ensures value { result ≡ spec.filling message.now at }
    ensures shape { IsWellShaped result }
{
    if usize::from(at) < message.body.len() {
        piece(message, at)
    } else {
        head(message)
    }
}
