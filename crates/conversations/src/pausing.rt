ghost use Rattle.std.specs.Prelude.{◌≡◌};
ghost use Rattle.conversations.specs.Pauses as spec;
ghost use Rattle.conversations.specs.Pauses.{at_least, is_refused, is_same_fetch};
ghost use Rattle.bus_model.specs.SameOperation.{same_device};

use crate::conversation::Conversation;
use crate::next::{Next, op_in};
use bus_model::{Dev, Op, Reply};

/// How patient a conversation is with a module that doesn't answer, or not as it waits for.
#[derive(Clone, Copy, Debug, PartialEq, Eq, Drop)]
pub struct Patience {
    /// So many milliseconds pass before what follows a fruitless transaction. No wait is shorter.
    pub pause: u32,
    /// For so many milliseconds it pauses while nothing is done; then it ends. With `u32::MAX` it never does.
    pub limit: u32,
}

/// How a conversation ended whose patience is limited.
#[derive(Drop)]
pub enum Timed<E> {
    /// It ended so.
    InTime(E),
    /// It was out of patience.
    Overdue,
}

/// A conversation that pauses after a fruitless transaction, and ends if that happens for too long. A transaction is fruitless if it
/// was refused, if the same bytes are fetched again next, or if the page selection was read and is stored again next.
#[derive(Drop)]
pub struct Pausing<C> {
    pub conversation: C,
    pub patience: Patience,
    /// Whether it is to pause before the next operation.
    pub due: bool,
    /// For how many milliseconds it paused since a transaction that was neither fruitless nor for the page selection.
    pub idle: u32,
}

impl<C> Pausing<C> {
    ghost use Rattle.std.specs.Prelude.{◌≡◌, false};

    /// Nothing was made.
    pub fn new(conversation: C, patience: Patience) -> Pausing<C>
        ensures { result ≡ record { conversation = conversation; patience = patience; due = false; idle = 0 } }
    {
        Pausing {
            conversation,
            patience,
            due: false,
            idle: 0,
        }
    }
}

impl<C: Conversation> Conversation for Pausing<C>
where
    C::End: Drop,
{
    ghost use Rattle.conversations.specs.Pauses.{EndsPausing, GoesOnPausing, WithPauses, after_pausing, next_pausing};
    ghost use Rattle.conversations.specs.Wanted.{op_of};

    type Topic = (Patience, C::Topic);

    type End = Timed<C::End>;

    ghost topic = { λ pausing. (pausing.patience, C.topic pausing.conversation) };

    ghost wants = { λ pausing. next_pausing pausing.due pausing.idle pausing.patience (C.wants pausing.conversation) };

    ghost after = { λ pausing reply. after_pausing (λ c. C.wants c) (λ c r. C.after c r) pausing reply };

    ghost told = { λ events pausing. WithPauses pausing.patience (λ own. C.told own pausing.conversation) (op_of (C.wants pausing.conversation)) pausing.due pausing.idle events };

    ghost ends = { λ topic events end. EndsPausing topic.0 (λ own. C.goes_on topic.1 own) (λ own end. C.ends topic.1 own end) events end };

    ghost goes_on = { λ topic events. GoesOnPausing topic.0 (λ own. C.goes_on topic.1 own) events };

    fn next(&self) -> Next<Timed<C::End>> {
        match self.conversation.next() {
            Next::Do(op) if !self.due => Next::Do(op),
            Next::Do(_) if self.idle > self.patience.limit => Next::End(Timed::Overdue),
            Next::Do(_) => Next::Wait(self.patience.pause),
            Next::Wait(time) => Next::Wait(at_least(self.patience.pause, time)),
            Next::End(end) => Next::End(Timed::InTime(end)),
        }
    }

    fn take(&mut self, reply: &Reply) {
        let asked = op_in(self.conversation.next());
        self.conversation.take(reply);
        let next = op_in(self.conversation.next());
        self.due = is_fruitless(&asked, reply, &next);
        self.idle = idle_after(self.due, is_selecting(&asked), self.idle);
    }

    fn waited(&mut self) {
        if !self.next().is_wait() {
            return;
        }
        match op_in(self.conversation.next()) {
            Some(_op) => self.idle = self.idle.saturating_add(self.patience.pause),
            None => self.conversation.waited(),
        }
        self.due = false;
    }

    fn asked(&mut self, number: u32) {
        self.conversation.asked(number);
    }
}

// For how long nothing was done, after a transaction that was fruitless, or for the page selection.
fn idle_after(fruitless: bool, selecting: bool, idle: u32) -> u32
    ensures { result ≡ spec.idle_after fruitless selecting idle }
{
    if fruitless || selecting { idle } else { 0 }
}

// Whether the transaction was fruitless, if the other operation comes next, or none.
fn is_fruitless(asked: &Option<Op>, reply: &Reply, next: &Option<Op>) -> bool
    ensures { result ≡ spec.is_fruitless_in asked.now reply.now next.now }
{
    match asked {
        Some(op) => is_refused(reply) || is_repeated(op, next),
        None => false,
    }
}

fn is_repeated(op: &Op, next: &Option<Op>) -> bool
    ensures { result ≡ spec.is_repeated op.now next.now }
{
    match next {
        Some(next) => is_same_fetch(op, next) || selects_again(op, next),
        None => false,
    }
}

fn is_selecting(asked: &Option<Op>) -> bool
    ensures { result ≡ spec.is_selecting_in asked.now }
{
    match asked {
        Some(Op::Fetch { dev, offset, .. }) | Some(Op::Store { dev, offset, .. }) => {
            is_selection_at(*dev, *offset)
        }
        None => false,
    }
}

fn selects_again(op: &Op, other: &Op) -> bool
    ensures { result ≡ spec.selects_again op.now other.now }
{
    match (op, other) {
        (
            Op::Fetch { dev, offset, .. },
            Op::Store {
                dev: other_dev,
                offset: other_offset,
                ..
            },
        ) => is_selection_at(*dev, *offset) && is_selection_at(*other_dev, *other_offset),
        _ => false,
    }
}

fn is_selection_at(dev: Dev, offset: u8) -> bool
    ensures { result ≡ spec.is_selection_at dev offset }
{
    matches!((dev, offset), (Dev::A0, 126 | 127))
}

fn at_least(pause: u32, time: u32) -> u32
    ensures { result ≡ at_least pause time }
{
    if time < pause { pause } else { time }
}

pub fn is_refused(reply: &Reply) -> bool
    ensures { result ≡ is_refused reply.now }
{
    matches!(reply, Reply::Refused)
}

pub fn is_same_fetch(op: &Op, other: &Op) -> bool
    ensures { result ≡ is_same_fetch op.now other.now }
{
    match (op, other) {
        (
            Op::Fetch { dev, offset, count },
            Op::Fetch {
                dev: other_dev,
                offset: other_offset,
                count: other_count,
            },
        ) => {
            is_same_device(*dev, *other_dev) && *offset == *other_offset && *count == *other_count
        }
        _ => false,
    }
}

fn is_same_device(dev: Dev, other: Dev) -> bool
    ensures { result ≡ same_device dev other }
{
    matches!((dev, other), (Dev::A0, Dev::A0) | (Dev::A2, Dev::A2))
}
