ghost use Rattle.std.specs.Prelude.{◌≡◌};
ghost use Rattle.bus_model.specs.Operations.{Answers};
ghost use Rattle.conversations.specs.Watching.{is_look, look_after_wait, look_at, read_state, shown};

use crate::conversation::Conversation;
use crate::next::Next;
use crate::pausing::is_same_fetch;
use bus_model::{Op, Reply};
use field_tables::{Register, field, number_in_byte, register};
use module_states::{ModuleState, state_of};

/// Whether a conversation is to look at the module's state.
#[derive(Clone, Copy, Debug, PartialEq, Eq, Drop)]
pub enum Look {
    /// Not before it waits again.
    Seen,
    /// Before its next operation.
    Due,
    /// It did, and the module isn't in ModuleReady any more: its state has this code, or none has.
    Left(u8),
}

/// How a conversation ended that looks at the module's state.
#[derive(Drop)]
pub enum Watched<E> {
    /// It ended so.
    InOrder(E),
    /// The module wasn't in ModuleReady any more: it showed this code.
    Left(u8),
}

/// A conversation with a module in ModuleReady. After each wait, and before its next operation, it looks whether the module still is, and
/// ends if it isn't. A refused look counts as a refusal of that operation. An operation that reads the state itself needs no look.
#[derive(Drop)]
pub struct Watching<C> {
    pub conversation: C,
    /// Whether it looks.
    pub watches: bool,
    pub look: Look,
}

impl<C> Watching<C> {
    ghost use Rattle.std.specs.Prelude.{◌≡◌};
    ghost use Rattle.conversations.specs.declared.watching.Look.TheVariants.{Seen};

    /// Nothing was made.
    pub fn new(conversation: C, watches: bool) -> Watching<C>
        ensures { result ≡ record { conversation = conversation; watches = watches; look = Seen } }
    {
        Watching {
            conversation,
            watches,
            look: Look::Seen,
        }
    }
}

impl<C: Conversation> Conversation for Watching<C>
where
    C::End: Drop,
{
    ghost use Rattle.conversations.specs.Wanted.{op_of};
    ghost use Rattle.conversations.specs.Watching.{EndsWatching, GoesOnWatching, WithLooks, after_watching, next_watching};

    type Topic = (bool, C::Topic);

    type End = Watched<C::End>;

    ghost topic = { λ it. (it.watches, C.topic it.conversation) };

    ghost wants = { λ it. next_watching it.look (C.wants it.conversation) };

    ghost after = { λ it reply. after_watching (λ c. C.wants c) (λ c r. C.after c r) it reply };

    ghost told = { λ events it. WithLooks it.watches it.look (op_of (C.wants it.conversation)) (λ own. C.told own it.conversation) events };

    ghost ends = { λ topic events end. EndsWatching topic.0 (λ own. C.goes_on topic.1 own) (λ own end. C.ends topic.1 own end) events end };

    ghost goes_on = { λ topic events. GoesOnWatching topic.0 (λ own. C.goes_on topic.1 own) events };

    fn next(&self) -> Next<Watched<C::End>> {
        match self.conversation.next() {
            Next::Do(op) => match self.look {
                Look::Left(code) => Next::End(Watched::Left(code)),
                Look::Due if !is_look(&op) => Next::Do(read_state()),
                Look::Due | Look::Seen => Next::Do(op),
            },
            Next::Wait(time) => Next::Wait(time),
            Next::End(end) => Next::End(Watched::InOrder(end)),
        }
    }

    fn take(&mut self, reply: &Reply) {
        if self.is_looking() {
            self.take_look(reply);
        } else {
            self.conversation.take(reply);
            self.look = Look::Seen;
        }
    }

    fn waited(&mut self) {
        if self.conversation.next().is_wait() {
            self.conversation.waited();
            self.look = look_after_wait(self.watches, self.look);
        }
    }

    fn asked(&mut self, number: u32) {
        self.conversation.asked(number);
    }
}

impl<C: Conversation> Watching<C>
where
    C::End: Drop,
{
    ghost use Rattle.std.specs.Prelude.{◌≡◌, ◌∷◌, true};
    ghost use Rattle.bus_model.specs.declared.operation.Op.{Op};
    ghost use Rattle.bus_model.specs.Operations.{Answers};
    ghost use Rattle.conversations.specs.declared.next.Next.TheVariants.{Do};
    ghost use Rattle.conversations.specs.Events.{Events, made};
    ghost use Rattle.conversations.specs.Wanted.{IsReplyTo, op_of};
    ghost use Rattle.conversations.specs.Watching.{WithLooks, is_looking, looked, next_watching, read_state, shown};

    fn is_looking(&self) -> bool
        ensures { result ≡ is_looking self.now.look (C.wants self.now.conversation) }
    {
        match (self.look, self.conversation.next()) {
            (Look::Due, Next::Do(op)) => !is_look(&op),
            (_look, _next) => false,
        }
    }

    fn take_look(&mut self, reply: &Reply)
        requires looks { is_looking self.old.look (C.wants self.old.conversation) ≡ true }
        requires reply { Answers read_state reply.now }
        ensures after { self.new ≡ looked (λ c r. C.after c r) self.old (shown reply.now) }
        ensures topic { C.topic self.new.conversation ≡ C.topic self.old.conversation }
        ensures told { (events : Events) → WithLooks self.old.watches self.old.look (op_of (C.wants self.old.conversation)) (λ own. C.told own self.old.conversation) events →
            WithLooks self.new.watches self.new.look (op_of (C.wants self.new.conversation)) (λ own. C.told own self.new.conversation) (made read_state reply.now ∷ events) }
    {
        match shown(reply) {
            Some(code) => self.look = look_at(code),
            None => {
                self.conversation.take(&Reply::Refused);
                self.look = Look::Seen;
            }
        }
    }
}

// Reads the module's state.
fn read_state() -> Op
    ensures { result ≡ read_state }
{
    let span = register(Register::GlobalStatus);
    Op::Fetch {
        dev: span.dev,
        offset: span.first,
        count: span.count(),
    }
}

// Whether the operation does.
fn is_look(op: &Op) -> bool
    ensures { result ≡ is_look op.now }
{
    is_same_fetch(&read_state(), op)
}

// The code of the state that the reply to a look shows.
fn shown(reply: &Reply) -> Option<u8>
    requires { Answers read_state reply.now }
    ensures { result ≡ shown reply.now }
{
    match reply {
        Reply::Bytes(bytes) => Some(number_in_byte(field!(Cmis ModuleState), bytes[0])),
        Reply::Done | Reply::Refused => None,
    }
}

fn look_at(code: u8) -> Look
    ensures { result ≡ look_at code }
{
    match state_of(code) {
        Ok(ModuleState::Ready) => Look::Seen,
        _ => Look::Left(code),
    }
}

fn look_after_wait(watches: bool, look: Look) -> Look
    ensures { result ≡ look_after_wait watches look }
{
    match look {
        Look::Seen if watches => Look::Due,
        _ => look,
    }
}
