ghost use Rattle.std.specs.Prelude.{◌≡◌, ◌↔◌, ◌∷◌, IsFalse, IsTrue};
ghost use Rattle.bus_model.specs.declared.operation.Op.{Op};
ghost use Rattle.conversations.specs.declared.next.Next.TheVariants.{Do};
ghost use Rattle.conversations.specs.Events.{Events, made};
ghost use Rattle.conversations.specs.Wanted.{IsReplyTo};

use crate::next::{Next, can_have};
use bus_model::Reply;

/// A conversation with a bus that it doesn't have.
pub trait Conversation {
    ghost use Rattle.std.specs.Prelude.{◌≡◌, ℕ, ◌∷◌};
    ghost use Rattle.bus_model.specs.declared.operation.Op.{Op};
    ghost use Rattle.bus_model.specs.declared.operation.Reply.{Reply};
    ghost use Rattle.bus_model.specs.Operations.{IsWellShaped};
    ghost use Rattle.conversations.specs.declared.next.Next.{Next};
    ghost use Rattle.conversations.specs.declared.next.Next.TheVariants.{Do, Wait};
    ghost use Rattle.conversations.specs.declared.event.Event.TheVariants.{Asked, Waited};
    ghost use Rattle.conversations.specs.Events.{Events, made};
    ghost use Rattle.conversations.specs.Wanted.{IfDo, IfEnd, IsReplyTo, IsWait};

    /// What it is about, which no reply changes.
    type Topic;

    /// How it ends.
    type End;

    ghost topic: { Self → Self.Topic };

    /// What it wants next.
    ghost wants: { Self → Next Self.End };

    /// What the reply to the operation that is wanted makes of it.
    ghost after: { Self → Reply → Self };

    /// It was told these events, the newest first.
    ghost told: { Events → Self → Type 0 };

    /// What events say that end so.
    ghost ends: { Self.Topic → Events → Self.End → Type 0 };

    /// What events say that are followed by an operation.
    ghost goes_on: { Self.Topic → Events → Type 0 };

    /// What is wanted now.
    fn next(&self) -> Next<Self::End>
        ensures value { result ≡ wants self.now }
        ensures shape { IfDo result IsWellShaped }
        ensures ends { (events : Events) → told events self.now → IfEnd result (λ end. ends (topic self.now) events end) }
        ensures goes_on { (events : Events) → told events self.now → IfDo result (λ op. goes_on (topic self.now) events) };

    /// Takes the reply to the operation that was to be made.
    fn take(&mut self, reply: &Reply)
        requires { IsReplyTo (wants self.old) reply.now }
        ensures after { self.new ≡ after self.old reply.now }
        ensures topic { topic self.new ≡ topic self.old }
        ensures told { (events : Events) (op : Op) → wants self.old ≡ Do op → told events self.old →
            told (made op reply.now ∷ events) self.new };

    /// So long as was asked for has passed. Where no wait is wanted, nothing changes.
    fn waited(&mut self)
        ensures topic { topic self.new ≡ topic self.old }
        ensures told { (events : Events) (time : ℕ) → wants self.old ≡ Wait time → told events self.old →
            told (Waited time ∷ events) self.new }
        ensures once { ¬ (IsWait (wants self.new)) }
        ensures out_of_turn { ¬ (IsWait (wants self.old)) → self.new ≡ self.old };

    /// The caller says this, whatever comes next. A conversation that knows no such number goes on as it was.
    fn asked(&mut self, number: u32)
        ensures topic { topic self.new ≡ topic self.old }
        ensures told { (events : Events) → told events self.old → told (Asked number ∷ events) self.new };
}

/// Tells a conversation the reply if it is one that the operation to be made can have; answers whether it was.
pub fn try_take<C: Conversation>(conversation: &mut C, reply: &Reply) -> bool
where
    C::End: Drop,
    ensures taken { IsTrue result ↔ IsReplyTo (C.wants conversation.old) reply.now }
    ensures after { IsTrue result → conversation.new ≡ C.after conversation.old reply.now }
    ensures topic { C.topic conversation.new ≡ C.topic conversation.old }
    ensures told { IsTrue result → (events : Events) (op : Op) → C.wants conversation.old ≡ Do op →
        C.told events conversation.old → C.told (made op reply.now ∷ events) conversation.new }
    ensures refused { IsFalse result → conversation.new ≡ conversation.old }
{
    let fits = is_answered_by(conversation, reply);
    if fits {
        conversation.take(reply);
    }
    fits
}

fn is_answered_by<C: Conversation>(conversation: &C, reply: &Reply) -> bool
where
    C::End: Drop,
    ensures { IsTrue result ↔ IsReplyTo (C.wants conversation.now) reply.now }
{
    match conversation.next() {
        Next::Do(op) => can_have(&op, reply),
        Next::Wait(_time) => false,
        Next::End(_end) => false,
    }
}
