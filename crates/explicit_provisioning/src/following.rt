//! One conversation after another.
ghost use Rattle.std.specs.Prelude.{◌≡◌};
ghost use Rattle.explicit_provisioning.specs.Following.{early, late};

use bus_model::Reply;
use conversations::{Conversation, NeedsPages, Next};
use paged_memory::PageAddressing;

/// A conversation that never waits, and that another one may follow.
pub trait Leads: NeedsPages {
    ghost use Rattle.std.specs.Prelude.{◌≡◌, Bool};
    ghost use Rattle.conversations.specs.Events.{Events};
    ghost use Rattle.conversations.specs.Wanted.{IsWait};
    ghost use Rattle.explicit_provisioning.specs.Following.{ends_so};

    /// It ends so where the other one follows.
    ghost passes: { Self.End → Bool };

    /// It has ended so after these events.
    ghost over: { Self.Topic → Events → Bool };

    /// Whether it has ended, and the other one follows.
    fn is_over(&self) -> bool
        ensures value { result ≡ ends_so passes (Self.wants self.now) }
        ensures over { (events : Events) → Self.told events self.now → over (Self.topic self.now) events ≡ ends_so passes (Self.wants self.now) }
        ensures no_wait { ¬ (IsWait (Self.wants self.now)) };
}

/// How two conversations ended, of which the second follows the first.
#[derive(Drop)]
pub enum Sequel<E, F> {
    /// The first ended so, and the second didn't begin.
    Early(E),
    /// The second ended so.
    Late(F),
}

/// A conversation with a module whose pages are selected by bank and page, and one that follows it.
#[derive(Drop)]
pub struct Then<A, B> {
    pub first: A,
    pub second: B,
}

impl<A: Leads, B: NeedsPages> Conversation for Then<A, B>
where
    A::End: Drop,
    B::End: Drop,
{
    ghost use Rattle.explicit_provisioning.specs.Following.{EndsThen, GoesOnThen, after_then, ends_so, first_part, next_then, second_part};

    type Topic = (A::Topic, B::Topic);

    type End = Sequel<A::End, B::End>;

    ghost topic = { λ it. (A.topic it.first, B.topic it.second) };

    ghost wants = { λ it. next_then (ends_so A.passes (A.wants it.first)) (A.wants it.first) (B.wants it.second) };

    ghost after = { λ it reply. after_then (ends_so A.passes (A.wants it.first)) (λ a r. A.after a r) (λ b r. B.after b r) it reply };

    ghost told = { λ events it. A.told (first_part (A.over (A.topic it.first)) events) it.first × B.told (second_part (A.over (A.topic it.first)) events) it.second };

    ghost ends = { λ topic events end. EndsThen (A.over topic.0) A.passes (λ own end. A.ends topic.0 own end) (λ own end. B.ends topic.1 own end) events end };

    ghost goes_on = { λ topic events. GoesOnThen (A.over topic.0) A.passes (λ own end. A.ends topic.0 own end) (λ own. A.goes_on topic.0 own) (λ own. B.goes_on topic.1 own) events };

    fn next(&self) -> Next<Sequel<A::End, B::End>> {
        let first = self.first.next();
        if self.first.is_over() {
            late(self.second.next())
        } else {
            early(first)
        }
    }

    fn take(&mut self, reply: &Reply) {
        if self.first.is_over() {
            self.second.take(reply);
        } else {
            self.first.take(reply);
        }
    }

    fn waited(&mut self) {
        if self.first.is_over() {
            self.second.waited();
        }
    }

    fn asked(&mut self, number: u32) {
        if self.first.is_over() {
            self.second.asked(number);
        } else {
            self.first.asked(number);
        }
    }
}

impl<A: Leads, B: NeedsPages> NeedsPages for Then<A, B>
where
    A::End: Drop,
    B::End: Drop,
{
    ghost use Rattle.std.specs.Prelude.{Some, false};
    ghost use Rattle.paged_memory.specs.declared.page_addressing.PageAddressing.TheVariants.{BankAndPage};
    ghost use Rattle.explicit_provisioning.specs.Following.{ends_so, lacking_then, needs_then, page_then};

    ghost page = { λ it. page_then (ends_so A.passes (A.wants it.first)) (A.page it.first) (B.page it.second) };

    ghost needs = { λ topic events. needs_then (A.over topic.0) (λ own. A.needs topic.0 own) (λ own. B.needs topic.1 own) events };

    ghost addressing = { λ it. Some BankAndPage };

    ghost addressed = { λ topic events. Some BankAndPage };

    ghost may_lack = { λ topic. false };

    ghost lacking = { λ it number. lacking_then (ends_so A.passes (A.wants it.first)) (λ a n. A.lacking a n) (λ b n. B.lacking b n) it number };

    fn page(&self) -> Option<u16> {
        if self.first.is_over() {
            self.second.page()
        } else {
            self.first.page()
        }
    }

    fn addressing(&self) -> Option<PageAddressing> {
        Some(PageAddressing::BankAndPage)
    }

    fn may_lack(&self) -> bool {
        false
    }

    fn lacks(&mut self, number: u16) {
        if self.first.is_over() {
            self.second.lacks(number);
        } else {
            self.first.lacks(number);
        }
    }
}

// What the first conversation wants is what both want.
fn early<E, F>(wanted: Next<E>) -> Next<Sequel<E, F>>
    ensures { result ≡ early wanted }
{
    match wanted {
        Next::Do(op) => Next::Do(op),
        Next::Wait(time) => Next::Wait(time),
        Next::End(end) => Next::End(Sequel::Early(end)),
    }
}

// So it is with the second.
fn late<E, F>(wanted: Next<F>) -> Next<Sequel<E, F>>
    ensures { result ≡ late wanted }
{
    match wanted {
        Next::Do(op) => Next::Do(op),
        Next::Wait(time) => Next::Wait(time),
        Next::End(end) => Next::End(Sequel::Late(end)),
    }
}
