//! A message on a real bus: an attempt on a confirmed page, with pauses, for as long as the module may need.
ghost use Rattle.std.specs.Prelude.{◌≡◌, max};
ghost use Rattle.command_block.specs.Deliveries as spec;

use crate::attempt::{Attempt, Timing};
use crate::message::Message;
use crate::outcome::Outcome;
use bus_model::Reply;
use conversations::{Conversation, Next, OnPage, Patience, Pausing, Within};
use paged_memory::KnownPage;

/// How many operations are made at most for a message, with those that select the page.
pub const MAX_STEPS: u16 = 4096;

/// A message that is to be carried out, on a real bus: a conversation that ends with what came of it.
#[derive(Drop)]
pub struct Delivery {
    pub patient: Within<Pausing<OnPage<Attempt>>>,
}

impl Delivery {
    /// After a delay, of a message that the module may need so many milliseconds for.
    pub fn of(message: Message, duration: u32, delay: u32) -> Delivery
        ensures { result ≡ spec.begun_delivery message duration delay }
    {
        let pause = pause_for(duration);
        let timing = Timing { delay, rest: pause };
        let on_page = OnPage {
            conversation: Attempt::of(message, timing),
            selection: KnownPage::Unknown,
            taken: None,
            doubts: true,
        };
        let patience = Patience {
            pause,
            limit: larger(SHORTEST_LIMIT, duration),
        };
        Delivery {
            patient: Within::new(Pausing::new(on_page, patience), MAX_STEPS),
        }
    }
}

const SHORTEST_PAUSE: u32 = 10;

const SHORTEST_LIMIT: u32 = 10_000;

/// How many milliseconds to pause wherever a transaction brought nothing, if the module may need so many: 1,000 pauses last for as
/// long as that.
pub fn pause_for(duration: u32) -> u32
    ensures { result ≡ spec.pause_for duration }
{
    larger(SHORTEST_PAUSE, duration.div_ceil(1000))
}

fn larger(one: u32, other: u32) -> u32
    ensures { result ≡ max one other }
{
    if one < other { other } else { one }
}

impl Conversation for Delivery {
    ghost use Rattle.std.specs.Prelude.{◌≡◌, ◌∷◌, ℕ};
    ghost use Rattle.conversations.specs.declared.event.Event.TheVariants.{Waited};
    ghost use Rattle.conversations.specs.declared.next.Next.TheVariants.{Wait};
    ghost use Rattle.conversations.specs.Events.{Events};
    ghost use Rattle.conversations.specs.Wanted.{IsWait};
    ghost use Rattle.command_block.specs.Deliveries.{GoesOnDelivery, IsDelivered, delivery_after, delivery_wants, terms_of};
    ghost use Rattle.command_block.specs.Turns.{IsRested, ToldDelivery};

    type Topic = (u16, (Patience, (bool, (Message, Timing))));

    type End = Outcome;

    ghost topic = { λ delivery. terms_of delivery.patient };

    ghost wants = { delivery_wants };

    ghost after = { delivery_after };

    ghost told = { ToldDelivery };

    ghost ends = { λ terms events outcome. IsDelivered terms events outcome };

    ghost goes_on = { λ terms events. GoesOnDelivery terms events };

    fn next(&self) -> Next<Outcome> {
        match self.patient.next() {
            Next::Do(op) => Next::Do(op),
            Next::Wait(time) => Next::Wait(time),
            Next::End(_spent) => Next::End(
                self.patient.conversation.conversation.conversation.known(),
            ),
        }
    }

    fn take(&mut self, reply: &Reply) {
        self.patient.take(reply);
    }

    fn waited(&mut self)
        ensures topic { terms_of self.new.patient ≡ terms_of self.old.patient }
        ensures told { (events : Events) (time : ℕ) → delivery_wants self.old ≡ Wait time → ToldDelivery events self.old →
            ToldDelivery (Waited time ∷ events) self.new }
        ensures once { ¬ (IsWait (delivery_wants self.new)) }
        ensures out_of_turn { ¬ (IsWait (delivery_wants self.old)) → self.new ≡ self.old }
        ensures rested { IsRested self.old self.new }
    {
        self.patient.waited();
    }

    fn asked(&mut self, number: u32) {
        self.patient.asked(number);
    }
}
