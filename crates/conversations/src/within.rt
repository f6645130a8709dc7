use crate::conversation::Conversation;
use crate::next::Next;
use bus_model::Reply;

/// How a conversation ended, and how many operations were made.
#[derive(Drop)]
pub struct Spent<E> {
    pub steps: u16,
    /// `None` if it gave up, since as many were made as may be.
    pub end: Option<E>,
}

/// A conversation of so many operations at most.
#[derive(Drop)]
pub struct Within<C> {
    pub conversation: C,
    /// How many operations were made.
    pub steps: u16,
    /// How many may be.
    pub limit: u16,
}

impl<C> Within<C> {
    ghost use Rattle.std.specs.Prelude.{◌≡◌};

    /// No operation was made.
    pub fn new(conversation: C, limit: u16) -> Within<C>
        ensures { result ≡ record { conversation = conversation; steps = 0; limit = limit } }
    {
        Within {
            conversation,
            steps: 0,
            limit,
        }
    }
}

impl<C: Conversation> Conversation for Within<C> {
    ghost use Rattle.std.specs.Prelude.{◌≡◌, ◌+◌, ◌≤◌, ◌<◌, length};
    ghost use Rattle.conversations.specs.Events.{Events, steps_of};
    ghost use Rattle.conversations.specs.Budgets.{HasSpent, next_within};

    type Topic = (u16, C::Topic);

    type End = Spent<C::End>;

    ghost topic = { λ within. (within.limit, C.topic within.conversation) };

    ghost wants = { λ within. next_within within.steps within.limit (C.wants within.conversation) };

    ghost after = { λ within reply. record { conversation = C.after within.conversation reply; steps = within.steps + 1; limit = within.limit } };

    ghost told = { λ events within. C.told events within.conversation × (length (steps_of events) ≡ within.steps) × (within.steps ≤ within.limit) };

    ghost ends = { λ topic events end. HasSpent topic.0 (C.goes_on topic.1) (C.ends topic.1) events end };

    ghost goes_on = { λ topic events. C.goes_on topic.1 events × (length (steps_of events) < topic.0) };

    fn next(&self) -> Next<Spent<C::End>> {
        let steps = self.steps;
        match self.conversation.next() {
            Next::Do(op) if steps < self.limit => Next::Do(op),
            Next::Do(_) => Next::End(Spent { steps, end: None }),
            Next::Wait(time) => Next::Wait(time),
            Next::End(end) => Next::End(Spent {
                steps,
                end: Some(end),
            }),
        }
    }

    fn take(&mut self, reply: &Reply) {
        self.conversation.take(reply);
        self.steps += 1;
    }

    fn waited(&mut self) {
        self.conversation.waited();
    }

    fn asked(&mut self, number: u32) {
        self.conversation.asked(number);
    }
}
