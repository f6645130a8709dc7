ghost use Rattle.std.specs.Prelude.{◌≡◌, []};
ghost use Rattle.conversations.specs.Carried.{IsCarriedOut, IsLeft, MakesEvents};

use crate::conversation::Conversation;
use crate::next::Next;
use crate::timed_bus::TimedBus;
use crate::within::{Spent, Within};

/// Makes the operations that a conversation asks for, and lets time pass where it asks for that, until it ends or the bus fails.
pub fn run<B: TimedBus, C: Conversation>(
    bus: &mut B,
    within: &mut Within<C>,
) -> Result<Spent<C::End>, B::Fault>
    requires begun { ⟦<Within<C> as Conversation>⟧.told [] within.old }
    ensures topic { ⟦<Within<C> as Conversation>⟧.topic within.new ≡ ⟦<Within<C> as Conversation>⟧.topic within.old }
    ensures made { MakesEvents B.makes B.passes bus.old (λ last events. ⟦<Within<C> as Conversation>⟧.told events within.new
        × IsLeft (⟦<Within<C> as Conversation>⟧.wants within.new) result
        × IsCarriedOut within.old.limit (C.goes_on (C.topic within.old.conversation)) (C.ends (C.topic within.old.conversation)) (last ≡ bus.new) (λ fault. B.fails last fault bus.new) events result) }
{
    'told: loop {
        match within.next() {
            Next::Do(op) => match bus.transact(op) {
                Ok(reply) => within.take(&reply),
                Err(fault) => return Err(fault),
            },
            Next::Wait(milliseconds) => {
                bus.pause(milliseconds);
                within.waited();
            }
            Next::End(spent) => return Ok(spent),
        }
    }
}
