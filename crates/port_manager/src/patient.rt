// A conversation on a real bus, one operation at a time: what a reply makes of it, and the pause that comes before the next one.
ghost use Rattle.std.specs.Prelude.{◌≡◌};
ghost use Rattle.conversations.specs.Wanted.{IsReplyTo};
ghost use Rattle.port_manager.specs.Patients.{advanced, pause_after, pause_in, wants_of};
ghost use Rattle.port_manager.specs.Patients as spec;

use bus_model::Reply;
use conversations::{Conversation, Next, Pausing, Within};

/// Takes the reply to the operation that was to be made; answers how long nothing is to be made, if it was in vain. The
/// conversation goes on as after that pause.
pub fn advance<C: Conversation>(patient: &mut Within<Pausing<C>>, reply: &Reply) -> Option<u32>
where
    C::End: Drop,
    requires { IsReplyTo (wants_of (λ c. C.wants c) patient.old) reply.now }
    ensures pause { result ≡ pause_after (λ c. C.wants c) (λ c r. C.after c r) patient.old reply.now }
    ensures after { patient.new ≡ advanced (λ c. C.wants c) (λ c r. C.after c r) patient.old reply.now }
{
    patient.take(reply);
    let pause = pause_in(patient.next());
    if pause.is_some() {
        rest(patient);
    }
    pause
}

fn pause_in<E: Drop>(next: Next<E>) -> Option<u32>
    ensures { result ≡ pause_in next }
{
    match next {
        Next::Do(_op) => None,
        Next::Wait(time) => Some(time),
        Next::End(_end) => None,
    }
}

// The pause that is due has passed.
fn rest<C>(patient: &mut Within<Pausing<C>>)
    ensures { patient.new ≡ spec.rested patient.old }
{
    patient.conversation.due = false;
    patient.conversation.idle = patient
        .conversation
        .idle
        .saturating_add(patient.conversation.patience.pause);
}
