ghost use Rattle.std.specs.Prelude.{◌≡◌, ◌∷◌};
ghost use Rattle.bus_model.specs.declared.operation.Op.{Op};
ghost use Rattle.conversations.specs.declared.next.Next.TheVariants.{Do};
ghost use Rattle.conversations.specs.declared.watching.Watched.TheVariants.{InOrder};
ghost use Rattle.conversations.specs.Events.{Events, made};
ghost use Rattle.conversations.specs.Wanted.{IfEnd, IsReplyTo};
ghost use Rattle.firmware_api.specs.KeptConversations.{EndsSo, WasTold, after, ending_by, next_of, no_fault, read_ending};

use bus_model::Reply;
use control_sets::{PatientPower, ProvisionFault, WatchfulProcedure};
use conversations::{Conversation, Next, Spent, Timed, Watched};
use module_reading::PatientReading;

/// How a conversation ended.
pub type Ending = Watched<Spent<Timed<Option<ProvisionFault>>>>;

/// A conversation that C keeps.
#[derive(Drop)]
pub enum Kept {
    /// Provisioning or activation.
    OfTasks(WatchfulProcedure),
    /// Waking a module up, or putting it to sleep.
    OfPower(PatientPower),
    /// Reading a module.
    OfReading(PatientReading),
}

impl Kept {
    /// What is to be done now, or the end.
    pub fn next(&self) -> Next<Ending>
        ensures value { result ≡ next_of self.now }
        ensures ends { (events : Events) → WasTold events self.now → IfEnd result (λ ending. EndsSo self.now events ending) }
    {
        match self {
            Kept::OfTasks(procedure) => procedure.next(),
            Kept::OfPower(change) => in_order(change.next()),
            Kept::OfReading(read) => as_ending(read.next()),
        }
    }

    /// Takes the reply to the operation that was to be made.
    pub fn take(&mut self, reply: &Reply)
        requires { IsReplyTo (next_of self.old) reply.now }
        ensures after { self.new ≡ after self.old reply.now }
        ensures told { (events : Events) (op : Op) → next_of self.old ≡ Do op → WasTold events self.old → WasTold (made op reply.now ∷ events) self.new }
    {
        match self {
            Kept::OfTasks(procedure) => procedure.take(reply),
            Kept::OfPower(change) => change.take(reply),
            Kept::OfReading(read) => read.take(reply),
        }
    }
}

// What looks at no state ends as it ends.
fn in_order(next: Next<Spent<Timed<Option<ProvisionFault>>>>) -> Next<Ending>
    ensures { result ≡ ending_by InOrder next }
{
    match next {
        Next::Do(op) => Next::Do(op),
        Next::Wait(time) => Next::Wait(time),
        Next::End(spent) => Next::End(Watched::InOrder(spent)),
    }
}

// A module that was read is no fault.
fn as_ending(next: Next<Spent<Timed<()>>>) -> Next<Ending>
    ensures { result ≡ ending_by read_ending next }
{
    match next {
        Next::Do(op) => Next::Do(op),
        Next::Wait(time) => Next::Wait(time),
        Next::End(spent) => Next::End(Watched::InOrder(Spent {
            steps: spent.steps,
            end: match spent.end {
                Some(timed) => Some(no_fault(timed)),
                None => None,
            },
        })),
    }
}

fn no_fault(timed: Timed<()>) -> Timed<Option<ProvisionFault>>
    ensures { result ≡ no_fault timed }
{
    match timed {
        Timed::InTime(()) => Timed::InTime(None),
        Timed::Overdue => Timed::Overdue,
    }
}
