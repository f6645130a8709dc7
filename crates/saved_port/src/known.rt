// A port that takes a reply is known as it was.
ghost use Rattle.std.specs.Prelude.{◌≡◌};
ghost use Rattle.port_manager.specs.Ports.{IfWorking, IsAwaited, IsTaken};
ghost use Rattle.saved_port.specs.Known.{IsKnown, IsReadingAfter, TellsSo, ToldNext};

use bus_model::Reply;
use control_sets::PatientProcedure;
use conversations::{OnPage, Pausing, Within, try_take};
use port_manager::{Job, Outcome, Port, Stage, Wanted};

/// Has the port take the reply to the operation that was to be made, which came at this moment.
pub fn take_known(port: &mut Port, reply: &Reply, wanted: &Wanted, now: u64) -> Outcome
    requires { IsAwaited port.old reply.now }
    ensures exact { IsTaken port.old reply.now wanted.now now result port.new }
    ensures known { IsKnown port.old → IsKnown port.new }
    ensures reading { IfWorking port.new.stage (IsReadingAfter port.old.outstanding port.old.stage reply.now) }
{
    tell(port, reply);
    port.take(reply, wanted, now)
}

// What a procedure that takes the reply was told is what it was told, and the reply.
fn tell(port: &Port, reply: &Reply)
    ensures { IfWorking port.now.stage (TellsSo reply.now) }
{
    match &port.stage {
        Stage::Absent | Stage::Left(_) => {}
        Stage::Working(job) => tell_job(job, reply),
    }
}

fn tell_job(job: &Job, reply: &Reply)
    ensures { TellsSo reply.now job.now }
{
    match job {
        Job::Reading(_, _) | Job::Waking(_) | Job::Sleeping(_) => {}
        Job::Confirming(_) | Job::Watching(_) => {}
        Job::Provisioning(procedure, _) => tell_procedure(procedure, reply),
        Job::Activating(procedure, _) => tell_procedure(procedure, reply),
    }
}

fn tell_procedure(procedure: &PatientProcedure, reply: &Reply)
    ensures { ToldNext reply.now procedure.now }
{
    let mut copy = copied(procedure);
    let _taken = try_take(&mut copy, reply);
}

fn copied(procedure: &PatientProcedure) -> PatientProcedure
    ensures { result ≡ procedure.now }
{
    let pausing = &procedure.conversation;
    let on_page = &pausing.conversation;
    Within {
        conversation: Pausing {
            conversation: OnPage {
                conversation: on_page.conversation,
                selection: on_page.selection,
                taken: on_page.taken,
                doubts: on_page.doubts,
            },
            patience: pausing.patience,
            due: pausing.due,
            idle: pausing.idle,
        },
        steps: procedure.steps,
        limit: procedure.limit,
    }
}
