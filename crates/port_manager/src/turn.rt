// What the reply to the operation of a job leads to.
ghost use Rattle.std.specs.Prelude.{◌≡◌, Option};
ghost use Rattle.conversations.specs.Wanted as conversations;
ghost use Rattle.port_manager.specs.Jobs.{IsReplyTo, asked, look_wants, procedure_wants, reading_wants, waking_wants};
ghost use Rattle.port_manager.specs.RefusedApplies.{is_refused_apply};
ghost use Rattle.port_manager.specs.Turns.{IsRead, IsTurn, IsTurnOf, activated, decided, going, provisioned, seen, slept, turn_by, woken_up};
ghost use Rattle.port_manager.specs.Turns as spec;
ghost use Rattle.port_manager.specs.declared.job.Job.{Job};
ghost use Rattle.port_manager.specs.declared.job.Job.TheVariants as jobs;

use crate::deciding::{Decision, Goal, LeftBecause, Wanted, decide};
use crate::job::{Beginning, Job, ReadingJob, WatchingJob};
use crate::patient::advance;
use bus_model::{Op, Reply};
use control_sets::{
    PatientPower, PatientProcedure, PowerStage, ProvisionFault, is_apply, patience_for,
};
use conversations::{Conversation, Next, Patience, Timed};
use field_tables::{field, number};
use paged_memory::Image;

/// What a log says of a reply that leads on.
#[derive(Clone, Copy, Debug, PartialEq, Eq)]
pub enum Note {
    /// Nothing.
    Quiet,
    /// The memory was read.
    Identified,
    /// The module was woken up.
    Woken,
    /// The control bytes are active.
    Provisioned,
    /// The module was read or looked at, and is as wanted: it is ready, and the lanes are up with their control bytes.
    CameUp,
    /// The module was looked at again, and is as wanted still.
    Held,
}

/// Why a procedure has failed.
#[derive(Clone, Copy, Debug, PartialEq, Eq)]
pub enum ProcedureFault {
    /// By what the module showed, or since too many operations were made.
    Failed(ProvisionFault),
    /// A state lasted for too long.
    Overdue,
}

/// Why what was begun has failed.
#[derive(Clone, Copy, Debug, PartialEq, Eq)]
pub enum PortFault {
    /// The memory could not be read.
    Unread,
    /// The module is not ready though it was woken up.
    Asleep,
    /// It was asked to wake up, and did not.
    Waking(ProcedureFault),
    /// It could not be put to sleep.
    Sleeping(ProcedureFault),
    /// It could not be provisioned.
    Provisioning(ProcedureFault),
    /// Its lanes did not come up.
    Activating(ProcedureFault),
    /// It could not be looked at.
    Unseen,
    /// It is no longer as it was wanted, or did not come up so; or it was woken up, and its global controls ask for low power again,
    /// as after a reset.
    Changed,
    /// An apply was refused, which the module may have taken all the same: before it is stored again, the module is read.
    ApplyRefused,
    /// It could not be asked to wake up, since its global controls were not read, or not stored.
    WakingRefused,
}

/// What a reply leads to, beside what it makes of the job.
#[derive(Clone, Copy)]
pub enum Course {
    /// The job goes on.
    On,
    /// The operation was in vain: the job goes on after so many milliseconds.
    Paused(u32),
    /// Another job begins in its place.
    Next(Beginning, Note),
    /// What was begun has failed.
    Failed(PortFault),
    /// The module is left alone.
    Left(LeftBecause),
}

impl Job {
    /// Takes the reply to the operation that was to be made. An apply that is refused is stored again if one was refused before; else the
    /// job fails by it. It is worked at in its place, since a reading takes much of a stack.
    pub fn turn(&mut self, reply: &Reply, wanted: &Wanted, apply_refused: bool) -> Course
        requires { IsReplyTo (asked self.old) reply.now }
        ensures { IsTurn apply_refused wanted.now self.old reply.now (turn_by self.new result) }
    {
        if !apply_refused && is_refused_apply(&self.op(), reply) {
            Course::Failed(PortFault::ApplyRefused)
        } else {
            self.turn_on(reply, wanted)
        }
    }

    fn turn_on(&mut self, reply: &Reply, wanted: &Wanted) -> Course
        requires { IsReplyTo (asked self.old) reply.now }
        ensures { IsTurnOf wanted.now self.old reply.now (turn_by self.new result) }
    {
        match self {
            Job::Reading(reading, woken) => reading_turn(reading, *woken, reply, wanted),
            Job::Waking(change) => waking_turn(change, reply),
            Job::Sleeping(change) => sleeping_turn(change, reply),
            Job::Provisioning(procedure, goal) => provisioning_turn(procedure, *goal, reply),
            Job::Activating(procedure, goal) => activating_turn(procedure, *goal, reply),
            Job::Confirming(look) => confirming_turn(look, reply),
            Job::Watching(look) => watching_turn(look, reply),
        }
    }
}

fn is_refused_apply(asked: &Option<Op>, reply: &Reply) -> bool
    ensures { result ≡ is_refused_apply asked.now reply.now }
{
    match (asked, reply) {
        (Some(op), Reply::Refused) => is_apply(op),
        (_, _) => false,
    }
}

fn going(pause: Option<u32>) -> Course
    ensures { (job : Job) → turn_by job result ≡ going pause job }
{
    match pause {
        Some(time) => Course::Paused(time),
        None => Course::On,
    }
}

fn reading_turn(reading: &mut ReadingJob, woken: bool, reply: &Reply, wanted: &Wanted) -> Course
    requires { conversations.IsReplyTo (reading_wants reading.old) reply.now }
    ensures { IsTurnOf wanted.now (jobs.Reading reading.old woken) reply.now (turn_by (jobs.Reading reading.new woken) result) }
{
    let pause = advance(reading, reply);
    match reading.next() {
        Next::Do(_op) => going(pause),
        Next::Wait(_time) => going(pause),
        Next::End(spent) => {
            let image = reading.conversation.conversation.conversation.image.view();
            read(&image, woken, wanted, spent.end)
        }
    }
}

fn read(image: &Image, woken: bool, wanted: &Wanted, end: Option<Timed<()>>) -> Course
    ensures { (job : Job) → IsRead wanted.now woken image.now end (turn_by job result) }
{
    match end {
        Some(Timed::InTime(())) => {
            let is_requested = is_low_power_requested(image);
            decided(
                decide(image, wanted),
                woken,
                is_requested,
                patience_for(image),
            )
        }
        Some(Timed::Overdue) => Course::Failed(PortFault::Unread),
        None => Course::Failed(PortFault::Unread),
    }
}

// Software asks for low power, or the pin may.
fn is_low_power_requested(image: &Image) -> bool
    ensures { result ≡ spec.is_low_power_requested image.now }
{
    number(image, field!(Cmis LowPwrAllowHW)) == 1
        || number(image, field!(Cmis LowPwrRequestSW)) == 1
}

// What a decision leads to. A module that was woken up before is not woken up again at once.
fn decided(decision: Decision, woken: bool, is_requested: bool, patience: Patience) -> Course
    ensures { (job : Job) → turn_by job result ≡ decided woken is_requested patience decision }
{
    match decision {
        Decision::Leave(reason) => Course::Left(reason),
        Decision::Wake if woken => Course::Failed(unready(is_requested)),
        Decision::Wake => Course::Next(Beginning::Waking(patience), Note::Identified),
        Decision::Sleep => Course::Next(Beginning::Sleeping(patience), Note::Identified),
        Decision::Hold(goal) => Course::Next(Beginning::Watching(goal, patience), Note::CameUp),
        Decision::Activate(goal) => {
            Course::Next(Beginning::Activating(goal, patience), Note::Identified)
        }
        Decision::Provision(goal) => {
            Course::Next(Beginning::Provisioning(goal, patience), Note::Identified)
        }
    }
}

// Why a module that was woken up isn't ready: it has changed if low power is requested anew, as after a reset.
fn unready(is_requested: bool) -> PortFault
    ensures { result ≡ spec.unready is_requested }
{
    if is_requested {
        PortFault::Changed
    } else {
        PortFault::Asleep
    }
}

// The fault in which a procedure ended, if it did.
fn fault_in(end: Option<Timed<Option<ProvisionFault>>>) -> Option<ProcedureFault>
    ensures { result ≡ spec.fault_in end }
{
    match end {
        Some(Timed::InTime(None)) => None,
        Some(Timed::InTime(Some(fault))) => Some(ProcedureFault::Failed(fault)),
        Some(Timed::Overdue) => Some(ProcedureFault::Overdue),
        None => Some(ProcedureFault::Failed(ProvisionFault::GaveUp)),
    }
}

fn waking_turn(change: &mut PatientPower, reply: &Reply) -> Course
    requires { conversations.IsReplyTo (waking_wants change.old) reply.now }
    ensures { spec.IsWakingTurn change.old reply.now (turn_by (jobs.Waking change.new) result) }
{
    let pause = advance(change, reply);
    match change.next() {
        Next::Do(_op) => going(pause),
        Next::Wait(_time) => going(pause),
        Next::End(spent) => {
            let stage = change.conversation.conversation.stage;
            woken_up(stage, fault_in(spent.end))
        }
    }
}

fn woken_up(stage: PowerStage, fault: Option<ProcedureFault>) -> Course
    ensures { (job : Job) → turn_by job result ≡ woken_up stage fault }
{
    match fault {
        None => Course::Next(Beginning::Reading(true), Note::Woken),
        Some(fault) => Course::Failed(waking_fault(stage, fault)),
    }
}

// Why waking has failed that came so far.
fn waking_fault(stage: PowerStage, fault: ProcedureFault) -> PortFault
    ensures { result ≡ spec.waking_fault stage fault }
{
    match stage {
        PowerStage::Unread | PowerStage::Found(_) => PortFault::WakingRefused,
        PowerStage::Stored | PowerStage::Met => PortFault::Waking(fault),
    }
}

fn sleeping_turn(change: &mut PatientPower, reply: &Reply) -> Course
    requires { conversations.IsReplyTo (waking_wants change.old) reply.now }
    ensures { spec.IsSleepingTurn change.old reply.now (turn_by (jobs.Sleeping change.new) result) }
{
    let pause = advance(change, reply);
    match change.next() {
        Next::Do(_op) => going(pause),
        Next::Wait(_time) => going(pause),
        Next::End(spent) => slept(fault_in(spent.end)),
    }
}

fn slept(fault: Option<ProcedureFault>) -> Course
    ensures { (job : Job) → turn_by job result ≡ slept fault }
{
    match fault {
        None => Course::Left(LeftBecause::Asleep),
        Some(fault) => Course::Failed(PortFault::Sleeping(fault)),
    }
}

fn provisioning_turn(procedure: &mut PatientProcedure, goal: Goal, reply: &Reply) -> Course
    requires { conversations.IsReplyTo (procedure_wants procedure.old) reply.now }
    ensures { spec.IsProvisioningTurn procedure.old goal reply.now (turn_by (jobs.Provisioning procedure.new goal) result) }
{
    let pause = advance(procedure, reply);
    match procedure.next() {
        Next::Do(_op) => going(pause),
        Next::Wait(_time) => going(pause),
        Next::End(spent) => {
            provisioned(goal, procedure.conversation.patience, fault_in(spent.end))
        }
    }
}

fn provisioned(goal: Goal, patience: Patience, fault: Option<ProcedureFault>) -> Course
    ensures { (job : Job) → turn_by job result ≡ provisioned goal patience fault }
{
    match fault {
        None => Course::Next(Beginning::Activating(goal, patience), Note::Provisioned),
        Some(fault) => Course::Failed(PortFault::Provisioning(fault)),
    }
}

fn activating_turn(procedure: &mut PatientProcedure, goal: Goal, reply: &Reply) -> Course
    requires { conversations.IsReplyTo (procedure_wants procedure.old) reply.now }
    ensures { spec.IsActivatingTurn procedure.old goal reply.now (turn_by (jobs.Activating procedure.new goal) result) }
{
    let pause = advance(procedure, reply);
    match procedure.next() {
        Next::Do(_op) => going(pause),
        Next::Wait(_time) => going(pause),
        Next::End(spent) => {
            activated(goal, procedure.conversation.patience, fault_in(spent.end))
        }
    }
}

// The module is looked at before it is said that it came up.
fn activated(goal: Goal, patience: Patience, fault: Option<ProcedureFault>) -> Course
    ensures { (job : Job) → turn_by job result ≡ activated goal patience fault }
{
    match fault {
        None => Course::Next(Beginning::Confirming(goal, patience), Note::Quiet),
        Some(fault) => Course::Failed(PortFault::Activating(fault)),
    }
}

fn confirming_turn(look: &mut WatchingJob, reply: &Reply) -> Course
    requires { conversations.IsReplyTo (look_wants look.old) reply.now }
    ensures { spec.IsConfirmingTurn look.old reply.now (turn_by (jobs.Confirming look.new) result) }
{
    let pause = advance(look, reply);
    match look.next() {
        Next::Do(_op) => going(pause),
        Next::Wait(_time) => going(pause),
        Next::End(spent) => {
            let goal = look.conversation.conversation.conversation.goal;
            seen(goal, look.conversation.patience, Note::CameUp, spent.end)
        }
    }
}

fn watching_turn(look: &mut WatchingJob, reply: &Reply) -> Course
    requires { conversations.IsReplyTo (look_wants look.old) reply.now }
    ensures { spec.IsWatchingTurn look.old reply.now (turn_by (jobs.Watching look.new) result) }
{
    let pause = advance(look, reply);
    match look.next() {
        Next::Do(_op) => going(pause),
        Next::Wait(_time) => going(pause),
        Next::End(spent) => {
            let goal = look.conversation.conversation.conversation.goal;
            seen(goal, look.conversation.patience, Note::Held, spent.end)
        }
    }
}

// What a look leads to: what is said of a module that it has found as wanted.
fn seen(goal: Goal, patience: Patience, note: Note, end: Option<Timed<bool>>) -> Course
    ensures { (job : Job) → turn_by job result ≡ seen goal patience note end }
{
    match end {
        Some(Timed::InTime(true)) => Course::Next(Beginning::Watching(goal, patience), note),
        Some(Timed::InTime(false)) => Course::Failed(PortFault::Changed),
        Some(Timed::Overdue) => Course::Failed(PortFault::Unseen),
        None => Course::Failed(PortFault::Unseen),
    }
}
