// What works at a module: one of seven conversations, of which each may be the next one's reason.
ghost use Rattle.std.specs.Prelude.{◌≡◌, Option, Some, IfSome};
ghost use Rattle.bus_model.specs.Operations.{IsWellShaped};
ghost use Rattle.conversations.specs.Wanted.{IfDo, op_of};
ghost use Rattle.port_manager.specs.Jobs.{asked};
ghost use Rattle.port_manager.specs.Jobs as spec;

use crate::deciding::Goal;
use crate::look::Look;
use bus_model::Op;
use control_sets::{
    MAX_STEPS, PatientPower, PatientProcedure, Power, PowerChange, TaskList, Work, patience_for,
};
use conversations::{Conversation, Next, OnPage, Patience, Pausing, Within};
use module_reading::{Halves, Request};
use paged_memory::{KnownPage, SmallImage};

/// The reading of a module on a real bus.
pub type ReadingJob = Within<Pausing<OnPage<Halves>>>;

/// A look at a module on a real bus.
pub type WatchingJob = Within<Pausing<OnPage<Look>>>;

/// What works at a module.
#[derive(Drop)]
pub enum Job {
    /// The memory is read; whether the module was woken up before.
    Reading(ReadingJob, bool),
    /// The module is woken up.
    Waking(PatientPower),
    /// The module goes to low power.
    Sleeping(PatientPower),
    /// The plan's control bytes become active.
    Provisioning(PatientProcedure, Goal),
    /// The plan's lanes come up.
    Activating(PatientProcedure, Goal),
    /// The plan's lanes came up, and the module is looked at: they may be those of another plan, if it was reset meanwhile.
    Confirming(WatchingJob),
    /// The module is looked at, and has its goal up.
    Watching(WatchingJob),
}

/// How a job begins.
#[derive(Clone, Copy)]
pub enum Beginning {
    /// The memory is read from the beginning; whether the module was woken up before.
    Reading(bool),
    Waking(Patience),
    Sleeping(Patience),
    Provisioning(Goal, Patience),
    Activating(Goal, Patience),
    Confirming(Goal, Patience),
    Watching(Goal, Patience),
}

impl Beginning {
    /// The job that begins so.
    pub fn job(self) -> Job
        ensures { result ≡ spec.begun_by self }
    {
        match self {
            Beginning::Reading(woken) => Job::reading(woken),
            Beginning::Waking(patience) => Job::waking(patience),
            Beginning::Sleeping(patience) => Job::sleeping(patience),
            Beginning::Provisioning(goal, patience) => Job::provisioning(goal, patience),
            Beginning::Activating(goal, patience) => Job::activating(goal, patience),
            Beginning::Confirming(goal, patience) => Job::confirming(goal, patience),
            Beginning::Watching(goal, patience) => Job::watching(goal, patience),
        }
    }
}

impl Job {
    /// The memory is read from the beginning. Nothing is known of how long the module's states last.
    pub fn reading(woken: bool) -> Job
        ensures { result ≡ spec.reading woken }
    {
        let halves = Halves {
            request: Request::everything(),
            image: SmallImage::new(),
            settled: 0,
        };
        let patience = patience_for(&halves.image.view());
        Job::Reading(
            Within::new(Pausing::new(doubting(halves), patience), MAX_STEPS),
            woken,
        )
    }

    pub fn waking(patience: Patience) -> Job
        ensures { result ≡ spec.waking patience }
    {
        Job::Waking(PowerChange::patient(Power::Awake, patience))
    }

    pub fn sleeping(patience: Patience) -> Job
        ensures { result ≡ spec.sleeping patience }
    {
        Job::Sleeping(PowerChange::patient(Power::Asleep, patience))
    }

    pub fn provisioning(goal: Goal, patience: Patience) -> Job
        ensures { result ≡ spec.provisioning goal patience }
    {
        let control = goal.control;
        let work = Work::Provisioning {
            control,
            lanes: goal.outside,
        };
        Job::Provisioning(TaskList::patient(work, patience), goal)
    }

    pub fn activating(goal: Goal, patience: Patience) -> Job
        ensures { result ≡ spec.activating goal patience }
    {
        let control = goal.control;
        let work = Work::Activation {
            control,
            lanes: goal.lanes,
        };
        Job::Activating(TaskList::patient(work, patience), goal)
    }

    pub fn confirming(goal: Goal, patience: Patience) -> Job
        ensures { result ≡ spec.confirming goal patience }
    {
        Job::Confirming(looking(goal, patience))
    }

    pub fn watching(goal: Goal, patience: Patience) -> Job
        ensures { result ≡ spec.watching goal patience }
    {
        Job::Watching(looking(goal, patience))
    }

    /// The operation to be made now.
    pub fn op(&self) -> Option<Op>
        ensures value { result ≡ asked self.now }
        ensures shape { IfSome result IsWellShaped }
    {
        match self {
            Job::Reading(reading, _) => op_of(reading.next()),
            Job::Waking(change) | Job::Sleeping(change) => op_of(change.next()),
            Job::Provisioning(procedure, _) | Job::Activating(procedure, _) => {
                op_of(procedure.next())
            },
            Job::Confirming(look) | Job::Watching(look) => op_of(look.next()),
        }
    }
}

fn looking(goal: Goal, patience: Patience) -> WatchingJob
    ensures { result ≡ spec.looking goal patience }
{
    Within::new(Pausing::new(doubting(Look::at(goal)), patience), MAX_STEPS)
}

// The page selection is unknown, and doubted after each refusal.
fn doubting<C>(conversation: C) -> OnPage<C>
    ensures { result ≡ spec.doubting conversation }
{
    OnPage {
        conversation,
        selection: KnownPage::Unknown,
        taken: None,
        doubts: true,
    }
}

fn op_of<E: Drop>(next: Next<E>) -> Option<Op>
    requires { IfDo next IsWellShaped }
    ensures value { result ≡ op_of next }
    ensures shape { IfSome result IsWellShaped }
{
    match next {
        Next::Do(op) => Some(op),
        Next::Wait(_time) => None,
        Next::End(_end) => None,
    }
}
