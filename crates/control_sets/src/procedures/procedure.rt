ghost use Rattle.std.specs.Prelude.{◌≡◌, slice_get};
ghost use Rattle.control_sets.specs.Tasks.{provisioning, activation};

mod saved;

use crate::control_set::ControlSet;
use crate::fault::ProvisionFault;
use crate::procedures::judgement::ReplyJudgement;
use crate::procedures::task::Task;
use bus_model::Reply;
use conversations::{Conversation, NeedsPages, Next, OnPage, Patience, Pausing, Watching, Within};
use field_tables::LaneSet;
use paged_memory::{KnownPage, PageAddressing};
pub use saved::{SavedProcedure, number_of_due, numbers_of_selected};

/// How many steps a procedure makes at most.
pub const MAX_STEPS: u16 = 4096;

/// What a procedure brings about.
#[derive(Clone, Copy, Debug, PartialEq, Eq)]
pub enum Work {
    /// The control bytes become active. The data paths of the lanes are taken down first, and the bytes are applied to them;
    /// statuses of other lanes aren't looked at.
    Provisioning { control: ControlSet, lanes: LaneSet },
    /// If the control bytes are active, the data paths of the lanes come up, and those of other lanes are taken down.
    Activation { control: ControlSet, lanes: LaneSet },
}

impl Work {
    ghost use Rattle.control_sets.specs.Progress.{tasks_of};

    fn task(&self, index: usize) -> Option<Task>
        ensures { result ≡ slice_get (tasks_of self.now) index }
    {
        match self {
            Work::Provisioning { control, lanes } => {
                provisioning(*control, *lanes).get(index).copied()
            }
            Work::Activation { control, lanes } => activation(*control, *lanes).get(index).copied(),
        }
    }
}

fn provisioning(control: ControlSet, lanes: LaneSet) -> [Task; 8]
    ensures { result ≡ provisioning control lanes }
{
    [
        Task::FindReady,
        Task::Deinitialize(lanes.byte()),
        Task::AwaitDeactivated(lanes),
        Task::Stage(control),
        Task::CheckStaged(control),
        Task::Apply(lanes.byte()),
        Task::AwaitApplied(lanes),
        Task::CheckActive(control),
    ]
}

fn activation(control: ControlSet, lanes: LaneSet) -> [Task; 4]
    ensures { result ≡ activation control lanes }
{
    [
        Task::FindReady,
        Task::CheckActive(control),
        Task::Deinitialize(0xff - lanes.byte()),
        Task::AwaitActivated(lanes),
    ]
}

/// The tasks of a work, in order: a conversation that ends without a fault, or in one.
#[derive(Clone, Copy, Debug, PartialEq, Eq, Drop)]
pub struct TaskList {
    work: Work,
    met: usize,
    fault: Option<ProvisionFault>,
}

/// A procedure without a bus: tasks on confirmed pages, within as many steps as may be made.
pub type Procedure = Within<OnPage<TaskList>>;

/// The same for a real bus: it pauses, ends if it does that for too long, and doubts the selection of a page after a refusal.
pub type PatientProcedure = Within<Pausing<OnPage<TaskList>>>;

/// The same, which also looks after each wait whether the module is still in ModuleReady.
pub type WatchfulProcedure = Watching<PatientProcedure>;

impl TaskList {
    ghost use Rattle.std.specs.Prelude.{None, false};
    ghost use Rattle.conversations.specs.Wanted.{IsReplyTo};
    ghost use Rattle.paged_memory.specs.declared.page_addressing.KnownPage.TheVariants.{Unknown};
    ghost use Rattle.control_sets.specs.Progress.{after_reply, hand, list_at, on_page_of, patient_of, procedure_of, wants};
    ghost use Rattle.control_sets.specs.PatientProcedures.{watchful_of};

    /// Brings the work about, within as many steps as a procedure may make.
    pub fn of(work: Work) -> Procedure
        ensures { result ≡ procedure_of (list_at work (0, None)) Unknown 0 }
    {
        Within::new(TaskList::begun(work, false), MAX_STEPS)
    }

    /// Brings the work about on a real bus, within as many steps and with so much patience.
    pub fn patient(work: Work, patience: Patience) -> PatientProcedure
        ensures { result ≡ patient_of (list_at work (0, None)) Unknown patience false 0 0 }
    {
        let pausing = Pausing::new(TaskList::begun(work, true), patience);
        Within::new(pausing, MAX_STEPS)
    }

    /// The same, which looks at the module's state after each wait.
    pub fn watchful(work: Work, patience: Patience) -> WatchfulProcedure
        ensures { result ≡ watchful_of (patient_of (list_at work (0, None)) Unknown patience false 0 0) }
    {
        Watching::new(TaskList::patient(work, patience), true)
    }

    fn begun(work: Work, doubts: bool) -> OnPage<TaskList>
        ensures { result ≡ on_page_of (list_at work (0, None)) Unknown doubts }
    {
        let list = TaskList {
            work,
            met: 0,
            fault: None,
        };
        OnPage {
            conversation: list,
            selection: KnownPage::Unknown,
            taken: None,
            doubts,
        }
    }

    // The task in hand, if there is one.
    fn task(&self) -> Option<Task>
        ensures { result ≡ hand self.now }
    {
        match self.fault {
            Some(_) => None,
            None => self.work.task(self.met),
        }
    }

    fn told(&mut self, reply: &Reply)
        requires { IsReplyTo (wants self.old) reply.now }
        ensures { self.new ≡ after_reply self.old reply.now }
    {
        if let Some(task) = self.task() {
            match task.judge(reply) {
                ReplyJudgement::Met => self.met += 1,
                ReplyJudgement::NotYet => {}
                ReplyJudgement::Fails(fault) => self.fault = Some(fault),
            }
        }
    }
}

impl Conversation for TaskList {
    ghost use Rattle.conversations.specs.Events.{steps_of};
    ghost use Rattle.control_sets.specs.Progress.{EndsList, GoesOnList, IsTold, after_reply, tasks_of, wants};

    type Topic = Work;

    type End = Option<ProvisionFault>;

    ghost topic = { λ list. list.work };

    ghost wants = { wants };

    ghost after = { after_reply };

    ghost told = { λ events list. IsTold (steps_of events) list };

    ghost ends = { λ work events fault. EndsList (tasks_of work) (steps_of events) fault };

    ghost goes_on = { λ work events. GoesOnList (tasks_of work) (steps_of events) };

    fn next(&self) -> Next<Option<ProvisionFault>> {
        match self.task() {
            Some(task) => Next::Do(task.op()),
            None => Next::End(self.fault),
        }
    }

    fn take(&mut self, reply: &Reply) {
        self.told(reply);
    }

    fn waited(&mut self) {}

    fn asked(&mut self, _number: u32) {}
}

impl NeedsPages for TaskList {
    ghost use Rattle.std.specs.Prelude.{Some, false};
    ghost use Rattle.conversations.specs.Events.{steps_of};
    ghost use Rattle.paged_memory.specs.declared.page_addressing.PageAddressing.TheVariants.{BankAndPage};
    ghost use Rattle.control_sets.specs.Progress.{hand, needed_after, page_by, tasks_of};

    ghost page = { λ list. page_by (hand list) };

    ghost needs = { λ work events. needed_after (tasks_of work) (steps_of events) };

    ghost addressing = { λ list. Some BankAndPage };

    ghost addressed = { λ work events. Some BankAndPage };

    ghost may_lack = { λ work. false };

    ghost lacking = { λ list number. list };

    fn page(&self) -> Option<u16> {
        match self.task() {
            Some(task) => task.page(),
            None => None,
        }
    }

    fn addressing(&self) -> Option<PageAddressing> {
        Some(PageAddressing::BankAndPage)
    }

    fn may_lack(&self) -> bool {
        false
    }

    fn lacks(&mut self, _number: u16) {}
}
