ghost use Rattle.std.specs.Prelude.{◌≡◌, Some, length};
ghost use Rattle.conversations.specs.Events.{Events};
ghost use Rattle.control_sets.specs.OutcomeAnswers.{most_steps};
ghost use Rattle.control_sets.specs.Progress.{ToldPatient, tasks_of};
ghost use Rattle.control_sets.specs.SavedNumbers as spec;
ghost use Rattle.control_sets.specs.SavedNumbers.{can_stand, due_numbered, is_found, page_read_back, restored, saved_fault, selected_numbered, work_numbered};

use super::{MAX_STEPS, PatientProcedure, TaskList, Work};
use crate::control_set::ControlSet;
use crate::fault::ProvisionFault;
use crate::procedures::saved_fault::SavedFault;
use conversations::{OnPage, Patience, Pausing, Within};
use field_tables::LaneSet;
use paged_memory::KnownPage;

/// A procedure on a real bus as plain numbers, for a caller that keeps it in memory of another language.
#[repr(C)]
#[derive(Clone, Copy, Debug, PartialEq, Eq)]
pub struct SavedProcedure {
    /// How many tasks were met.
    pub met: usize,
    /// How many steps were told.
    pub steps: u16,
    /// 1 for provisioning, 2 for activation.
    pub work: u8,
    /// Bit i-1 is 1 for lane i.
    pub lanes: u8,
    /// The control bytes of host lanes 1 to 8.
    pub control: ControlSet,
    /// Of the page selection: 0 if nothing is known, 1 if it was stored to, 2 if a page was read back.
    pub selection: u8,
    /// The number of the page that was read back, or 0.
    pub page: u16,
    pub fault: SavedFault,
    /// 1 if a pause comes before the next operation, else 0.
    pub due: u8,
    /// For how many milliseconds it paused since something was done.
    pub idle: u32,
    /// How many a pause has.
    pub pause: u32,
    /// For how many it pauses while nothing is done.
    pub limit: u32,
}

impl SavedProcedure {
    fn work(&self) -> Option<Work>
        ensures { result ≡ work_numbered self.now.work self.now.control self.now.lanes }
    {
        let (control, lanes) = (self.control, LaneSet::from(self.lanes));
        match self.work {
            1 => Some(Work::Provisioning { control, lanes }),
            2 => Some(Work::Activation { control, lanes }),
            _ => None,
        }
    }

    /// What is known of the page selection; `None` if the numbers don't say.
    pub fn selected(&self) -> Option<KnownPage>
        ensures { result ≡ selected_numbered self.now.selection self.now.page }
    {
        match (self.selection, self.page) {
            (0, 0) => Some(KnownPage::Unknown),
            (1, 0) => Some(KnownPage::Open),
            (2, page) => Some(KnownPage::Page(page)),
            _ => None,
        }
    }

    pub fn patience(&self) -> Patience
        ensures { result ≡ record { pause = self.now.pause; limit = self.now.limit } }
    {
        Patience {
            pause: self.pause,
            limit: self.limit,
        }
    }

    pub fn is_due(&self) -> Option<bool>
        ensures { result ≡ due_numbered self.now.due }
    {
        match self.due {
            0 => Some(false),
            1 => Some(true),
            _ => None,
        }
    }
}

impl TaskList {
    /// The numbers of a procedure on a real bus, which give it again, with whether it doubts.
    pub fn save(procedure: &PatientProcedure) -> SavedProcedure
        ensures same { (events : Events) → ToldPatient events procedure.now → procedure.now.limit ≡ most_steps →
            restored result procedure.now.conversation.conversation.doubts ≡ Some procedure.now }
        ensures page { result.page ≡ page_read_back procedure.now.conversation.conversation.selection }
        ensures fault { result.fault ≡ saved_fault procedure.now.conversation.conversation.conversation.fault }
    {
        let pausing = &procedure.conversation;
        let list = pausing.conversation.conversation;
        let (work, control, lanes) = numbers_of_work(&list.work);
        let (selection, page) = numbers_of_selected(pausing.conversation.selection);
        SavedProcedure {
            met: list.met,
            steps: procedure.steps,
            work,
            lanes,
            control,
            selection,
            page,
            fault: SavedFault::of(list.fault),
            due: number_of_due(pausing.due),
            idle: pausing.idle,
            pause: pausing.patience.pause,
            limit: pausing.patience.limit,
        }
    }

    /// The procedure that has these numbers, if one has, and doubts or doesn't.
    #[tactic(auto, unfolding(crate::specs::SavedNumbers::restored))]
    pub fn restore(saved: &SavedProcedure, doubts: bool) -> Option<PatientProcedure>
        ensures { result ≡ restored saved.now doubts }
    {
        let list = TaskList {
            work: saved.work()?,
            met: saved.met,
            fault: saved.fault.fault()?,
        };
        let selection = saved.selected()?;
        let due = saved.is_due()?;
        if saved.steps > MAX_STEPS || !list.can_stand() {
            return None;
        }
        let pausing = Pausing {
            conversation: OnPage {
                conversation: list,
                selection,
                taken: None,
                doubts,
            },
            patience: saved.patience(),
            due,
            idle: saved.idle,
        };
        Some(Within {
            conversation: pausing,
            steps: saved.steps,
            limit: MAX_STEPS,
        })
    }

    // A list of tasks can have come so far.
    fn can_stand(&self) -> bool
        ensures { result ≡ can_stand (tasks_of self.now.work) self.now.met self.now.fault }
    {
        match self.fault {
            None => self.met <= self.work.tasks(),
            Some(fault) => self.met < self.work.tasks() && is_found(fault),
        }
    }
}

impl Work {
    fn tasks(&self) -> usize
        ensures { result ≡ length (tasks_of self.now) }
    {
        match self {
            Work::Provisioning { .. } => 8,
            Work::Activation { .. } => 4,
        }
    }
}

// Whether it is one that a reply shows.
fn is_found(fault: ProvisionFault) -> bool
    ensures { result ≡ is_found fault }
{
    !matches!(fault, ProvisionFault::GaveUp | ProvisionFault::Bus(_))
}

fn numbers_of_work(work: &Work) -> (u8, ControlSet, u8)
    ensures { work_numbered result.0 result.1 result.2 ≡ Some work.now }
{
    match work {
        Work::Provisioning { control, lanes } => (1, *control, lanes.byte()),
        Work::Activation { control, lanes } => (2, *control, lanes.byte()),
    }
}

pub fn number_of_due(due: bool) -> u8
    ensures { result ≡ spec.number_of_due due }
{
    if due { 1 } else { 0 }
}

/// How what is known of the page selection is saved, and the page.
pub fn numbers_of_selected(selected: KnownPage) -> (u8, u16)
    ensures same { selected_numbered result.0 result.1 ≡ Some selected }
    ensures page { result.1 ≡ page_read_back selected }
{
    match selected {
        KnownPage::Unknown => (0, 0),
        KnownPage::Open => (1, 0),
        KnownPage::Page(page) => (2, page),
    }
}
