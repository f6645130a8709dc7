ghost use Rattle.std.specs.Prelude.{◌≡◌, ◌&&◌, ℕ, Bool, IsTrue, List, None, Some, nat_le};
ghost use Rattle.control_sets.specs.OutcomeAnswers.{most_steps};
ghost use Rattle.control_sets.specs.SavedNumbers.{restored, work_numbered};
ghost use Rattle.control_sets.specs.SavedPower as spec;
ghost use Rattle.control_sets.specs.PowerProgress.{ToldPower};
ghost use Rattle.control_sets.specs.SavedPower.{can_stop, has_no_more, power_numbered, restored_power, saved_power, stage_numbered};
ghost use Rattle.conversations.specs.Events.{Events};

use super::{PatientPower, Power, PowerChange, PowerStage};
use crate::fault::ProvisionFault;
use crate::procedures::procedure::{MAX_STEPS, SavedProcedure, number_of_due};
use crate::procedures::saved_fault::SavedFault;
use conversations::{Pausing, Within};

impl PowerChange {
    /// The numbers of a change of power on a real bus, which are those of no procedure, and give it again.
    pub fn save(within: &PatientPower) -> SavedProcedure
        ensures exact { result ≡ saved_power within.now }
        ensures numbers { IsTrue (nat_le within.now.steps most_steps && can_stop within.now.conversation.conversation.fault) →
            within.now.limit ≡ most_steps → restored_power result ≡ Some within.now }
        ensures same { (events : Events) → ToldPower events within.now → within.now.limit ≡ most_steps → restored_power result ≡ Some within.now }
        ensures apart { (doubts : Bool) → restored result doubts ≡ None }
    {
        let pausing = &within.conversation;
        let change = pausing.conversation;
        let (met, found) = numbers_of_stage(change.stage);
        SavedProcedure {
            met,
            steps: within.steps,
            work: number_of_power(change.power),
            lanes: 0,
            control: [found, 0, 0, 0, 0, 0, 0, 0],
            selection: 0,
            page: 0,
            fault: SavedFault::of(change.fault),
            due: number_of_due(pausing.due),
            idle: pausing.idle,
            pause: pausing.patience.pause,
            limit: pausing.patience.limit,
        }
    }

    /// The change of power that has these numbers, if one has.
    #[tactic(auto, unfolding(crate::specs::SavedPower::restored_power))]
    pub fn restore(saved: &SavedProcedure) -> Option<PatientPower>
        ensures { result ≡ restored_power saved.now }
    {
        let change = PowerChange {
            power: power_numbered(saved.work)?,
            stage: stage_numbered(saved.met, saved.control[0])?,
            fault: saved.fault.fault()?,
        };
        let due = saved.is_due()?;
        if saved.steps > MAX_STEPS || !can_stop(change.fault) || !has_no_more(saved) {
            return None;
        }
        let pausing = Pausing {
            conversation: change,
            patience: saved.patience(),
            due,
            idle: saved.idle,
        };
        Some(Within {
            conversation: pausing,
            steps: saved.steps,
            limit: MAX_STEPS,
        })
    }
}

// Whether it is a fault of the module's state, or none.
fn can_stop(fault: Option<ProvisionFault>) -> bool
    ensures { result ≡ can_stop fault }
{
    matches!(
        fault,
        None | Some(ProvisionFault::ModuleState(_) | ProvisionFault::Reserved(_))
    )
}

// The numbers that a change of power doesn't have are 0.
fn has_no_more(saved: &SavedProcedure) -> bool
    ensures { result ≡ has_no_more saved.now }
{
    let control = &saved.control;
    saved.lanes == 0
        && (saved.selection == 0 && saved.page == 0)
        && (control[1] == 0 && control[2] == 0 && control[3] == 0 && control[4] == 0)
        && (control[5] == 0 && control[6] == 0 && control[7] == 0)
}

fn number_of_power(power: Power) -> u8
    ensures value { result ≡ spec.number_of_power power }
    ensures same { power_numbered result ≡ Some power }
    ensures apart { (control : List ℕ) (lanes : ℕ) → work_numbered result control lanes ≡ None }
{
    match power {
        Power::Awake => 3,
        Power::Asleep => 4,
    }
}

fn power_numbered(number: u8) -> Option<Power>
    ensures { result ≡ power_numbered number }
{
    match number {
        3 => Some(Power::Awake),
        4 => Some(Power::Asleep),
        _ => None,
    }
}

fn numbers_of_stage(stage: PowerStage) -> (usize, u8)
    ensures value { result ≡ spec.numbers_of_stage stage }
    ensures same { stage_numbered result.0 result.1 ≡ Some stage }
{
    match stage {
        PowerStage::Unread => (0, 0),
        PowerStage::Found(byte) => (1, byte),
        PowerStage::Stored => (2, 0),
        PowerStage::Met => (3, 0),
    }
}

fn stage_numbered(met: usize, found: u8) -> Option<PowerStage>
    ensures { result ≡ stage_numbered met found }
{
    match (met, found) {
        (0, 0) => Some(PowerStage::Unread),
        (1, byte) => Some(PowerStage::Found(byte)),
        (2, 0) => Some(PowerStage::Stored),
        (3, 0) => Some(PowerStage::Met),
        _ => None,
    }
}
