// The numbers of provisioning with settings.
ghost use Rattle.std.specs.Prelude.{◌≡◌, List, Some, true, ℕ};
ghost use Rattle.control_sets.specs.SavedNumbers.{due_numbered, restored, saved_fault};
ghost use Rattle.explicit_provisioning.specs.declared.staging.StagingStage.TheVariants.{Storing};
ghost use Rattle.saved_provisioning.specs.SavedProvisioning.{provisioning_in};
ghost use Rattle.saved_provisioning.specs.SavedProvisioning as spec;
ghost use Rattle.saved_provisioning.specs.Standings.{IsUsual, StandsFor, list_of, tasks_in};

use crate::numbers::{SavedExplicit, SavedExplicitFault, SavedStage};
use crate::restoring::PROVISIONING;
use control_sets::{ProvisionFault, SavedFault, SavedProcedure, numbers_of_selected};
use conversations::Look;
use explicit_provisioning::{ComparingStage, ExplicitFault, StagingStage, WatchfulTasks};
use lane_controls::{SETTINGS, SettingsPiece};

/// The numbers of what is under way, of which these stand for the tasks.
pub fn save(it: &WatchfulTasks, tasks: SavedProcedure) -> SavedExplicit
    requires usual { IsUsual it.now }
    requires tasks { StandsFor tasks (list_of it.now) }
    ensures { provisioning_in result ≡ Some it.now }
{
    let own = &it.conversation.conversation.conversation.conversation;
    let change = &own.first.change;
    let procedure = save_procedure(it, tasks);
    let (staging, mixed) = numbers_of_staging(own.first.stage);
    let comparing = numbers_of_comparing(own.second.second.stage);
    let look = numbers_of_look(it.look);
    let lanes = change.lanes.byte();
    SavedExplicit {
        magic: PROVISIONING,
        procedure,
        staging,
        comparing,
        look: look.0,
        left: look.1,
        lanes,
        tries: change.tries,
        settings: change.settings,
        mixed,
    }
}

fn save_procedure(it: &WatchfulTasks, tasks: SavedProcedure) -> SavedProcedure
    requires usual { IsUsual it.now }
    requires tasks { StandsFor tasks (list_of it.now) }
    ensures { restored result true ≡ Some (tasks_in it.now) }
{
    let pausing = &it.conversation.conversation;
    let (selection, page) = numbers_of_selected(pausing.conversation.selection);
    let due = number_of(pausing.due);
    let control = tasks.control;
    SavedProcedure {
        met: tasks.met,
        steps: it.conversation.steps,
        work: tasks.work,
        lanes: tasks.lanes,
        control,
        selection,
        page,
        fault: tasks.fault,
        due,
        idle: pausing.idle,
        pause: pausing.patience.pause,
        limit: pausing.patience.limit,
    }
}

fn number_of(due: bool) -> u8
    ensures { due_numbered result ≡ Some due }
{
    if due { 1 } else { 0 }
}

fn numbers_of_staging(stage: StagingStage) -> (SavedStage, [u8; SETTINGS])
    ensures { spec.staging_in result.0 result.1 ≡ Some stage }
{
    match stage {
        StagingStage::Finding => (going(0, 0), [0; SETTINGS]),
        StagingStage::Reading => (going(1, 0), [0; SETTINGS]),
        StagingStage::Storing(piece, settings, left) => (storing(piece, left), settings),
        StagingStage::Stored(settings, left) => (going(5, left), settings),
        StagingStage::Ended(fault) => (ended(6, fault), [0; SETTINGS]),
    }
}

fn storing(piece: SettingsPiece, left: u8) -> SavedStage
    ensures { (settings : List ℕ) → spec.staging_in result settings ≡ Some (Storing piece settings left) }
{
    match piece {
        SettingsPiece::First => going(2, left),
        SettingsPiece::Second => going(3, left),
        SettingsPiece::Third => going(4, left),
    }
}

fn numbers_of_comparing(stage: ComparingStage) -> SavedStage
    ensures { spec.comparing_in result ≡ Some stage }
{
    match stage {
        ComparingStage::Reading(left) => going(0, left),
        ComparingStage::Ended(fault) => ended(1, fault),
    }
}

fn going(stage: u8, left: u8) -> SavedStage
    ensures stage { result.stage ≡ stage }
    ensures left { result.left ≡ left }
{
    SavedStage {
        stage,
        left,
        fault: numbers(0, 0, None),
    }
}

fn ended(stage: u8, fault: Option<ExplicitFault>) -> SavedStage
    ensures stage { result.stage ≡ stage }
    ensures fault { spec.explicit_fault_in result.fault ≡ Some fault }
{
    SavedStage {
        stage,
        left: 0,
        fault: numbers_of_fault(fault),
    }
}

fn numbers_of_fault(fault: Option<ExplicitFault>) -> SavedExplicitFault
    ensures { spec.explicit_fault_in result ≡ Some fault }
{
    match fault {
        None => numbers(0, 0, None),
        Some(fault) => numbers_of(fault),
    }
}

fn numbers_of(fault: ExplicitFault) -> SavedExplicitFault
    ensures { spec.explicit_fault_in result ≡ Some (Some fault) }
{
    match fault {
        ExplicitFault::Provision(fault) => numbers(1, 0, Some(fault)),
        ExplicitFault::NotStaged => numbers(2, 0, None),
        ExplicitFault::NotActive(lane) => numbers(3, lane, None),
    }
}

fn numbers(kind: u8, lane: u8, fault: Option<ProvisionFault>) -> SavedExplicitFault
    ensures { result ≡ record { kind = kind; lane = lane; provision = saved_fault fault } }
{
    SavedExplicitFault {
        kind,
        lane,
        provision: SavedFault::of(fault),
    }
}

fn numbers_of_look(look: Look) -> (u8, u8)
    ensures { spec.look_in result.0 result.1 ≡ Some look }
{
    match look {
        Look::Seen => (0, 0),
        Look::Due => (1, 0),
        Look::Left(code) => (2, code),
    }
}
