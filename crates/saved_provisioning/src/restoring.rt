// From numbers to provisioning with settings.
ghost use Rattle.std.specs.Prelude.{◌≡◌};
ghost use Rattle.saved_provisioning.specs.SavedProvisioning.{provisioning_in};
ghost use Rattle.saved_provisioning.specs.SavedProvisioning as spec;

use crate::numbers::{SavedExplicit, SavedExplicitFault, SavedStage};
use control_sets::{PatientProcedure, TaskList};
use conversations::{Look, OnPage, Pausing, Watching, Within};
use explicit_provisioning::{
    ComparingSettings, ComparingStage, ExplicitFault, ExplicitTasks, StagingSettings, StagingStage,
    Then, WatchfulTasks,
};
use field_tables::LaneSet;
use lane_controls::{SETTINGS, SettingsChange, SettingsPiece};

/// What stands in each under way, so that other memory is not taken for one: `DCE1`.
pub const PROVISIONING: u32 = 0x4443_4531;

/// What is under way by these numbers, if they are such.
#[tactic(auto, unfolding(crate::specs::SavedProvisioning::provisioning_in))]
pub fn restore(saved: &SavedExplicit) -> Option<WatchfulTasks>
    ensures { result ≡ provisioning_in saved.now }
{
    if saved.magic != PROVISIONING {
        return None;
    }
    let tasks = TaskList::restore(&saved.procedure, true)?;
    let first = staging_in(&saved.staging, saved.mixed)?;
    let last = comparing_in(&saved.comparing)?;
    let look = look_in(saved.look, saved.left)?;
    Some(with_stages(saved, &tasks, first, last, look))
}

fn with_stages(
    saved: &SavedExplicit,
    tasks: &PatientProcedure,
    first: StagingStage,
    last: ComparingStage,
    look: Look,
) -> WatchfulTasks
    ensures { result ≡ spec.with_stages saved.now tasks.now first last look }
{
    let pausing = &tasks.conversation;
    let on_page = &pausing.conversation;
    let conversation = OnPage {
        conversation: explicit_tasks(saved, on_page.conversation, first, last),
        selection: on_page.selection,
        taken: on_page.taken,
        doubts: on_page.doubts,
    };
    let conversation = Within {
        conversation: Pausing {
            conversation,
            patience: pausing.patience,
            due: pausing.due,
            idle: pausing.idle,
        },
        steps: tasks.steps,
        limit: tasks.limit,
    };
    Watching {
        conversation,
        watches: true,
        look,
    }
}

fn explicit_tasks(
    saved: &SavedExplicit,
    list: TaskList,
    first: StagingStage,
    last: ComparingStage,
) -> ExplicitTasks
    ensures { result ≡ record {
      first = record { change = spec.change_in saved.now; stage = first };
      second = record { first = list; second = record { change = spec.change_in saved.now; stage = last } };
    } }
{
    let second = Then {
        first: list,
        second: ComparingSettings {
            change: change_in(saved),
            stage: last,
        },
    };
    Then {
        first: StagingSettings {
            change: change_in(saved),
            stage: first,
        },
        second,
    }
}

fn change_in(saved: &SavedExplicit) -> SettingsChange
    ensures { result ≡ spec.change_in saved.now }
{
    SettingsChange {
        lanes: LaneSet::from(saved.lanes),
        settings: saved.settings,
        tries: saved.tries,
    }
}

fn staging_in(saved: &SavedStage, settings: [u8; SETTINGS]) -> Option<StagingStage>
    ensures { result ≡ spec.staging_in saved.now settings }
{
    let left = saved.left;
    match saved.stage {
        0 => Some(StagingStage::Finding),
        1 => Some(StagingStage::Reading),
        2 => Some(StagingStage::Storing(SettingsPiece::First, settings, left)),
        3 => Some(StagingStage::Storing(SettingsPiece::Second, settings, left)),
        4 => Some(StagingStage::Storing(SettingsPiece::Third, settings, left)),
        5 => Some(StagingStage::Stored(settings, left)),
        6 => Some(StagingStage::Ended(fault_in(&saved.fault)?)),
        _ => None,
    }
}

fn comparing_in(saved: &SavedStage) -> Option<ComparingStage>
    ensures { result ≡ spec.comparing_in saved.now }
{
    match saved.stage {
        0 => Some(ComparingStage::Reading(saved.left)),
        1 => Some(ComparingStage::Ended(fault_in(&saved.fault)?)),
        _ => None,
    }
}

fn fault_in(saved: &SavedExplicitFault) -> Option<Option<ExplicitFault>>
    ensures { result ≡ spec.explicit_fault_in saved.now }
{
    match saved.kind {
        0 => Some(None),
        1 => Some(Some(ExplicitFault::Provision(saved.provision.fault()??))),
        2 => Some(Some(ExplicitFault::NotStaged)),
        3 => Some(Some(ExplicitFault::NotActive(saved.lane))),
        _ => None,
    }
}

fn look_in(number: u8, code: u8) -> Option<Look>
    ensures { result ≡ spec.look_in number code }
{
    match number {
        0 => Some(Look::Seen),
        1 => Some(Look::Due),
        2 => Some(Look::Left(code)),
        _ => None,
    }
}
