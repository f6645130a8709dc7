// The numbers of a change of settings.
ghost use Rattle.std.specs.Prelude.{◌≡◌, Some, true};
ghost use Rattle.lane_controls.specs.declared.settings_change.SettingsStage.TheVariants.{Ended, Storing};
ghost use Rattle.saved_lanes.specs.SavedSettings.{changing_in};
ghost use Rattle.saved_lanes.specs.SavedSettings as spec;

use crate::saving::{number_of, numbers_of_page, numbers_of_taken};
use crate::settings::numbers::SavedSettings;
use crate::settings::restoring::SETTINGS_CHANGE;
use lane_controls::{PatientSettingsProcedure, SettingsEnd, SettingsPiece, SettingsStage};

/// The numbers of a change under way.
pub fn save(procedure: &PatientSettingsProcedure) -> SavedSettings
    ensures { changing_in result ≡ Some procedure.now }
{
    let pausing = &procedure.conversation;
    let on_page = &pausing.conversation;
    let changing = &on_page.conversation;
    let lanes = changing.change.lanes.byte();
    let stage = numbers_of_stage(changing.stage);
    let due = number_of(pausing.due);
    let doubts = number_of(on_page.doubts);
    let page = numbers_of_page(on_page.selection);
    let taken = numbers_of_taken(on_page.taken);
    SavedSettings {
        magic: SETTINGS_CHANGE,
        idle: pausing.idle,
        pause: pausing.patience.pause,
        limit: pausing.patience.limit,
        steps: procedure.steps,
        max_steps: procedure.limit,
        lanes,
        tries: changing.change.tries,
        stage: stage.stage,
        end: stage.end,
        end_lane: stage.lane,
        left: changing.tries,
        due,
        doubts,
        selection: page.0,
        page: page.1,
        taken: taken.0,
        taken_page: taken.1,
        settings: changing.change.settings,
        staged: changing.staged,
        mixed: changing.mixed,
    }
}

// How far a change has come, as numbers.
#[derive(Clone, Copy)]
struct StageNumbers {
    pub stage: u8,
    pub end: u8,
    pub lane: u8,
}

fn numbers_of_stage(stage: SettingsStage) -> StageNumbers
    ensures same { spec.stage_in result.stage result.end result.lane ≡ stage }
    ensures known { spec.is_known result.stage result.end ≡ true }
{
    match stage {
        SettingsStage::States => unended(0),
        SettingsStage::Staged => unended(1),
        SettingsStage::Controls => unended(2),
        SettingsStage::Storing(piece) => storing(piece),
        SettingsStage::Stored => unended(6),
        SettingsStage::Applying => unended(7),
        SettingsStage::Applied => unended(8),
        SettingsStage::Comparing => unended(9),
        SettingsStage::Ended(end) => ended(end),
    }
}

fn unended(stage: u8) -> StageNumbers
    ensures { result ≡ record { stage = stage; end = 0; lane = 0 } }
{
    StageNumbers {
        stage,
        end: 0,
        lane: 0,
    }
}

fn storing(piece: SettingsPiece) -> StageNumbers
    ensures same { spec.stage_in result.stage result.end result.lane ≡ Storing piece }
    ensures known { spec.is_known result.stage result.end ≡ true }
{
    match piece {
        SettingsPiece::First => unended(3),
        SettingsPiece::Second => unended(4),
        SettingsPiece::Third => unended(5),
    }
}

fn ended(end: SettingsEnd) -> StageNumbers
    ensures same { spec.stage_in result.stage result.end result.lane ≡ Ended end }
    ensures known { spec.is_known result.stage result.end ≡ true }
{
    let numbers = numbers_of_end(end);
    StageNumbers {
        stage: 10,
        end: numbers.0,
        lane: numbers.1,
    }
}

/// The number of an end, and the lane that it is at, or 0.
pub fn numbers_of_end(end: SettingsEnd) -> (u8, u8)
    ensures value { result ≡ spec.numbers_of_end end }
    ensures same { spec.end_in result.0 result.1 ≡ end }
    ensures known { spec.is_end result.0 ≡ true }
{
    match end {
        SettingsEnd::Active => (0, 0),
        SettingsEnd::NotUp(lane) => (1, lane),
        SettingsEnd::NotExplicit(lane) => (2, lane),
        SettingsEnd::NotStaged => (3, 0),
        SettingsEnd::Rejected(lane) => (4, lane),
        SettingsEnd::NotActive(lane) => (5, lane),
    }
}
