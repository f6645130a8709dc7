// From numbers to a change of settings.
ghost use Rattle.std.specs.Prelude.{◌≡◌};
ghost use Rattle.saved_lanes.specs.SavedSettings.{changing_in};
ghost use Rattle.saved_lanes.specs.SavedSettings as spec;

use crate::restoring::{page_in, taken_in};
use crate::settings::numbers::SavedSettings;
use conversations::{OnPage, Patience, Pausing, Within};
use field_tables::LaneSet;
use lane_controls::{
    ChangingSettings, PatientSettingsProcedure, SettingsChange, SettingsEnd, SettingsPiece,
    SettingsStage,
};

/// What stands in each change under way, so that other memory is not taken for one: `DCS1`.
pub const SETTINGS_CHANGE: u32 = 0x4443_5331;

/// The change that has these numbers, if one has.
#[tactic(auto, unfolding(crate::specs::SavedSettings::changing_in))]
pub fn restore(saved: &SavedSettings) -> Option<PatientSettingsProcedure>
    ensures { result ≡ changing_in saved.now }
{
    if is_sound(saved) {
        Some(procedure_in(saved))
    } else {
        None
    }
}

fn is_sound(saved: &SavedSettings) -> bool
    ensures { result ≡ spec.is_sound saved.now }
{
    saved.magic == SETTINGS_CHANGE && is_known(saved.stage, saved.end)
}

fn is_known(stage: u8, end: u8) -> bool
    ensures { result ≡ spec.is_known stage end }
{
    stage <= 10 && end <= 5
}

fn procedure_in(saved: &SavedSettings) -> PatientSettingsProcedure
    ensures { result ≡ spec.procedure_in saved.now }
{
    let conversation = OnPage {
        conversation: settings_in(saved),
        selection: page_in(saved.selection, saved.page),
        taken: taken_in(saved.taken, saved.taken_page),
        doubts: saved.doubts == 1,
    };
    let patience = Patience {
        pause: saved.pause,
        limit: saved.limit,
    };
    Within {
        conversation: Pausing {
            conversation,
            patience,
            due: saved.due == 1,
            idle: saved.idle,
        },
        steps: saved.steps,
        limit: saved.max_steps,
    }
}

fn settings_in(saved: &SavedSettings) -> ChangingSettings
    ensures { result ≡ spec.settings_at saved.now }
{
    let change = SettingsChange {
        lanes: LaneSet::from(saved.lanes),
        settings: saved.settings,
        tries: saved.tries,
    };
    ChangingSettings {
        change,
        stage: stage_in(saved.stage, saved.end, saved.end_lane),
        staged: saved.staged,
        mixed: saved.mixed,
        tries: saved.left,
    }
}

fn stage_in(number: u8, end: u8, lane: u8) -> SettingsStage
    ensures { result ≡ spec.stage_in number end lane }
{
    match number {
        0 => SettingsStage::States,
        1 => SettingsStage::Staged,
        2 => SettingsStage::Controls,
        3 => SettingsStage::Storing(SettingsPiece::First),
        4 => SettingsStage::Storing(SettingsPiece::Second),
        5 => SettingsStage::Storing(SettingsPiece::Third),
        6 => SettingsStage::Stored,
        7 => SettingsStage::Applying,
        8 => SettingsStage::Applied,
        9 => SettingsStage::Comparing,
        _ => SettingsStage::Ended(end_in(end, lane)),
    }
}

fn end_in(number: u8, lane: u8) -> SettingsEnd
    ensures { result ≡ spec.end_in number lane }
{
    match number {
        0 => SettingsEnd::Active,
        1 => SettingsEnd::NotUp(lane),
        2 => SettingsEnd::NotExplicit(lane),
        3 => SettingsEnd::NotStaged,
        4 => SettingsEnd::Rejected(lane),
        _ => SettingsEnd::NotActive(lane),
    }
}
