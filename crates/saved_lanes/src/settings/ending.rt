// How a change of settings ended, as numbers.
ghost use Rattle.std.specs.Prelude.{◌≡◌};
ghost use Rattle.saved_lanes.specs.SettingsEndings as spec;

use crate::settings::saving::numbers_of_end;
use conversations::{Spent, Timed};
use lane_controls::{PatientSettingsProcedure, SettingsEnd, SettingsStage};

/// How a change ended.
#[repr(C)]
#[derive(Clone, Copy)]
pub struct SavedSettingsEnd {
    /// 0 if the settings are active, 1 if a lane isn't up, 2 if one isn't under explicit control, 3 if other settings are staged, 4 if
    /// one was rejected, 5 if one has other settings, 6 if the module didn't answer for too long, 7 after as many operations as may be.
    pub end: u8,
    /// The lane that it is so with, or 0.
    pub lane: u8,
    /// 0 if nothing was stored, 1 if settings may be staged, 2 if they may also be active.
    pub reached: u8,
}

/// The numbers of how it ended.
pub fn ending_of(
    procedure: &PatientSettingsProcedure,
    spent: &Spent<Timed<SettingsEnd>>,
) -> SavedSettingsEnd
    ensures { result ≡ spec.ending_of procedure.now spent.now }
{
    let changing = &procedure.conversation.conversation.conversation;
    let reached = reached_at(changing.stage);
    let (end, lane) = numbers_of_timed(&spent.end);
    SavedSettingsEnd { end, lane, reached }
}

fn numbers_of_timed(end: &Option<Timed<SettingsEnd>>) -> (u8, u8)
    ensures { result ≡ spec.numbers_of_timed end.now }
{
    match end {
        Some(Timed::InTime(end)) => numbers_of_end(*end),
        Some(Timed::Overdue) => (6, 0),
        None => (7, 0),
    }
}

fn reached_at(stage: SettingsStage) -> u8
    ensures { result ≡ spec.reached_at stage }
{
    match stage {
        SettingsStage::States | SettingsStage::Staged | SettingsStage::Controls => 0,
        SettingsStage::Storing(_) | SettingsStage::Stored => 1,
        SettingsStage::Applying | SettingsStage::Applied | SettingsStage::Comparing => 2,
        SettingsStage::Ended(end) => reached_by(end),
    }
}

fn reached_by(end: SettingsEnd) -> u8
    ensures { result ≡ spec.reached_by end }
{
    match end {
        SettingsEnd::NotUp(_) | SettingsEnd::NotExplicit(_) => 0,
        SettingsEnd::NotStaged => 1,
        SettingsEnd::Active | SettingsEnd::Rejected(_) | SettingsEnd::NotActive(_) => 2,
    }
}
