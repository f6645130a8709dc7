//! Controls of single lanes on a bus: outputs switched off and on, patterns and loopbacks, what a link test counted, and
//! signal integrity settings.
#![tactic(auto)]

mod capabilities;
mod control;
mod lane_change;
mod lane_register;
pub mod laws;
mod link_test;
mod merging;
mod page_bytes;
mod path_lanes;
mod result_set;
mod results;
mod runs;
mod settings_change;
mod signal_settings;
mod test_plan;

pub use capabilities::{has_diagnostics, reports, supports, supports_both_sides};
pub use control::{Control, LanePair, Loopback, PatternUnit};
pub use lane_change::{ChangingLanes, LaneChange, LaneEnd, LaneStage};
pub use lane_register::LaneRegister;
pub use link_test::{LinkTest, MAX_CHANGES, STOP, TestEnd, TestFault, TestStage};
pub use merging::merged;
pub use result_set::{LaneQuad, ResultSet, Side};
pub use results::{
    Counts, Endian, LockLosses, Ratio, counted_on, error_ratio, lock_losses, signal_to_noise,
};
pub use runs::{
    LaneProcedure, PatientLaneProcedure, PatientSettingsProcedure, PatientTestProcedure,
    SettingsProcedure, TestProcedure, change_lanes, change_lanes_on, lane_procedure,
    patient_lane_procedure, patient_settings_procedure, patient_test_procedure, settings_procedure,
    test_procedure,
};
pub use settings_change::{
    ChangingSettings, SettingsChange, SettingsEnd, SettingsPiece, SettingsStage, inactive_lane,
    store_piece,
};
pub use signal_settings::{
    LaneSettings, SETTINGS, SettingFault, SignalLimits, SignalTargets, are_active, settings_of,
    staged_settings,
};
pub use test_plan::{Change, MAX_SWITCHES, Switch, TestPlan};
