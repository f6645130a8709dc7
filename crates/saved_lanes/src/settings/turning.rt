//! The beginning of a change of settings, and one turn of it, from its numbers to its numbers.
ghost use Rattle.std.specs.Prelude.{◌≡◌, Some};
ghost use Rattle.conversations.specs.Patiently.{paused};
ghost use Rattle.conversations.specs.Wanted.{IsReplyTo};
ghost use Rattle.saved_lanes.specs.SavedSettings.{changing_in};
ghost use Rattle.saved_lanes.specs.SettingsTurns.{after, begun_settings, wants};

use crate::settings::numbers::SavedSettings;
use crate::settings::saving::save;
use crate::turning::MAX_STEPS;
use bus_model::Reply;
use conversations::{Conversation, Patience};
use lane_controls::{PatientSettingsProcedure, SettingsChange, patient_settings_procedure};

/// The numbers of a change that is begun. After a refusal it doubts the page selection, or doesn't.
pub fn begin(change: SettingsChange, patience: Patience, doubts: bool) -> SavedSettings
    ensures { changing_in result ≡ Some (begun_settings change patience doubts) }
{
    let mut procedure = patient_settings_procedure(change, patience, MAX_STEPS);
    procedure.conversation.conversation.doubts = doubts;
    save(&procedure)
}

/// Takes the reply to the operation that was to be made, and keeps the numbers of the change then.
pub fn take_saved(mut procedure: PatientSettingsProcedure, reply: &Reply, saved: &mut SavedSettings)
    requires { IsReplyTo (wants procedure) reply.now }
    ensures { changing_in saved.new ≡ Some (after procedure reply.now) }
{
    procedure.take(reply);
    *saved = save(&procedure);
}

/// The pause that was due is over; keeps the numbers of the change then.
pub fn wait_saved(mut procedure: PatientSettingsProcedure, saved: &mut SavedSettings)
    ensures { changing_in saved.new ≡ Some (paused procedure) }
{
    let pausing = &mut procedure.conversation;
    pausing.idle = pausing.idle.saturating_add(pausing.patience.pause);
    pausing.due = false;
    *saved = save(&procedure);
}
