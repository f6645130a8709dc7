//! The beginning of a change of lanes, and one turn of it, from its numbers to its numbers.
ghost use Rattle.std.specs.Prelude.{◌≡◌, MatchOption, Some, false, true};
ghost use Rattle.conversations.specs.Patiently.{paused};
ghost use Rattle.conversations.specs.Wanted.{IsReplyTo};
ghost use Rattle.saved_lanes.specs.SavedLanes.{changing_in, is_change};
ghost use Rattle.saved_lanes.specs.Turns.{after, begun_change, wants};

use crate::numbers::{SavedChanging, SavedLaneChange};
use crate::restoring;
use crate::saving::save;
use bus_model::Reply;
use conversations::{Conversation, Patience};
use lane_controls::{PatientLaneProcedure, patient_lane_procedure};

/// How many operations a change makes at most.
pub const MAX_STEPS: u16 = 4096;

/// The numbers of a change that is begun, if there is such a control. After a refusal it doubts the page selection, or doesn't.
pub fn begin(change: &SavedLaneChange, patience: Patience, doubts: bool) -> Option<SavedChanging>
    ensures { MatchOption result (is_change change.now ≡ false)
        (λ saved. (is_change change.now ≡ true) × (changing_in saved ≡ Some (begun_change change.now patience doubts))) }
{
    if restoring::is_change(change) {
        Some(begun(change, patience, doubts))
    } else {
        None
    }
}

fn begun(change: &SavedLaneChange, patience: Patience, doubts: bool) -> SavedChanging
    ensures { changing_in result ≡ Some (begun_change change.now patience doubts) }
{
    let mut procedure = patient_lane_procedure(restoring::change_in(change), patience, MAX_STEPS);
    procedure.conversation.conversation.doubts = doubts;
    save(&procedure)
}

/// Takes the reply to the operation that was to be made, and keeps the numbers of the change then.
pub fn take_saved(mut procedure: PatientLaneProcedure, reply: &Reply, saved: &mut SavedChanging)
    requires { IsReplyTo (wants procedure) reply.now }
    ensures { changing_in saved.new ≡ Some (after procedure reply.now) }
{
    procedure.take(reply);
    *saved = save(&procedure);
}

/// The pause that was due is over; keeps the numbers of the change then.
pub fn wait_saved(mut procedure: PatientLaneProcedure, saved: &mut SavedChanging)
    ensures { changing_in saved.new ≡ Some (paused procedure) }
{
    let pausing = &mut procedure.conversation;
    pausing.idle = pausing.idle.saturating_add(pausing.patience.pause);
    pausing.due = false;
    *saved = save(&procedure);
}
