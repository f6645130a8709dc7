//! The beginning of provisioning with settings, and one turn of it, from its numbers to its numbers.
ghost use Rattle.std.specs.Prelude.{◌≡◌, None, Some};
ghost use Rattle.conversations.specs.Wanted.{IsReplyTo};
ghost use Rattle.conversations.specs.Watching.{look_after_wait};
ghost use Rattle.control_sets.specs.declared.procedures.procedure.Work.TheVariants.{Provisioning};
ghost use Rattle.control_sets.specs.Progress.{list_at};
ghost use Rattle.saved_provisioning.specs.SavedProvisioning.{provisioning_in};
ghost use Rattle.saved_provisioning.specs.Standings.{StandsFor, list_of};
ghost use Rattle.saved_provisioning.specs.Turns.{after, after_pause, wants};
ghost use Rattle.saved_provisioning.specs.UsedLanes.{begun};

use crate::numbers::SavedExplicit;
use crate::saving::save;
use crate::tasks::numbers_after;
use crate::used_lanes::wanted_of;
use bus_model::Reply;
use control_sets::{ControlSet, SavedFault, SavedProcedure, TaskList, Work};
use conversations::{Conversation, Look, Patience};
use explicit_provisioning::{WatchfulTasks, explicit_bytes, watchful_tasks};
use field_tables::LaneSet;
use lane_controls::SettingsChange;

/// The numbers of provisioning with settings that is begun: these control bytes become active, with ExplicitControl for the lanes of the
/// change that they put into a data path, by taking down and applying these lanes.
pub fn begin(
    control: &ControlSet,
    lanes: LaneSet,
    change: &SettingsChange,
    patience: Patience,
) -> SavedExplicit
    ensures { provisioning_in result ≡ Some (begun control.now lanes change.now patience) }
{
    let wanted = wanted_of(control, change);
    let bytes = explicit_bytes(*control, wanted.lanes);
    let work = Work::Provisioning {
        control: bytes,
        lanes,
    };
    let it = watchful_tasks(&wanted, work, patience);
    save(&it, none_met(bytes, lanes))
}

fn none_met(control: ControlSet, lanes: LaneSet) -> SavedProcedure
    ensures { StandsFor result (list_at (Provisioning control lanes) (0, None)) }
{
    SavedProcedure {
        met: 0,
        steps: 0,
        work: 1,
        lanes: lanes.byte(),
        control,
        selection: 0,
        page: 0,
        fault: SavedFault::of(None),
        due: 0,
        idle: 0,
        pause: 0,
        limit: 0,
    }
}

/// Takes the reply to the operation that was to be made, and keeps the numbers then.
pub fn take_saved(mut it: WatchfulTasks, reply: &Reply, saved: &mut SavedExplicit)
    requires reply { IsReplyTo (wants it) reply.now }
    requires same { provisioning_in saved.old ≡ Some it }
    ensures { provisioning_in saved.new ≡ Some (after it reply.now) }
{
    let before = list_of(&it);
    it.take(reply);
    let since = list_of(&it);
    let tasks = numbers_after(&saved.procedure, &before, &since);
    *saved = save(&it, tasks);
}

fn list_of(it: &WatchfulTasks) -> TaskList
    ensures { result ≡ list_of it.now }
{
    it.conversation
        .conversation
        .conversation
        .conversation
        .second
        .first
}

/// The pause that was due is over; keeps the numbers then.
pub fn wait_saved(mut it: WatchfulTasks, saved: &mut SavedExplicit)
    requires { provisioning_in saved.old ≡ Some it }
    ensures { provisioning_in saved.new ≡ Some (after_pause it) }
{
    let pausing = &mut it.conversation.conversation;
    pausing.idle = pausing.idle.saturating_add(pausing.patience.pause);
    pausing.due = false;
    it.look = look_after_wait(it.watches, it.look);
    *saved = save(&it, saved.procedure);
}

// A look is due then, unless one has shown another state.
fn look_after_wait(watches: bool, look: Look) -> Look
    ensures { result ≡ look_after_wait watches look }
{
    match look {
        Look::Seen if watches => Look::Due,
        _ => look,
    }
}
