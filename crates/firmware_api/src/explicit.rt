// Provisioning with signal integrity settings, which C keeps.
ghost use Rattle.std.specs.Prelude.{◌≡◌, ◌≢◌, ℕ, IfOk, Some};
ghost use Rattle.bus_model.specs.declared.operation.Op.{Op};
ghost use Rattle.bus_model.specs.declared.operation.Reply.{Reply as Told};
ghost use Rattle.conversations.specs.declared.next.Next.TheVariants as nexts;
ghost use Rattle.field_tables.specs.LaneSets.{lanes_in};
ghost use Rattle.saved_lanes.specs.SettingsTargets.{change_of};
ghost use Rattle.explicit_provisioning.specs.ExplicitProcedures.{WatchfulTasks as Tasks};
ghost use Rattle.saved_provisioning.specs.SavedProvisioning.{provisioning_in};
ghost use Rattle.saved_provisioning.specs.Turns.{after, after_pause};
ghost use Rattle.saved_provisioning.specs.UsedLanes.{begun};
ghost use Rattle.firmware_api.specs.ExplicitTold.{IsEndTold, asked, wanted_in};
ghost use Rattle.firmware_api.specs.ExplicitTold as spec;
ghost use Rattle.firmware_api.specs.Operations.{reply_of};
ghost use Rattle.firmware_api.specs.Patiences.{given};
ghost use Rattle.firmware_api.specs.SettingsTold.{refusal_of};
ghost use Rattle.firmware_api.specs.Statuses.{done, status_by};
ghost use Rattle.firmware_api.specs.Updates.{IsNextTold, IsReplyTold};

use crate::conversation::{WAITED, left_by, overdue, reply_to};
use crate::operation::Operation;
use crate::patience::Patience;
use crate::status::{DONE, ENDED, NO_CONVERSATION, NO_REPLY, NOT_ENDED, settings_status};
use control_sets::{ControlSet, ProvisionFault, SavedFault};
use conversations::{Conversation, Next, Spent, Timed, Watched};
use explicit_provisioning::{ExplicitEnd, ExplicitFault, fault_of};
use field_tables::LaneSet;
use saved_lanes::settings::{SavedLimits, SavedSettingsChange, change_of};
use saved_provisioning::{SavedExplicit, begin, restore, take_saved, wait_saved};

/// How provisioning with settings ended.
#[repr(C)]
#[derive(Clone, Copy)]
pub struct SavedExplicitEnd {
    /// How many operations a success took; else 0.
    pub steps: u16,
    /// Why there is no success, as without settings.
    pub fault: SavedFault,
    /// 1 if other settings are staged after all tries, 2 if a lane has other active settings after all tries, else 0.
    pub settings: u8,
    /// That lane, or 0.
    pub lane: u8,
}

/// Puts into `explicit` provisioning of which nothing was done yet: it makes these control bytes active, by taking down and applying
/// these lanes, with these settings for lanes of the change that are in a data path.
#[unsafe(no_mangle)]
pub extern "C" fn dovecounter_explicit_begin(
    control: &ControlSet,
    lanes: u8,
    change: &SavedSettingsChange,
    limits: &SavedLimits,
    patience: &Patience,
    explicit: &mut SavedExplicit,
) -> u32
    ensures status { result ≡ status_by (refusal_of (change_of (asked change.now) limits.now)) }
    ensures begun { result ≡ done → IfOk (change_of (asked change.now) limits.now)
        (λ wanted. provisioning_in explicit.new ≡ Some (begun control.now (lanes_in lanes) wanted (given patience.now))) }
    ensures refused { result ≢ done → explicit.new ≡ explicit.old }
{
    match change_of(&asked(change), limits) {
        Ok(wanted) => {
            *explicit = begin(control, LaneSet::from(lanes), &wanted, patience.given());
            DONE
        }
        Err(refusal) => settings_status(refusal),
    }
}

// Which lanes are disturbed is said by those that are taken down.
fn asked(change: &SavedSettingsChange) -> SavedSettingsChange
    ensures { result ≡ asked change.now }
{
    let mut asked = *change;
    asked.permitted = asked.lanes;
    asked
}

/// Puts into `operation` what is to be done now.
#[unsafe(no_mangle)]
pub extern "C" fn dovecounter_explicit_next(
    explicit: &SavedExplicit,
    operation: &mut Operation,
) -> u32
    ensures told { IsNextTold result operation.new (wanted_in explicit.now) }
    ensures refused { result ≢ done → operation.new ≡ operation.old }
{
    let Some(tasks) = restore(explicit) else {
        return NO_CONVERSATION;
    };
    match tasks.next() {
        Next::Do(op) => {
            operation.put(&op);
            DONE
        }
        Next::Wait(milliseconds) => {
            operation.put_wait(milliseconds);
            DONE
        }
        Next::End(_ending) => ENDED,
    }
}

/// Takes what came of that.
#[unsafe(no_mangle)]
pub extern "C" fn dovecounter_explicit_reply(
    explicit: &mut SavedExplicit,
    outcome: u8,
    bytes: &[u8],
) -> u32
    ensures told { IsReplyTold result outcome (reply_of outcome bytes.now) (wanted_in explicit.old) }
    ensures taken { result ≡ done → (tasks : Tasks) (op : Op) (reply : Told) → provisioning_in explicit.old ≡ Some tasks →
        wanted_in explicit.old ≡ Some (nexts.Do op) → reply_of outcome bytes.now ≡ Some reply →
        provisioning_in explicit.new ≡ Some (after tasks reply) }
    ensures waited { result ≡ done → (tasks : Tasks) (time : ℕ) → provisioning_in explicit.old ≡ Some tasks →
        wanted_in explicit.old ≡ Some (nexts.Wait time) → provisioning_in explicit.new ≡ Some (after_pause tasks) }
    ensures refused { result ≢ done → explicit.new ≡ explicit.old }
{
    let Some(tasks) = restore(explicit) else {
        return NO_CONVERSATION;
    };
    match tasks.next() {
        Next::Do(op) => match reply_to(&op, outcome, bytes) {
            Some(reply) => {
                take_saved(tasks, &reply, explicit);
                DONE
            }
            None => NO_REPLY,
        },
        Next::Wait(_) if outcome == WAITED => {
            wait_saved(tasks, explicit);
            DONE
        }
        Next::Wait(_) => NO_REPLY,
        Next::End(_ending) => ENDED,
    }
}

/// Puts into `ended` how it ended.
#[unsafe(no_mangle)]
pub extern "C" fn dovecounter_explicit_end(
    explicit: &SavedExplicit,
    ended: &mut SavedExplicitEnd,
) -> u32
    ensures told { IsEndTold result ended.new (wanted_in explicit.now) }
    ensures refused { result ≢ done → ended.new ≡ ended.old }
{
    let Some(tasks) = restore(explicit) else {
        return NO_CONVERSATION;
    };
    match tasks.next() {
        Next::End(ending) => {
            *ended = end_of(ending);
            DONE
        }
        Next::Do(_) | Next::Wait(_) => NOT_ENDED,
    }
}

fn end_of(ending: Watched<Spent<Timed<ExplicitEnd>>>) -> SavedExplicitEnd
    ensures { result ≡ spec.end_of ending }
{
    match ending {
        Watched::InOrder(spent) => ended_by(spent),
        Watched::Left(code) => ended_with(0, left_by(code)),
    }
}

fn ended_by(spent: Spent<Timed<ExplicitEnd>>) -> SavedExplicitEnd
    ensures { result ≡ spec.ended_by spent.steps spent.end }
{
    match spent.end {
        Some(Timed::InTime(end)) => ended_in_time(spent.steps, fault_of(end)),
        Some(Timed::Overdue) => ended_with(0, overdue()),
        None => ended_with(0, SavedFault::of(Some(ProvisionFault::GaveUp))),
    }
}

fn ended_in_time(steps: u16, fault: Option<ExplicitFault>) -> SavedExplicitEnd
    ensures { result ≡ spec.ended_in_time steps fault }
{
    match fault {
        None => ended_with(steps, SavedFault::of(None)),
        Some(ExplicitFault::Provision(fault)) => ended_with(0, SavedFault::of(Some(fault))),
        Some(ExplicitFault::NotStaged) => other_settings(1, 0),
        Some(ExplicitFault::NotActive(lane)) => other_settings(2, lane),
    }
}

fn ended_with(steps: u16, fault: SavedFault) -> SavedExplicitEnd
    ensures { result ≡ spec.ended_with steps fault }
{
    SavedExplicitEnd {
        steps,
        fault,
        settings: 0,
        lane: 0,
    }
}

fn other_settings(settings: u8, lane: u8) -> SavedExplicitEnd
    ensures { result ≡ spec.other_settings settings lane }
{
    SavedExplicitEnd {
        steps: 0,
        fault: SavedFault::of(None),
        settings,
        lane,
    }
}
