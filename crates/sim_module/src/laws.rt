//! What holds of a module, over the definitions of its events alone.
//!
//! In the laws over runs on a scripted bus, the list that may be full is the bus's whole list, also with the steps that it had
//! before a call.
ghost use Rattle.std.specs.Prelude.{ℕ};
ghost use Rattle.paged_memory.specs.Images.{Memory};
ghost use Rattle.field_tables.specs.LaneSets.{Lanes};
ghost use Rattle.control_sets.specs.OutcomeCodes.{IsOf};
ghost use Rattle.sim_module.specs.declared.delays.Delays.{Delays};
ghost use Rattle.sim_module.specs.Soundness.{HoldsItsPath, IsAlwaysKept, IsSound, LanesComeUp, LanesStayUp, RunsLeaveSound};
ghost use Rattle.sim_module.specs.Starts.{active_at_start, start};
ghost use Rattle.sim_module.specs.ActiveSets.{ActivationLeavesActive, ActiveIsPlanned, ActiveIsPlannedOn, HasNoApply, IsAtRest, PowerLeavesActive};
ghost use Rattle.sim_module.specs.KeptPaths.{KeptPathsStayUp, KeptPathsStayUpAgain};
ghost use Rattle.sim_module.specs.DeinitBits.{BitsFollowSuccess, BitsFollowTheStore, KeptBitsAreClear};
ghost use Rattle.sim_module.specs.ReleasedLanes.{KeptLanesAreReleased};
ghost use Rattle.sim_module.specs.Unchanging.{EventsLeaveFixed};

/// A new module has eight lanes, the active bytes of its memory are active, and no apply is in progress.
pub fn a_new_module_is_sound()
    ensures sound { (memory : Memory) (delays : Delays) → IsSound (start memory delays) }
    ensures at_rest { (memory : Memory) (delays : Delays) → IsAtRest (active_at_start memory) (start memory delays) }
{}

/// No fetch, store, tick or change of the pin changes the memory that a module had at the start, nor what that advertises.
pub fn what_is_fixed_never_changes()
    ensures { EventsLeaveFixed }
{}

/// Whatever happens to a module, the lanes of an apply in progress have the status ConfigInProgress.
pub fn a_module_stays_sound()
    ensures { IsAlwaysKept IsSound }
{}

/// So a sound module is sound after any steps on a scripted bus, whatever the script refuses or cuts short. Every new
/// module meets the premise.
pub fn a_run_leaves_a_module_sound()
    ensures { RunsLeaveSound }
{}

/// A lane whose DPDeinit bit is set, or of which an apply is in progress, takes down all lanes of its active path.
pub fn a_lane_holds_its_path_down()
    ensures { HoldsItsPath }
{}

/// A tick leaves a lane as it is if the lane is activated and not down and no apply of it is in progress.
pub fn a_lane_that_is_not_down_stays_up()
    ensures { LanesStayUp }
{}

/// If a lane isn't down, a tick takes it from DPDeactivated to DPInit, and its counter begins. This holds too if an apply
/// of the lane is done with that tick.
pub fn a_lane_that_is_not_down_comes_up()
    ensures { LanesComeUp }
{}

/// Over a scripted bus, whatever the script refuses or cuts short: after a success of provisioning the control bytes are
/// active, and no apply is in progress that would change them. If no lane is applied, as all are kept, an apply that was
/// in progress before could still change them.
pub fn what_is_provisioned_is_active()
    ensures all_lanes { ActiveIsPlanned }
    ensures some_lane { (lanes : Lanes) (lane : ℕ) → IsOf lanes lane → ActiveIsPlannedOn lanes IsSound }
    ensures no_apply { (lanes : Lanes) → ActiveIsPlannedOn lanes (λ sim. IsSound sim × HasNoApply sim) }
{}

/// Over a scripted bus, whatever the script refuses or cuts short: if no apply is in progress, activation leaves active
/// what was, whatever it answers.
pub fn activation_leaves_what_is_active()
    ensures { ActivationLeavesActive }
{}

/// Over a scripted bus, whatever the script refuses or cuts short: if no apply is in progress, waking up and going to sleep
/// leave active what was, whatever they answer.
pub fn a_change_of_power_leaves_what_is_active()
    ensures { PowerLeavesActive }
{}

/// Over a scripted bus whose script sets the pin no more, whatever it refuses or cuts short: if no apply is in progress
/// and the kept paths are active, then after provisioning of the other lanes each lane of a kept path that was DPActivated
/// and not down still is, with its active byte, whatever provisioning stages and answers.
pub fn kept_paths_stay_up()
    ensures { KeptPathsStayUp }
{}

/// So they do through any number of provisionings, one after another, each of which may fail: what holds before the first one
/// is enough, even if an apply of one is in progress when the next begins. The bus's list has the steps of all of them.
pub fn kept_paths_stay_up_again()
    ensures { KeptPathsStayUpAgain }
{}

/// Over a scripted bus, whatever the script refuses or cuts short: once the store of DPDeinit was accepted, as it was before
/// each success, a lane's bit is set if and only if the lane is provisioned. The bit of a kept lane is clear then, even if it
/// was set before.
pub fn provisioning_clears_the_bits_of_kept_lanes()
    ensures stored { BitsFollowTheStore }
    ensures success { BitsFollowSuccess }
    ensures kept { KeptBitsAreClear }
{}

/// Over a scripted bus, whatever the script refuses, cuts short or sets the pin to: if no apply is in progress, no kept lane
/// has the status ConfigInProgress and the kept paths are active, once the store of DPDeinit was accepted, a kept lane is down
/// if and only if the module isn't ready or low power is asked for. What its DPDeinit bit held down before is free to come up.
pub fn provisioning_releases_kept_lanes()
    ensures { KeptLanesAreReleased }
{}
