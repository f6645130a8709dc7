//! What holds of lanes, whatever a module answers. Each function is a theorem: its contract says it, and its body is empty.
ghost use Rattle.std.specs.Prelude.{◌≡◌, ◌⊎◌, ◌+◌, ◌-◌, ◌*◌, ◌≤◌, ◌<◌, ℕ, Bool, List, length, Option, Ok, Some, None, [], false, true};
ghost use Rattle.std.specs.Int.{bit_at};
ghost use Rattle.std.specs.FinSet as set;
ghost use Rattle.bus_model.specs.declared.operation.Op.{Op};
ghost use Rattle.conversations.specs.declared.pausing.Patience.{Patience};
ghost use Rattle.conversations.specs.declared.next.Next.TheVariants.{Do, End};
ghost use Rattle.conversations.specs.Events.{Events, steps_of};
ghost use Rattle.lane_controls.specs.declared.lane_change.LaneChange.{LaneChange};
ghost use Rattle.lane_controls.specs.declared.lane_change.LaneEnd.{LaneEnd};
ghost use Rattle.lane_controls.specs.declared.link_test.LinkTest.{LinkTest};
ghost use Rattle.lane_controls.specs.declared.link_test.TestStage.TheVariants.{Over};
ghost use Rattle.paged_memory.specs.PageAddressing.{EachStep, History};
ghost use Rattle.lane_controls.specs.declared.settings_change.ChangingSettings.{ChangingSettings};
ghost use Rattle.lane_controls.specs.declared.settings_change.SettingsChange.{SettingsChange};
ghost use Rattle.lane_controls.specs.declared.settings_change.SettingsEnd.{SettingsEnd};
ghost use Rattle.lane_controls.specs.declared.settings_change.SettingsEnd.TheVariants.{Active};
ghost use Rattle.lane_controls.specs.SettingsChanges as settings_change;
ghost use Rattle.lane_controls.specs.SettingsProgress.{AreShown, Obeys, Shown};
ghost use Rattle.lane_controls.specs.SettingsSteps as settings;
ghost use Rattle.lane_controls.specs.declared.signal_settings.SignalLimits.{SignalLimits};
ghost use Rattle.lane_controls.specs.declared.signal_settings.SignalTargets.{SignalTargets};
ghost use Rattle.lane_controls.specs.declared.test_plan.Switch.{Switch};
ghost use Rattle.lane_controls.specs.declared.test_plan.TestPlan.{TestPlan};
ghost use Rattle.lane_controls.specs.Controls.{host_lanes};
ghost use Rattle.lane_controls.specs.LaneChanges.{concerned, disturbed, lane_after, wants};
ghost use Rattle.lane_controls.specs.LaneProgress.{AreWanted, Keeps, answered, end_of};
ghost use Rattle.lane_controls.specs.LinkTests.{test_after};
ghost use Rattle.lane_controls.specs.Merging.{TakesBitsOfMask, merged};
ghost use Rattle.lane_controls.specs.PathLanes.{is_up};
ghost use Rattle.lane_controls.specs.SignalSettings.{AreBytes, half_of, settings_of, staged, target_of};
ghost use Rattle.lane_controls.specs.TestAccounts.{IsEnding, IsTold, LeavesNothing, WereOn, is_named, measurements, wanted_measurements, was_stopped};
ghost use Rattle.lane_controls.specs.TestPlans.{allows, repeated, up_lanes};
ghost use Rattle.lane_controls.specs.TestProgress as progress;
ghost use Rattle.lane_controls.specs.declared.link_test.TestEnd.{TestEnd};
ghost use Rattle.lane_controls.specs.TestOperations as test_operations;
ghost use Rattle.lane_controls.specs.TestRuns.{OnRealBus, OnTestPages};

/// A byte that is stored has the bits of its mask from others, and each other bit as it was.
pub fn only_bits_of_the_mask_change()
    ensures { (mask bits byte : ℕ) → mask < 256 → TakesBitsOfMask mask bits byte (merged mask bits byte) }
{}

/// A change of lanes, which stores only once nothing is disturbed without permission, concerns no host lane of a path that is up, but for
/// those that it may disturb.
pub fn a_change_of_lanes_that_are_up_needs_permission()
    ensures { (change : LaneChange) (states : List ℕ) → change.permitted < 256 → disturbed change states ≡ 0 → (i : ℕ) → i < 8
        → bit_at (concerned change) i ≡ 1 → is_up states i ≡ true → bit_at change.permitted i ≡ 1 }
{}

/// A change of lanes ends: of the operations that it wants, three at most for each store that may be, and one more, are not refused. If the
/// module refuses none, keeps what is stored, and may be stored to once, then it ends within four: the control is as it was if the lanes had
/// their bits already, or if paths that are up would be disturbed without permission, and else has the bits of the lanes as wanted.
pub fn a_change_of_lanes_ends()
    ensures in_time { (change : LaneChange) (history : History) → AreWanted change history → answered history ≤ 3 * change.max_stores + 1 }
    ensures soon { (change : LaneChange) (first : ℕ) (states : List ℕ) (history : History) (op : Op) → 0 < change.max_stores → AreWanted change history
        → EachStep (Keeps change first states) history → wants (lane_after change history) ≡ Do op → length history < 4 }
    ensures so { (change : LaneChange) (first : ℕ) (states : List ℕ) (history : History) (end : LaneEnd) → 0 < change.max_stores → AreWanted change history
        → EachStep (Keeps change first states) history → wants (lane_after change history) ≡ End end → end ≡ end_of change first states }
{}

/// What a test may switch concerns no host lane of a path that is up, but for those that it may disturb.
pub fn lanes_that_are_up_need_permission()
    ensures { (plan : TestPlan) (states : List ℕ) (switch : Switch) → plan.permitted < 256 → allows plan (up_lanes states) switch ≡ true → (i : ℕ) → i < 8
        → bit_at (host_lanes plan.media_paths switch.control switch.mask) i ≡ 1 → is_up states i ≡ true → bit_at plan.permitted i ≡ 1 }
{}

/// Whatever a bus refuses, and wherever a test is broken off: each control that was stored is named as perhaps still on, or was read
/// with the bits that it had before. So on a bus that keeps its page selection over a refusal, and on a real bus.
pub fn what_may_be_on_is_named()
    ensures anywhere { (doubts : Bool) (events : Events) (test : LinkTest) → OnTestPages doubts test.plan (λ own. IsTold own test) events
        → OnTestPages doubts test.plan (λ own. LeavesNothing test.plan own (is_named test.stage test)) events }
    ensures really { (patience : Patience) (events : Events) (test : LinkTest) (wanted : Option Op) (due : Bool) (idle : ℕ)
        → OnRealBus patience test.plan (λ own. IsTold own test) wanted due idle events
        → OnRealBus patience test.plan (λ own. LeavesNothing test.plan own (is_named test.stage test)) wanted due idle events }
{}

/// Results are read only while each control of the plan is on, as it was last read; and as often as the plan says if the test ends
/// without a fault.
pub fn results_are_of_what_was_on()
    ensures on { (events : Events) (test : LinkTest) → IsTold events test → WereOn test.plan (steps_of events) }
    ensures often { (events : Events) (test : LinkTest) → IsTold events test → test.stage ≡ Over → test.fault ≡ None →
        measurements (steps_of events) ≡ wanted_measurements test.plan }
{}

/// Once the caller has said that a test is to stop, it only switches off what is on.
pub fn a_stopped_test_switches_nothing_on()
    ensures { (plan : TestPlan) (events : Events) → was_stopped events ≡ true → IsEnding (test_after plan events).stage }
{}

/// A link test ends, whatever the bus refuses and whenever its caller stops it: of the operations that it wants, only so many are not
/// refused, and time passes no more often than results are wanted. If nobody stops it, and the module can do what the plan wants, refuses
/// nothing and keeps what is stored, then it ends without a fault, and no control is left on.
pub fn a_link_test_ends()
    ensures in_time { (plan : TestPlan) (events : Events) → length plan.switches.items ≤ 16 → progress.AreWanted plan events
        → answered (steps_of events) ≤ progress.most_answered plan }
    ensures seldom { (plan : TestPlan) (events : Events) → length plan.switches.items ≤ 16 → progress.AreWanted plan events
        → progress.pauses events ≤ wanted_measurements plan }
    ensures so { (plan : TestPlan) (first : ℕ → ℕ) (events : Events) (end : TestEnd) → length plan.switches.items ≤ 16 → 0 < plan.tries
        → repeated plan.switches.items ≡ None → progress.AreWanted plan events → was_stopped events ≡ false → EachStep (progress.Serves plan first) (steps_of events)
        → test_operations.wants (test_after plan events) ≡ End end → (end.fault ≡ None) × (end.still_on.items ≡ []) }
{}

/// What is staged for targets shows them, lane by lane.
pub fn staged_settings_show_their_targets()
    ensures { (targets : SignalTargets) (limits : SignalLimits) (bytes : List ℕ) → AreBytes limits → staged targets limits ≡ Ok bytes
        → (lane : ℕ) → 1 ≤ lane → lane ≤ 8 → settings_of bytes lane ≡ target_of targets lane }
{}

/// Settings are staged and applied only while each of the lanes was read as up, and under explicit control in both sets.
pub fn settings_are_applied_to_lanes_that_are_up()
    ensures steps { (events : Events) (changing : ChangingSettings) → settings.IsTold events changing → EachStep (settings.IsSettingsStep changing.change) (steps_of events) }
    ensures up { (change : SettingsChange) (history : History) → settings.AreUp change history → (lane : ℕ) → 1 ≤ lane → lane ≤ 8 → set.contains change.lanes lane ≡ true
        → (states : List ℕ) × (settings.bytes_read 128 history ≡ Some states) × ((half_of states 0 (lane - 1) ≡ 4) ⊎ (half_of states 0 (lane - 1) ≡ 7)) }
{}

/// Settings that are called active are those that each of the lanes has in the active set, as it was read last.
pub fn settings_called_active_are_active()
    ensures { (change : SettingsChange) (history : History) → settings.AreActive change history → (lane : ℕ) → 1 ≤ lane → lane ≤ 8 → set.contains change.lanes lane ≡ true
        → (active : List ℕ) × (settings.bytes_read 214 history ≡ Some active) × (settings_of change.settings lane ≡ settings_of active lane) }
{}

/// Of a module that refuses nothing, whose lanes are up and under explicit control, which shows what is staged as it was stored, and then
/// that the lanes were applied and have the settings, a change of settings ends within ten operations, with the settings active.
pub fn a_change_of_settings_ends()
    ensures soon { (change : SettingsChange) (shown : Shown) (events : Events) (op : Op) → Obeys change shown → AreShown change shown events
        → settings_change.wants (settings_change.settings_after change events) ≡ Do op → length (steps_of events) < 10 }
    ensures so { (change : SettingsChange) (shown : Shown) (events : Events) (end : SettingsEnd) → Obeys change shown → AreShown change shown events
        → settings_change.wants (settings_change.settings_after change events) ≡ End end → end ≡ Active }
{}
