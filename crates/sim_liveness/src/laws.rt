//! What holds of a simulated module in time, over the definitions of its events alone. Each function is a theorem: its contract says
//! it, and its body is empty.
ghost use Rattle.std.specs.Prelude.{ℕ};
ghost use Rattle.sim_module.specs.Soundness.{IsAlwaysKept};
ghost use Rattle.sim_liveness.specs.Accepted.{AcceptsPlans, AppliesPlans};
ghost use Rattle.sim_liveness.specs.Released.{ReleasedAreNotDown, ReleasedComeUp, ReleasedStay};
ghost use Rattle.sim_liveness.specs.Timing.{AllowedAreWithin, AppliesInTime, ComesUpInTime, CountersRun, GoesDownInTime, NewCountersRun, WakesInTime};

/// While fetches, selections of pages and ticks alone come, each state is reached in time, if the counters of states that end by
/// themselves run: a lane whose DPDeinit bit is set is deactivated once as many ticks have come as it needs, a lane that is never down
/// meanwhile is activated, a module of which nothing asks for low power is ready, and an apply in progress is done.
pub fn states_are_reached_in_time()
    ensures down { (most : ℕ) → GoesDownInTime most }
    ensures up { (most : ℕ) → ComesUpInTime most }
    ensures awake { (most : ℕ) → WakesInTime most }
    ensures applied { AppliesInTime }
{}

/// In each state of a module or a lane that ends by itself a counter runs, and so it does of an apply in progress, none of them longer
/// than the longest delay: in each new module, whose delays are 1 to 1000 ticks, and whatever happens to it.
pub fn counters_always_run()
    ensures new { NewCountersRun }
    ensures allowed { AllowedAreWithin }
    ensures always { (most : ℕ) → IsAlwaysKept (CountersRun most) }
{}

/// If a module is ready, nothing asks for low power, no apply is in progress, and no lane that is in a path has its DPDeinit bit set:
/// no such lane is down, so it stays while fetches, selections of pages and ticks alone come, and each such lane is activated in time.
pub fn released_lanes_come_up()
    ensures free { ReleasedAreNotDown }
    ensures stay { ReleasedStay }
    ensures up { (most : ℕ) → ReleasedComeUp most }
{}

/// If a plan of what the module advertises is staged, by whichever conventions it was read, all lanes but those of kept paths are
/// deactivated, and the kept paths are active: an apply to all lanes but theirs is refused for no lane.
pub fn a_module_accepts_its_plans()
    ensures { AcceptsPlans }
{}

/// So once as many ticks have come as an apply lasts, each of these lanes has ConfigSuccess and the plan's control byte.
pub fn an_accepted_plan_is_active_in_time()
    ensures { AppliesPlans }
{}
