//! What holds of a port and a simulated module together. Each function is a theorem: its contract says it, and its body is empty.
ghost use Rattle.managed_module.specs.Bounds.{ComesUpWithin, NewIsSteady};
ghost use Rattle.managed_module.specs.InTime.{SuitedHasComeUpInTime, SuitedIsAskedFor};
ghost use Rattle.managed_module.specs.Managed.{ManagedComesUp};
ghost use Rattle.managed_module.specs.ModuleGoals.{GoalsAreOwn};
ghost use Rattle.managed_module.specs.Succeeds.{ComesUpSuited};
ghost use Rattle.managed_module.specs.SuitedModules.{NewIsProvisionable, SuitedHasComeUp};
ghost use Rattle.managed_module.specs.ManagedPlans.{PlansComeUp, PlansDontFail};

/// A port at work on a simulated CMIS module, in whatever state, over a bus that refuses nothing, with pauses of any length: unless
/// something fails or the module is left alone, it is up once more operations were made than 65, and 3 for each read of a state
/// that is not yet the one that is awaited.
pub fn a_simulated_module_comes_up()
    ensures { ManagedComesUp }
{}

/// Such reads are at most nine for each tick of the longest delay, and five: until the module is ready, lanes are deactivated, an apply is done
/// and lanes are activated, at a tick or more for each operation. So the module is up within a number of operations that its delays
/// give, unless something fails, it is left alone or wanted to be in low power. It may be in any state before, but for an apply in
/// progress, and low power that is asked for while it is ready or powers up.
pub fn waiting_ends_by_the_delays()
    ensures { ComesUpWithin }
{}

/// A new module is in such a state.
pub fn a_new_module_is_steady()
    ensures { NewIsSteady }
{}

/// More is shown where what is wanted suits the module, and its states don't last for longer than the port waits: no reading of it fails, it
/// isn't woken up in vain, and it isn't left alone. So it has come up within that number of operations, unless provisioning or activation
/// fails, whatever it reads as.
pub fn a_suited_module_comes_up()
    ensures { ComesUpSuited }
{}

/// Until then each goal that a reading leads to is a plan of what the module advertises, whose kept paths are active with their control bytes,
/// if what is active at first is a plan.
pub fn a_goal_is_of_the_module()
    ensures { GoalsAreOwn }
{}

/// A port that begins to provision a plan of what a ready module advertises, with kept paths that are active, makes no operation that
/// fails before the module is up, but for a procedure that takes longer than it may, in milliseconds or in operations.
pub fn a_plan_of_its_own_does_not_fail()
    ensures { PlansDontFail }
{}

/// None does if a procedure may make as many operations as the module's delays give, and pause as often: so the module is up within
/// that many, and the four of the look after them.
pub fn a_plan_of_its_own_comes_up()
    ensures { PlansComeUp }
{}

/// Both together: a module that suits what is wanted has come up within the number of operations of `waiting_ends_by_the_delays`, with no
/// premise that anything succeeds. The module goes by what it advertises, as a new one does; the port waits for as many pauses in a row as
/// provisioning and activation may make operations, 36 and 7 for each tick of the longest delay; and the control bytes that are active at
/// first are those of a plan.
pub fn a_suited_module_has_come_up()
    ensures { SuitedHasComeUp }
{}

/// A new module in which no path is active meets these premises, if the port waits for so many pauses.
pub fn a_new_module_is_provisionable()
    ensures { NewIsProvisionable }
{}

/// `a_suited_module_has_come_up` in milliseconds, if each reply is taken within so many, a turnaround, of the moment from which its
/// operation may be asked for. Count a turnaround and the module's pause for each operation, from the moment on at which the port has let
/// the module settle: once 66 operations are over, and 3 for each such read, the module has come up, unless a reply is late by then. The
/// clock may go back.
pub fn a_suited_module_has_come_up_in_time()
    ensures { SuitedHasComeUpInTime }
{}

/// Until then it isn't the port that is late: while none is outstanding, it asks for an operation at each moment from that one on, unless
/// it is to hold still.
pub fn a_port_asks_until_its_module_has_come_up()
    ensures { SuitedIsAskedFor }
{}
