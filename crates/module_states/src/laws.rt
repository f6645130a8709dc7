//! What holds of the tables as a whole. Each function is a theorem: its contract says it, and its
//! body is empty.

ghost use Rattle.std.specs.Prelude.{◌≡◌, ◌≢◌, ℕ, ◌≤◌, ◌↔◌, Some, not, IsTrue, count_by};
ghost use Rattle.std.specs.Bool.{IsFalse};
ghost use Rattle.module_states.specs.declared.machine.ModuleInputs.{ModuleInputs};
ghost use Rattle.module_states.specs.declared.state.ModuleState.{ModuleState};
ghost use Rattle.module_states.specs.Codes.{code_of, state_at};
ghost use Rattle.module_states.specs.Machines.{ArrivesIn};
ghost use Rattle.module_states.specs.Runs.{machine, PowersDown, PowersUp, is_transient};
ghost use Rattle.module_states.specs.Transitions.{fits, next_of, transitions};

use crate::ModuleState;

/// Each state has one code, and its code stands for it alone.
pub fn codes_name_states()
    ensures { (code : ℕ) (state : ModuleState) →
        (state_at code ≡ Some state) ↔ (code_of state ≡ code) }
{}

/// No two rows of the table fit at once, so their order says nothing.
pub fn rows_exclude_each_other()
    ensures { (state : ModuleState) (inputs : ModuleInputs) →
        count_by (fits state inputs) transitions ≤ 1 }
{}

/// A transient state is left if and only if its step is done. No other state looks at that.
pub fn transient_states_wait()
    ensures transient { (state : ModuleState) (inputs : ModuleInputs) → IsTrue (is_transient state) →
        (next_of state inputs ≡ state) ↔ IsFalse inputs.done }
    ensures steady { (state : ModuleState) (inputs : ModuleInputs) → IsFalse (is_transient state) →
        next_of state (record inputs { done = not inputs.done }) ≡ next_of state inputs }
{}

/// No transition leads to ModuleFault or away from it.
pub fn faults_stay_apart()
    ensures { (state : ModuleState) (inputs : ModuleInputs) →
        (next_of state inputs ≡ ModuleState.Fault) ↔ (state ≡ ModuleState.Fault) }
{}

/// While low power is asked for and every data path is deactivated, a module without a fault, whose
/// transient steps are done in their turns, comes to ModuleLowPwr in at most three turns, and stays there.
pub fn low_power_is_reached()
    ensures in_three { (state : ModuleState) → state ≢ ModuleState.Fault →
        ArrivesIn machine 3 PowersDown state ModuleState.LowPwr }
    ensures not_in_two { ¬ ArrivesIn machine 2 PowersDown ModuleState.PwrUp ModuleState.LowPwr }
{}

/// While low power isn't asked for, a module without a fault, whose transient steps are done in their
/// turns, comes to ModuleReady in at most three turns, and stays there.
pub fn ready_is_reached()
    ensures in_three { (state : ModuleState) → state ≢ ModuleState.Fault →
        ArrivesIn machine 3 PowersUp state ModuleState.Ready }
    ensures not_in_two { ¬ ArrivesIn machine 2 PowersUp ModuleState.PwrDn ModuleState.Ready }
{}
