//! What holds of the tables as a whole. Each function is a theorem: its contract says it, and its
//! body is empty.

ghost use Rattle.std.specs.Prelude.{◌≡◌, ℕ, ◌≤◌, ◌↔◌, Some, not, IsTrue, All, count_by};
ghost use Rattle.std.specs.Bool.{IsFalse};
ghost use Rattle.datapath_states.specs.declared.machine.PathInputs.{PathInputs};
ghost use Rattle.datapath_states.specs.declared.state.PathState.{PathState};
ghost use Rattle.datapath_states.specs.declared.status.ConfigStatus.{ConfigStatus};
ghost use Rattle.module_states.specs.Machines.{ArrivesIn};
ghost use Rattle.datapath_states.specs.Runs.{machine, IsDown, IsUp, is_transient};
ghost use Rattle.datapath_states.specs.StateCodes.{code_of, state_at};
ghost use Rattle.datapath_states.specs.StatusCodes.{status_at, status_code_of, statuses};
ghost use Rattle.datapath_states.specs.Transitions.{fits, next_of, transitions};

use crate::PathState;

/// Each state has one code, and its code stands for it alone.
pub fn codes_name_states()
    ensures { (code : ℕ) (state : PathState) →
        (state_at code ≡ Some state) ↔ (code_of state ≡ code) }
{}

/// Each status of the table has one code, and its code stands for it alone. Its custom statuses are those
/// of the codes 13 to 15.
pub fn codes_name_statuses()
    ensures one_code { (code : ℕ) (status : ConfigStatus) →
        status_at code ≡ Some status → status_code_of status ≡ code }
    ensures its_own { All (λ status. status_at (status_code_of status) ≡ Some status) statuses }
{}

/// No two rows of the table fit at once, so their order says nothing.
pub fn rows_exclude_each_other()
    ensures { (state : PathState) (inputs : PathInputs) →
        count_by (fits state inputs) transitions ≤ 1 }
{}

/// A transient state is left if and only if its step is done. No other state looks at that.
pub fn transient_states_wait()
    ensures transient { (state : PathState) (inputs : PathInputs) → IsTrue (is_transient state) →
        (next_of state inputs ≡ state) ↔ IsFalse inputs.done }
    ensures steady { (state : PathState) (inputs : PathInputs) → IsFalse (is_transient state) →
        next_of state (record inputs { done = not inputs.done }) ≡ next_of state inputs }
{}

/// A lane that stays down, and whose transient steps are done in their turns, comes to DPDeactivated in
/// at most five turns, and stays there.
pub fn deactivated_is_reached()
    ensures in_five { (state : PathState) → ArrivesIn machine 5 IsDown state PathState.Deactivated }
    ensures not_in_four { ¬ ArrivesIn machine 4 IsDown PathState.TxTurnOn PathState.Deactivated }
{}

/// A lane that isn't down, and whose transient steps are done in their turns, comes to DPActivated in at
/// most five turns, and stays there.
pub fn activated_is_reached()
    ensures in_five { (state : PathState) → ArrivesIn machine 5 IsUp state PathState.Activated }
    ensures not_in_four { ¬ ArrivesIn machine 4 IsUp PathState.Deinit PathState.Activated }
{}
