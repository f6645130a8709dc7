ghost use Rattle.std.specs.Prelude.{◌≡◌};
ghost use Rattle.module_states.specs.LowPower.{is_low_power};
ghost use Rattle.module_states.specs.Transitions.{next_of};

use crate::ModuleState;

/// What the machine looks at in a turn.
#[derive(Clone, Copy, Debug, PartialEq, Eq)]
pub struct ModuleInputs {
    /// Low power is asked for.
    pub low_power: bool,
    /// Every data path is deactivated.
    pub deactivated: bool,
    /// The step of a transient state is done.
    pub done: bool,
}

/// Whether a module is asked for low power: by software, or by the pin if that is allowed.
pub fn low_power(allow_hw: bool, request_hw: bool, request_sw: bool) -> bool
    ensures { result ≡ is_low_power allow_hw request_hw request_sw }
{
    request_sw || (allow_hw && request_hw)
}

/// The state after a turn.
#[tactic(auto, unfolding(crate::specs::Transitions::next_of))]
pub fn next(state: ModuleState, inputs: ModuleInputs) -> ModuleState
    ensures { result ≡ next_of state inputs }
{
    match state {
        ModuleState::Ready if inputs.low_power && inputs.deactivated => ModuleState::PwrDn,
        ModuleState::PwrDn if inputs.done => ModuleState::LowPwr,
        ModuleState::LowPwr if !inputs.low_power => ModuleState::PwrUp,
        ModuleState::PwrUp if inputs.done => ModuleState::Ready,
        _ => state,
    }
}
