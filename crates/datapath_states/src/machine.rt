ghost use Rattle.std.specs.Prelude.{◌≡◌};
ghost use Rattle.datapath_states.specs.Transitions.{next_of};

use crate::PathState;

/// What the machine looks at in a turn.
#[derive(Clone, Copy, Debug, PartialEq, Eq)]
pub struct PathInputs {
    /// The lane is to be deactivated, or kept so.
    pub down: bool,
    /// The step of a transient state is done.
    pub done: bool,
}

/// The state after a turn.
#[tactic(auto, unfolding(crate::specs::Transitions::next_of))]
pub fn next(state: PathState, inputs: PathInputs) -> PathState
    ensures { result ≡ next_of state inputs }
{
    match state {
        PathState::Deactivated if !inputs.down => PathState::Init,
        PathState::Init if inputs.done => PathState::Initialized,
        PathState::Initialized if inputs.down => PathState::Deinit,
        PathState::Initialized => PathState::TxTurnOn,
        PathState::TxTurnOn if inputs.done => PathState::Activated,
        PathState::Activated if inputs.down => PathState::TxTurnOff,
        PathState::TxTurnOff if inputs.done => PathState::Initialized,
        PathState::Deinit if inputs.done => PathState::Deactivated,
        _ => state,
    }
}
