ghost use Rattle.std.specs.Prelude.{◌≡◌, Some};
ghost use Rattle.std.specs.Option.{ok_or};
ghost use Rattle.datapath_states.specs.Names.{name_of};
ghost use Rattle.datapath_states.specs.StateCodes.{code_of, state_at};

use crate::PathCodeFault;
use std::fmt;

/// The state of a data path, as each of its lanes reports it.
#[derive(Clone, Copy, Debug, PartialEq, Eq)]
pub enum PathState {
    Deactivated = 1,
    Init = 2,
    Deinit = 3,
    Activated = 4,
    TxTurnOn = 5,
    TxTurnOff = 6,
    Initialized = 7,
}

impl PathState {
    /// The code that stands for the state in the module's memory.
    pub fn code(self) -> u8
        ensures { result ≡ code_of self }
    {
        self as u8
    }
}

/// The state by its name.
impl fmt::Display for PathState {
    ghost output = { λ state. Some (name_of state) };

    fn fmt<W: fmt::Write>(&self, f: &mut fmt::Formatter<W>) -> fmt::Result {
        f.write_str(match self {
            PathState::Deactivated => "DPDeactivated",
            PathState::Init => "DPInit",
            PathState::Deinit => "DPDeinit",
            PathState::Activated => "DPActivated",
            PathState::TxTurnOn => "DPTxTurnOn",
            PathState::TxTurnOff => "DPTxTurnOff",
            PathState::Initialized => "DPInitialized",
        })
    }
}

/// The state that a code stands for.
pub fn state_of(code: u8) -> Result<PathState, PathCodeFault>
    ensures { result ≡ ok_or (state_at code) (PathCodeFault.Reserved code) }
{
    match code {
        1 => Ok(PathState::Deactivated),
        2 => Ok(PathState::Init),
        3 => Ok(PathState::Deinit),
        4 => Ok(PathState::Activated),
        5 => Ok(PathState::TxTurnOn),
        6 => Ok(PathState::TxTurnOff),
        7 => Ok(PathState::Initialized),
        _ => Err(PathCodeFault::Reserved(code)),
    }
}
