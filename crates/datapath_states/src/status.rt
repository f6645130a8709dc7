ghost use Rattle.std.specs.Prelude.{◌≡◌, Some};
ghost use Rattle.std.specs.Option.{ok_or};
ghost use Rattle.datapath_states.specs.Names.{status_name};
ghost use Rattle.datapath_states.specs.StatusCodes.{status_at, status_code_of};

use crate::PathCodeFault;
use std::fmt;

/// What became of the last configuration command on a lane.
#[derive(Clone, Copy, Debug, PartialEq, Eq)]
pub enum ConfigStatus {
    Undefined,
    Success,
    Rejected,
    RejectedInvalidAppSel,
    RejectedInvalidDataPath,
    RejectedInvalidSi,
    RejectedLanesInUse,
    RejectedPartialDataPath,
    InProgress,
    /// A rejection for a reason of the module's own, by its code from 13 to 15.
    Custom(u8),
}

impl ConfigStatus {
    /// The code that stands for the status in the module's memory.
    pub fn code(self) -> u8
        ensures { result ≡ status_code_of self }
    {
        match self {
            ConfigStatus::Undefined => 0,
            ConfigStatus::Success => 1,
            ConfigStatus::Rejected => 2,
            ConfigStatus::RejectedInvalidAppSel => 3,
            ConfigStatus::RejectedInvalidDataPath => 4,
            ConfigStatus::RejectedInvalidSi => 5,
            ConfigStatus::RejectedLanesInUse => 6,
            ConfigStatus::RejectedPartialDataPath => 7,
            ConfigStatus::InProgress => 12,
            ConfigStatus::Custom(code) => code,
        }
    }
}

/// The status by its name, a custom one by its code.
impl fmt::Display for ConfigStatus {
    ghost output = { λ status. Some (status_name status) };

    fn fmt<W: fmt::Write>(&self, f: &mut fmt::Formatter<W>) -> fmt::Result {
        f.write_str(match self {
            ConfigStatus::Undefined => "ConfigUndefined",
            ConfigStatus::Success => "ConfigSuccess",
            ConfigStatus::Rejected => "ConfigRejected",
            ConfigStatus::RejectedInvalidAppSel => "ConfigRejectedInvalidAppSel",
            ConfigStatus::RejectedInvalidDataPath => "ConfigRejectedInvalidDataPath",
            ConfigStatus::RejectedInvalidSi => "ConfigRejectedInvalidSI",
            ConfigStatus::RejectedLanesInUse => "ConfigRejectedLanesInUse",
            ConfigStatus::RejectedPartialDataPath => "ConfigRejectedPartialDataPath",
            ConfigStatus::InProgress => "ConfigInProgress",
            ConfigStatus::Custom(code) => return write!(f, "custom-{code}"),
        })
    }
}

/// The status that a code stands for.
pub fn status_of(code: u8) -> Result<ConfigStatus, PathCodeFault>
    ensures { result ≡ ok_or (status_at code) (PathCodeFault.Reserved code) }
{
    match code {
        0 => Ok(ConfigStatus::Undefined),
        1 => Ok(ConfigStatus::Success),
        2 => Ok(ConfigStatus::Rejected),
        3 => Ok(ConfigStatus::RejectedInvalidAppSel),
        4 => Ok(ConfigStatus::RejectedInvalidDataPath),
        5 => Ok(ConfigStatus::RejectedInvalidSi),
        6 => Ok(ConfigStatus::RejectedLanesInUse),
        7 => Ok(ConfigStatus::RejectedPartialDataPath),
        12 => Ok(ConfigStatus::InProgress),
        13..=15 => Ok(ConfigStatus::Custom(code)),
        _ => Err(PathCodeFault::Reserved(code)),
    }
}
