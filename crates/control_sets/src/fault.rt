use bus_model::BusFault;
use text_lines::{PrintedWords, ToWords};
use thiserror::Error;

/// Why control bytes are refused.
#[derive(Clone, Copy, Debug, PartialEq, Eq, Error)]
pub enum ControlFault {
    /// They are no host paths: this is the lowest lane that can't be in a path as it says.
    #[error("host lane {0} is not in a path as it says")]
    NotPaths(u8),
}

/// Why a procedure ended without success. Lanes are counted from 1; if several apply, the fault names the lowest.
#[derive(Clone, Copy, Debug, PartialEq, Eq, Error)]
#[error("the procedure did not succeed")]
pub enum ProvisionFault {
    /// The configuration of the lane was rejected, with this status code.
    Rejected(u8, u8),
    /// The control byte of the lane reads back different from the staged one.
    StagedDiffers(u8),
    /// The active control byte of the lane is another one.
    ActiveDiffers(u8),
    /// All steps that may be made were made, without another answer.
    GaveUp,
    /// The bus made no more transactions.
    Bus(BusFault),
    /// The module is in the state with this code, and not in ModuleReady.
    ModuleState(u8),
    /// No state, or no status, has this code.
    Reserved(u8),
}

impl ToWords for ProvisionFault {
    ghost use Rattle.control_sets.specs.FaultWords.{provision_fault_words};

    ghost words = { provision_fault_words };

    ghost most = { 3 };

    fn to_words(&self) -> PrintedWords {
        match self {
            ProvisionFault::Rejected(lane, status) => PrintedWords::of("PV1").and(lane).and(status),
            ProvisionFault::StagedDiffers(lane) => PrintedWords::of("PV2").and(lane),
            ProvisionFault::ActiveDiffers(lane) => PrintedWords::of("PV3").and(lane),
            ProvisionFault::GaveUp => PrintedWords::of("PV4"),
            ProvisionFault::Bus(fault) => PrintedWords::of("PV5").and(fault),
            ProvisionFault::ModuleState(code) => PrintedWords::of("PV6").and(code),
            ProvisionFault::Reserved(code) => PrintedWords::of("PV7").and(code),
        }
    }
}
