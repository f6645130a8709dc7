ghost use Rattle.std.specs.Prelude.{◌≡◌};
ghost use Rattle.module_metrics.specs.declared.label_fault.LabelFault.TheVariants.{Memory};

use std::alloc::AllocError;
use thiserror::Error;

/// Why a word is no label that can be added.
#[derive(Clone, Copy, Debug, PartialEq, Eq, Drop, Error)]
#[error("the word is no label")]
pub enum LabelFault {
    /// An allocation failed.
    Memory,
    /// There is no equals sign.
    NoValue,
    /// What stands before it is no name of a label, or one that Prometheus keeps for itself.
    BadKey,
    /// Samples have a label of this name by themselves.
    Taken,
    /// There is one already.
    Twice,
}

impl From<AllocError> for LabelFault {
    ghost from_gives = { λ _ fault. fault ≡ Memory };

    fn from(_error: AllocError) -> LabelFault {
        LabelFault::Memory
    }
}
