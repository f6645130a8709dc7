use thiserror::Error;

/// Why a code is refused.
#[derive(Clone, Copy, Debug, PartialEq, Eq, Error)]
pub enum PathCodeFault {
    /// No state, or no status, has this code.
    #[error("code {0} is reserved")]
    Reserved(u8),
}
