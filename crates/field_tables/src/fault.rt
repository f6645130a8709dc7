use paged_memory::Key;
use thiserror::Error;

/// A field can't be read: the image has no page under the key.
#[derive(Clone, Copy, Debug, PartialEq, Eq, Drop, Error)]
#[error("there is no page under {absent:?}")]
pub struct FieldFault {
    pub absent: Key,
}
