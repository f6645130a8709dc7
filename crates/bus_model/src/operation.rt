ghost use Rattle.std.specs.Prelude.{IsTrue, ◌↔◌, ◌<◌};
ghost use Rattle.bus_model.specs.Operations.{IsInHalf, IsWellShaped};

use crate::device::Dev;
use arrayvec::ArrayVec;

/// How many bytes a store gives at most.
pub const MAX_STORE: usize = 8;

/// How many bytes a fetch asks for at most: those of one half.
pub const MAX_FETCH: usize = 128;

/// What a transaction asks of a device. The bytes of a fetch or a store lie within one half.
#[derive(Debug, PartialEq, Eq, Drop)]
pub enum Op {
    /// Asks for so many bytes, from an address on.
    Fetch {
        dev: Dev,
        offset: u8,
        count: u8,
    },
    /// Gives bytes, from an address on.
    Store {
        dev: Dev,
        offset: u8,
        bytes: ArrayVec<u8, MAX_STORE>,
    },
}

/// What came of a transaction.
#[derive(Debug, PartialEq, Eq, Drop)]
pub enum Reply {
    /// The bytes that were asked for.
    Bytes(ArrayVec<u8, MAX_FETCH>),
    /// The store was taken.
    Done,
    /// The fetch was not answered, or the store not taken: the device may have got some of its bytes.
    Refused,
}

/// A transaction that was made.
#[derive(Debug, PartialEq, Eq, Drop)]
pub struct Step {
    pub op: Op,
    pub reply: Reply,
}

impl Op {
    /// Whether it asks for 1 to 128 bytes or gives 1 to 8, all within one half.
    pub fn is_well_shaped(&self) -> bool
        ensures { IsTrue result ↔ IsWellShaped self.now }
    {
        match self {
            Op::Fetch { offset, count, .. } => is_in_half(*offset, usize::from(*count)),
            Op::Store { offset, bytes, .. } => is_in_half(*offset, bytes.len()),
        }
    }
}

// Whether so many bytes, at least one, lie in one half.
fn is_in_half(offset: u8, count: usize) -> bool
    requires { count < 256 }
    ensures { IsTrue result ↔ IsInHalf offset count }
{
    let offset = usize::from(offset);
    0 < count && (offset + count <= 128 || 128 <= offset && offset + count <= 256)
}

impl Reply {
    ghost use Rattle.std.specs.Prelude.{◌≡◌};

    /// The same reply.
    pub(crate) fn copy(&self) -> Reply
        ensures { result ≡ self.now }
    {
        match self {
            Reply::Bytes(bytes) => Reply::Bytes(ArrayVec::try_from(bytes.as_slice()).unwrap()),
            Reply::Done => Reply::Done,
            Reply::Refused => Reply::Refused,
        }
    }
}
