ghost use Rattle.std.specs.Prelude.{◌≡◌, ◌↔◌, IsTrue};
ghost use Rattle.bus_model.specs.Operations.{Answers};
ghost use Rattle.conversations.specs.Wanted.{op_of};

use bus_model::{Op, Reply};

/// What a conversation wants.
#[derive(Drop)]
pub enum Next<E> {
    /// This operation is to be made, and its reply to be told.
    Do(Op),
    /// So many milliseconds are to pass before anything else.
    Wait(u32),
    /// Nothing more.
    End(E),
}

impl<E> Next<E> {
    ghost use Rattle.std.specs.Prelude.{◌↔◌, IsTrue};
    ghost use Rattle.conversations.specs.Wanted.{IsWait};

    /// Whether time is to pass.
    pub fn is_wait(&self) -> bool
        ensures { IsTrue result ↔ IsWait self.now }
    {
        matches!(self, Next::Wait(_))
    }
}

/// Whether the operation can have a reply of this kind, with so many bytes.
pub fn can_have(op: &Op, reply: &Reply) -> bool
    ensures { IsTrue result ↔ Answers op.now reply.now }
{
    match op {
        Op::Fetch { count, .. } => match reply {
            Reply::Bytes(bytes) => bytes.len() == usize::from(*count),
            Reply::Done => false,
            Reply::Refused => true,
        },
        Op::Store { .. } => !matches!(reply, Reply::Bytes(_)),
    }
}

// The operation that is wanted, if one is.
pub fn op_in<E: Drop>(wanted: Next<E>) -> Option<Op>
    ensures { result ≡ op_of wanted }
{
    match wanted {
        Next::Do(op) => Some(op),
        Next::Wait(_time) => None,
        Next::End(_end) => None,
    }
}
