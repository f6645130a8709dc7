//! A two-wire bus, as the list of the transactions made.

use crate::device::Dev;
use crate::operation::{MAX_FETCH, Op, Reply};
use arrayvec::ArrayVec;
use text_lines::{PrintedWords, ToWords};
use thiserror::Error;

/// Why a transaction was not made.
#[derive(Clone, Copy, Debug, PartialEq, Eq, Drop, Error)]
#[error("the transaction was not made")]
pub enum BusFault {
    /// There are as many steps as there is room for.
    TraceFull,
    /// No bytes, too many, or bytes of both halves; this comes before a full list.
    BadShape,
}

impl ToWords for BusFault {
    ghost use Rattle.bus_model.specs.FaultWords.{bus_fault_words};

    ghost words = { bus_fault_words };

    ghost most = { 1 };

    fn to_words(&self) -> PrintedWords {
        match self {
            BusFault::TraceFull => PrintedWords::of("BU1"),
            BusFault::BadShape => PrintedWords::of("BU2"),
        }
    }
}

/// A bus with devices: each transaction appends one step to its list, for which there is a fixed room.
pub trait Bus {
    ghost use Rattle.std.specs.Prelude.{◌≡◌, ◌↔◌, [], ◌∷◌, length, IfOk, IfErr, IsErr, OnErr, IfSome};
    ghost use Rattle.bus_model.specs.declared.operation.Step.{Step};
    ghost use Rattle.bus_model.specs.Operations.{IsInHalf, IsWellShapedStore, IsWellShaped, Answers, fetch_step, store_step};
    ghost use Rattle.bus_model.specs.Runs.{Rules, Seen, Ran, IsFull};

    /// What the bus and its devices hold, as plain data.
    type State;

    /// The steps made, the room for them, and the state.
    ghost seen: { Self → Seen Self.State };

    /// Which step may come next, and the state after it.
    ghost rules: { Rules Self.State };

    /// Makes a transaction, which is then the last step, or refuses and changes nothing.
    fn transact(&mut self, op: Op) -> Result<Reply, BusFault>
        ensures ran { IfOk result (λ reply.
            Ran rules (seen self.old) (seen self.new) (record { op = op; reply = reply } ∷ [])) }
        ensures answers { IfOk result (Answers op) }
        ensures shape { (result ≡ Err BusFault.BadShape) ↔ (IsWellShaped op → ⊥) }
        ensures full { (result ≡ Err BusFault.TraceFull) ↔ (IsWellShaped op × IsFull (seen self.old)) }
        ensures refused { OnErr result (seen self.new ≡ seen self.old) };

    /// Fetches so many bytes of one half, from an address on; `None` if the fetch was refused. Fails on a full
    /// list alone.
    final fn fetch(
        &mut self,
        dev: Dev,
        offset: u8,
        count: u8,
    ) -> Result<Option<ArrayVec<u8, MAX_FETCH>>, BusFault>
        requires { IsInHalf offset count }
        ensures ran { IfOk result (λ answer.
            Ran rules (seen self.old) (seen self.new) (fetch_step dev offset count answer ∷ [])) }
        ensures count { IfOk result (λ answer. IfSome answer (λ bytes. length bytes.items ≡ count)) }
        ensures full { IsErr result ↔ IsFull (seen self.old) }
        ensures fault { IfErr result (λ fault. fault ≡ BusFault.TraceFull) }
        ensures refused { OnErr result (seen self.new ≡ seen self.old) }
    {
        match self.transact(Op::Fetch { dev, offset, count }) {
            Ok(Reply::Bytes(bytes)) => Ok(Some(bytes)),
            Ok(_) => Ok(None),
            Err(fault) => Err(fault),
        }
    }

    /// Stores up to 8 bytes in one half, from an address on; whether they were taken. Fails on a full list alone.
    final fn store(&mut self, dev: Dev, offset: u8, bytes: &[u8]) -> Result<bool, BusFault>
        requires { IsWellShapedStore offset bytes.now }
        ensures ran { IfOk result (λ taken.
            Ran rules (seen self.old) (seen self.new) (store_step dev offset bytes.now taken ∷ [])) }
        ensures full { IsErr result ↔ IsFull (seen self.old) }
        ensures fault { IfErr result (λ fault. fault ≡ BusFault.TraceFull) }
        ensures refused { OnErr result (seen self.new ≡ seen self.old) }
    {
        let bytes = ArrayVec::try_from(bytes).unwrap();
        match self.transact(Op::Store { dev, offset, bytes }) {
            Ok(Reply::Done) => Ok(true),
            Ok(_) => Ok(false),
            Err(fault) => Err(fault),
        }
    }
}
