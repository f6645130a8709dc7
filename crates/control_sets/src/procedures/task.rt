ghost use Rattle.std.specs.Prelude.{◌≡◌, ◌∷◌, []};
ghost use Rattle.bus_model.specs.Operations.{IsWellShaped};
ghost use Rattle.field_tables.specs.Registers as registers;
ghost use Rattle.control_sets.specs.RegisterOperations as operations;

use crate::control_set::ControlSet;
use arrayvec::ArrayVec;
use bus_model::{Dev, MAX_STORE, Op};
use field_tables::{LaneSet, Register, register};

/// One thing that a procedure brings about, by one operation that is made until its reply is as wanted. In a byte of bits
/// bit i-1 is that of lane i.
#[derive(Clone, Copy)]
pub enum Task {
    /// The module is in ModuleReady.
    FindReady,
    /// These are the DPDeinit bits.
    Deinitialize(u8),
    /// These lanes are DPDeactivated.
    AwaitDeactivated(LaneSet),
    /// These control bytes are staged.
    Stage(ControlSet),
    /// They read back as staged.
    CheckStaged(ControlSet),
    /// ApplyDPInit is asked for by these bits.
    Apply(u8),
    /// These lanes tell ConfigSuccess.
    AwaitApplied(LaneSet),
    /// These control bytes are active.
    CheckActive(ControlSet),
    /// These lanes are DPActivated.
    AwaitActivated(LaneSet),
}

impl Task {
    ghost use Rattle.control_sets.specs.Tasks.{operation, page_of};

    /// The operation that is made.
    pub fn op(&self) -> Op
        ensures operation { result ≡ operation self.now }
        ensures shape { IsWellShaped (operation self.now) }
    {
        match self {
            Task::FindReady => read_of(Register::GlobalStatus),
            Task::Deinitialize(bits) => store_byte(Register::DPDeinit, *bits),
            Task::AwaitDeactivated(_) | Task::AwaitActivated(_) => {
                read_of(Register::PathStates)
            },
            Task::Stage(control) => { store_to(Register::StagedControl, ArrayVec::from(*control)) }
            Task::CheckStaged(_) => read_of(Register::StagedControl),
            Task::Apply(bits) => store_byte(Register::ApplyDPInit, *bits),
            Task::AwaitApplied(_) => read_of(Register::ConfigStatus),
            Task::CheckActive(_) => read_of(Register::ActiveControl),
        }
    }

    /// The number of the page that has to be selected for it; none for the lower memory.
    pub fn page(&self) -> Option<u16>
        ensures { result ≡ page_of self.now }
    {
        register(self.register()).page()
    }

    fn register(&self) -> Register
        ensures { registers.page_of result ≡ page_of self.now }
    {
        match self {
            Task::FindReady => Register::GlobalStatus,
            Task::Deinitialize(_) => Register::DPDeinit,
            Task::Stage(_) | Task::CheckStaged(_) => Register::StagedControl,
            Task::Apply(_) => Register::ApplyDPInit,
            Task::AwaitDeactivated(_) | Task::AwaitActivated(_) => Register::PathStates,
            Task::AwaitApplied(_) => Register::ConfigStatus,
            Task::CheckActive(_) => Register::ActiveControl,
        }
    }
}

/// Whether the operation stores ApplyDPInit, if page 10h shows.
pub fn is_apply(op: &Op) -> bool
    ensures { result ≡ operations.is_apply op.now }
{
    match op {
        Op::Store {
            dev: Dev::A0,
            offset,
            ..
        } => *offset == register(Register::ApplyDPInit).first,
        _ => false,
    }
}

// Asks for all bytes of a register.
pub fn read_of(of: Register) -> Op
    ensures { result ≡ operations.read_of of }
{
    let span = register(of);
    Op::Fetch {
        dev: span.dev,
        offset: span.first,
        count: span.count(),
    }
}

fn store_to(to: Register, bytes: ArrayVec<u8, MAX_STORE>) -> Op
    ensures { result ≡ operations.store_to to bytes.items }
{
    let span = register(to);
    Op::Store {
        dev: span.dev,
        offset: span.first,
        bytes,
    }
}

pub fn store_byte(to: Register, byte: u8) -> Op
    ensures { result ≡ operations.store_to to (byte ∷ []) }
{
    let mut bytes = ArrayVec::new();
    bytes.push(byte);
    store_to(to, bytes)
}
