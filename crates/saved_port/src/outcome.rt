// What a reply led to, as numbers.
ghost use Rattle.std.specs.Prelude.{◌≡◌};
ghost use Rattle.port_manager.specs.declared.port.Outcome.TheVariants as outcomes;
ghost use Rattle.saved_port.specs.Outcomes.{AreNumbersOf};
ghost use Rattle.saved_port.specs.Outcomes as spec;

use crate::numbers::SavedLeft;
use crate::saving::{no_reason, numbers_of_reason};
use control_sets::SavedFault;
use port_manager::{LeftBecause, Note, Outcome, PortFault, ProcedureFault};

/// What a reply led to.
#[repr(C)]
#[derive(Clone, Copy)]
pub struct SavedOutcome {
    /// Not before which moment it goes on, or 0.
    pub moment: u64,
    /// 0 if it is dropped, 1 if it went on, 2 if it pauses, 3 if it failed, 4 if the module is left alone.
    pub kind: u8,
    /// What a log says of it, or 0.
    pub note: u8,
    /// What has failed, or 0.
    pub failure: u8,
    /// Why a procedure has failed.
    pub fault: SavedFault,
    pub left: SavedLeft,
}

/// The numbers of what a reply led to.
pub fn outcome_of(outcome: Outcome) -> SavedOutcome
    ensures { AreNumbersOf outcome result }
{
    match outcome {
        Outcome::Dropped => plain(0, 0, 0),
        Outcome::Went(note) => plain(1, number_of_note(note), 0),
        Outcome::Paused(moment) => plain(2, 0, moment),
        Outcome::Failed(fault, moment) => failed(fault, moment),
        Outcome::Left(reason) => left(reason),
    }
}

fn plain(kind: u8, note: u8, moment: u64) -> SavedOutcome
    ensures { result ≡ spec.plain kind note moment }
{
    SavedOutcome {
        moment,
        kind,
        note,
        failure: 0,
        fault: SavedFault::of(None),
        left: no_reason(),
    }
}

fn failed(fault: PortFault, moment: u64) -> SavedOutcome
    ensures { result ≡ spec.failed fault moment }
{
    SavedOutcome {
        moment,
        kind: 3,
        note: 0,
        failure: number_of_failure(fault),
        fault: numbers_of_fault(fault),
        left: no_reason(),
    }
}

fn left(reason: LeftBecause) -> SavedOutcome
    ensures { AreNumbersOf (outcomes.Left reason) result }
{
    SavedOutcome {
        moment: 0,
        kind: 4,
        note: 0,
        failure: 0,
        fault: SavedFault::of(None),
        left: numbers_of_reason(reason),
    }
}

fn number_of_note(note: Note) -> u8
    ensures { result ≡ spec.number_of_note note }
{
    match note {
        Note::Quiet => 0,
        Note::Identified => 1,
        Note::Woken => 2,
        Note::Provisioned => 3,
        Note::CameUp => 4,
        Note::Held => 5,
    }
}

fn number_of_failure(fault: PortFault) -> u8
    ensures { result ≡ spec.number_of_failure fault }
{
    match fault {
        PortFault::Unread => 1,
        PortFault::Asleep => 2,
        PortFault::Waking(_) => 3,
        PortFault::Provisioning(_) => 4,
        PortFault::Activating(_) => 5,
        PortFault::Unseen => 6,
        PortFault::Changed => 7,
        PortFault::Sleeping(_) => 8,
        PortFault::ApplyRefused => 9,
        PortFault::WakingRefused => 10,
    }
}

fn numbers_of_fault(fault: PortFault) -> SavedFault
    ensures { result ≡ spec.numbers_of_fault fault }
{
    match fault {
        PortFault::Waking(fault)
        | PortFault::Sleeping(fault)
        | PortFault::Provisioning(fault)
        | PortFault::Activating(fault) => numbers_of_procedure(fault),
        PortFault::Unread
        | PortFault::Asleep
        | PortFault::Unseen
        | PortFault::Changed
        | PortFault::ApplyRefused
        | PortFault::WakingRefused => SavedFault::of(None),
    }
}

fn numbers_of_procedure(fault: ProcedureFault) -> SavedFault
    ensures { result ≡ spec.numbers_of_procedure fault }
{
    match fault {
        ProcedureFault::Failed(fault) => SavedFault::of(Some(fault)),
        ProcedureFault::Overdue => SavedFault {
            code: 8,
            first: 0,
            second: 0,
        },
    }
}
