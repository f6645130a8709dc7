use paged_memory::Key;
use text_lines::{PrintedWords, ToWords};
use thiserror::Error;

/// Why an SFF module's memory is not read.
#[derive(Clone, Copy, Debug, PartialEq, Eq, Drop, Error)]
#[error("the module is not read")]
pub enum SffFault {
    /// The image lacks a half.
    Absent(Key),
    /// The identifier (SFF-8024) is not that of a module of this standard.
    WrongIdentifier(u8),
    /// The module has no pages but 00h, and so no thresholds (SFF-8636).
    FlatMemory,
    /// The module has no diagnostics (SFF-8472).
    NoDiagnostics,
    /// Device A2 answers only once the module is told to change its address (SFF-8472).
    AddressChange,
    /// The host has to calibrate the measured values (SFF-8472).
    ExternalCalibration,
}

impl ToWords for SffFault {
    ghost use Rattle.field_tables.specs.SffFaultWords.{sff_fault_words};

    ghost words = { sff_fault_words };

    ghost most = { 5 };

    fn to_words(&self) -> PrintedWords {
        match self {
            SffFault::WrongIdentifier(identifier) => PrintedWords::of("SF1").and(identifier),
            SffFault::FlatMemory => PrintedWords::of("SF2"),
            SffFault::Absent(key) => PrintedWords::of("SF3").and(key),
            SffFault::NoDiagnostics => PrintedWords::of("SF4"),
            SffFault::ExternalCalibration => PrintedWords::of("SF5"),
            SffFault::AddressChange => PrintedWords::of("SF6"),
        }
    }
}
