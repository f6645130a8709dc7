use text_lines::{PrintedWords, ToWords};
use thiserror::Error;

/// Why a text is no certificate, or one with more states than there is room for. Lines count from 1.
#[derive(Clone, Copy, Debug, PartialEq, Eq, Drop, Error)]
#[error("the text is no certificate")]
pub enum CertificateFault {
    /// The line is none that may stand there.
    BadLine(usize),
    /// The state of the line isn't above the one before it.
    OutOfOrder(usize),
    /// It would be the ninth kept path, the ninth path, or a state for which there is no room.
    TooMany,
    /// The text ends without `end`.
    NoEnd,
}

impl ToWords for CertificateFault {
    ghost use Rattle.plan_certificate.specs.FaultWords.{certificate_fault_words};

    ghost words = { certificate_fault_words };

    ghost most = { 2 };

    fn to_words(&self) -> PrintedWords {
        match self {
            CertificateFault::BadLine(line) => PrintedWords::of("CT1").and(line),
            CertificateFault::OutOfOrder(line) => PrintedWords::of("CT2").and(line),
            CertificateFault::TooMany => PrintedWords::of("CT3"),
            CertificateFault::NoEnd => PrintedWords::of("CT4"),
        }
    }
}

/// Why a text names no kept paths, or why these can't be kept. Lines and paths count from 1.
#[derive(Clone, Copy, Debug, PartialEq, Eq, Drop, Error)]
#[error("these paths can't be kept")]
pub enum KeptFault {
    /// The line names no kept path.
    BadLine(usize),
    /// It would be the ninth kept path.
    TooMany,
    /// A path that isn't allowed or shares a lane with an earlier one, as `kept_fault` finds it.
    NotAdmissible(u8),
}

impl ToWords for KeptFault {
    ghost use Rattle.plan_certificate.specs.FaultWords.{kept_fault_words};

    ghost words = { kept_fault_words };

    ghost most = { 2 };

    fn to_words(&self) -> PrintedWords {
        match self {
            KeptFault::BadLine(line) => PrintedWords::of("KP1").and(line),
            KeptFault::TooMany => PrintedWords::of("KP2"),
            KeptFault::NotAdmissible(number) => PrintedWords::of("KP3").and(number),
        }
    }
}
