ghost use Rattle.std.specs.Prelude.{◌≡◌};
ghost use Rattle.reports.specs.declared.fault.ReportFault.TheVariants.{Memory};

use applications::AdvertFault;
use bus_model::BusFault;
use field_tables::SffFault;
use paged_memory::Key;
use std::alloc::AllocError;
use text_lines::{PrintedWords, ToWords};
use thiserror::Error;

/// Why there is no report.
#[derive(Clone, Copy, Debug, PartialEq, Eq, Drop, Error)]
#[error("there is no report")]
pub enum ReportFault {
    /// An allocation failed.
    Memory,
    /// The report needs a page that the image lacks.
    Absent(Key),
    /// No report speaks of modules with this identifier (SFF-8024).
    Unknown(u8),
    /// The CMIS revision is of a major number other than 4 and 5.
    Revision(u8),
    /// The memory of the SFF module is not read.
    Sff(SffFault),
    /// The module's Applications are not read.
    Advert(AdvertFault),
    /// The bus made no more transactions, and not all of the module's memory was read.
    Bus(BusFault),
    /// All transactions that may be made were made, and not all of the module's memory was read.
    GaveUp,
}

impl From<AllocError> for ReportFault {
    ghost from_gives = { λ _ fault. fault ≡ Memory };

    fn from(_error: AllocError) -> ReportFault {
        ReportFault::Memory
    }
}

impl ToWords for ReportFault {
    ghost use Rattle.reports.specs.FaultWords.{report_fault_words};

    ghost words = { report_fault_words };

    ghost most = { 5 };

    fn to_words(&self) -> PrintedWords {
        match self {
            ReportFault::Memory => PrintedWords::of("memory"),
            ReportFault::Unknown(identifier) => PrintedWords::of("RP1").and(identifier),
            ReportFault::Bus(fault) => PrintedWords::of("RP2").and(fault),
            ReportFault::GaveUp => PrintedWords::of("RP3"),
            ReportFault::Revision(revision) => PrintedWords::of("RP4").and(revision),
            ReportFault::Absent(key) => PrintedWords::of("RP6").and(key),
            ReportFault::Sff(fault) => fault.to_words(),
            ReportFault::Advert(fault) => fault.to_words(),
        }
    }
}
