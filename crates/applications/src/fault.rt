use paged_memory::Key;
use text_lines::{PrintedWords, ToWords};
use thiserror::Error;

/// Why a module's Applications are not read.
#[derive(Clone, Copy, Debug, PartialEq, Eq, Drop, Error)]
#[error("the module does not say what it advertises")]
pub enum AdvertFault {
    /// The image lacks a page.
    Absent(Key),
    /// The identifier (SFF-8024) is none of a CMIS module.
    NotCmis(u8),
    /// The CMIS revision is of a major number other than 4 and 5.
    Revision(u8),
    /// A module with this identifier has other than eight lanes.
    NotEightLanes(u8),
    /// The module has no pages but 00h, and so no control sets.
    FlatMemory,
    /// The sum of a page is wrong.
    BadSum(u8),
}

impl ToWords for AdvertFault {
    ghost use Rattle.applications.specs.FaultWords.{advert_fault_words};

    ghost words = { advert_fault_words };

    ghost most = { 5 };

    fn to_words(&self) -> PrintedWords {
        match self {
            AdvertFault::NotCmis(identifier) => PrintedWords::of("AD1").and(identifier),
            AdvertFault::Revision(revision) => PrintedWords::of("AD2").and(revision),
            AdvertFault::FlatMemory => PrintedWords::of("AD3"),
            AdvertFault::Absent(key) => PrintedWords::of("AD4").and(key),
            AdvertFault::BadSum(page) => PrintedWords::of("AD5").and(page),
            AdvertFault::NotEightLanes(identifier) => PrintedWords::of("AD6").and(identifier),
        }
    }
}
