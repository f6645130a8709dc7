use applications::AdvertFault;
use paged_memory::Key;
use text_lines::{PrintedWords, ToWords};
use thiserror::Error;

/// Why there is no simulated module of an image.
#[derive(Clone, Copy, Debug, PartialEq, Eq, Drop, Error)]
#[error("the image is no module")]
pub enum SimFault {
    /// The image lacks a page that a module needs.
    Absent(Key),
    /// Its Applications are not read.
    Advert(AdvertFault),
    /// A delay is 0 or above 1000.
    BadDelay,
    /// Its active control bytes are no host paths: this is the lowest lane that can't be in a path as it says.
    ActiveNotPaths(u8),
}

impl ToWords for SimFault {
    ghost use Rattle.sim_module.specs.FaultWords.{sim_fault_words};

    ghost words = { sim_fault_words };

    ghost most = { 6 };

    fn to_words(&self) -> PrintedWords {
        match self {
            SimFault::Absent(key) => PrintedWords::of("SM1").and(key),
            SimFault::Advert(fault) => PrintedWords::of("SM2").and(fault),
            SimFault::BadDelay => PrintedWords::of("SM3"),
            SimFault::ActiveNotPaths(lane) => PrintedWords::of("SM4").and(lane),
        }
    }
}
