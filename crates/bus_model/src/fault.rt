use text_lines::{PrintedWords, ToWords};
use thiserror::Error;

/// Why a text is no script. Lines count from 1.
#[derive(Clone, Copy, Debug, PartialEq, Eq, Drop, Error)]
#[error("the text is no script")]
pub enum ScriptFault {
    /// The line is no directive.
    BadLine(usize),
    /// It would be the 1,025th directive.
    TooLong,
}

impl ToWords for ScriptFault {
    ghost use Rattle.bus_model.specs.FaultWords.{script_fault_words};

    ghost words = { script_fault_words };

    ghost most = { 2 };

    fn to_words(&self) -> PrintedWords {
        match self {
            ScriptFault::BadLine(line) => PrintedWords::of("BU3").and(line),
            ScriptFault::TooLong => PrintedWords::of("BU4"),
        }
    }
}
