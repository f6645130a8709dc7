//! Why a command line gives no choice, and what the program then says.
ghost use Rattle.std.specs.Prelude.{◌≡◌, true};
ghost use Rattle.std.specs.IoError.{error_kind};
ghost use Rattle.command_line.specs.ChoiceFault.{fault_of_error, fault_of_label, fault_of_words, status_by_kind};
ghost use Rattle.clap.specs.Words.{kind_of};
ghost use Rattle.command_line.specs.Program.{IsRefusalWritten};
ghost use Rattle.command_line.specs.StoppingWriter.{contents_of, writing_failed};
ghost use Rattle.command_line.specs.declared.choice.fault.ChoiceFault.TheVariants.{Memory, Word};

use super::word_fault::WordFault;
use crate::fault::Fault;
use crate::output::{FaultForm, StoppingWriter, ended, write_fault};
use crate::status::Status;
use clap::error::ErrorKind;
use module_metrics::LabelFault;
use std::alloc::AllocError;
use std::io;
use std::io::Write;
use thiserror::Error;

/// Why the words give no choice.
#[derive(Debug, Drop, Error)]
pub enum ChoiceFault {
    /// An allocation was refused.
    #[error("out of memory")]
    Memory,
    /// The words are refused, or ask for help.
    #[error(transparent)]
    Line(clap::Error),
    /// The words are taken, but one that follows a flag is wrong.
    #[error("{0}")]
    Word(WordFault),
    /// A word could not be read.
    #[error("a word is not UTF-8")]
    Unreadable,
}

impl From<io::Error> for ChoiceFault {
    ghost from_gives = { λ error fault. fault ≡ fault_of_words (error_kind error) };

    fn from(error: io::Error) -> ChoiceFault {
        match error.kind() {
            io::ErrorKind::OutOfMemory => ChoiceFault::Memory,
            _ => ChoiceFault::Unreadable,
        }
    }
}

impl From<clap::Error> for ChoiceFault {
    ghost from_gives = { λ error fault. fault ≡ fault_of_error error };

    fn from(error: clap::Error) -> ChoiceFault {
        match error.kind() {
            ErrorKind::OutOfMemory => ChoiceFault::Memory,
            _ => ChoiceFault::Line(error),
        }
    }
}

impl From<WordFault> for ChoiceFault {
    ghost from_gives = { λ word fault. fault ≡ Word word };

    fn from(word: WordFault) -> ChoiceFault {
        ChoiceFault::Word(word)
    }
}

impl From<LabelFault> for ChoiceFault {
    ghost from_gives = { λ label fault. fault ≡ fault_of_label label };

    fn from(fault: LabelFault) -> ChoiceFault {
        match fault {
            LabelFault::Memory => ChoiceFault::Memory,
            _ => ChoiceFault::Word(WordFault::Label(fault)),
        }
    }
}

impl From<AllocError> for ChoiceFault {
    ghost from_gives = { λ _ fault. fault ≡ Memory };

    fn from(_error: AllocError) -> ChoiceFault {
        ChoiceFault::Memory
    }
}

/// Writes why there is no choice, and answers how the program ends.
#[tactic(auto, unfolding(crate::specs::ChoiceFault::unreadable_line))]
pub fn choice_refused<W: Write>(fault: &ChoiceFault, writer: &mut StoppingWriter<W>) -> Status
    ensures said { IsRefusalWritten fault.now (contents_of W.contents writer.old)
        (contents_of W.contents writer.new) (writing_failed writer.new) result }
    ensures stopped { writing_failed writer.old ≡ true → writer.new ≡ writer.old }
{
    match fault {
        ChoiceFault::Memory => write_fault(writer, Fault::Memory, &FaultForm::Line),
        ChoiceFault::Line(error) => ended(writer.put_text(error), status_of(error)),
        ChoiceFault::Word(fault) => ended(writer.put_text(*fault), Status::CommandLine),
        ChoiceFault::Unreadable => {
            let line = b"error: a word of the command line is not UTF-8\n";
            ended(writer.put(line), Status::CommandLine)
        }
    }
}

/// How the program ends if `clap` answers this: help is an answer, and all else a fault.
fn status_of(error: &clap::Error) -> Status
    ensures { result ≡ status_by_kind (kind_of error.now) }
{
    match error.kind() {
        ErrorKind::DisplayHelp | ErrorKind::DisplayVersion => Status::Done,
        _ => Status::CommandLine,
    }
}
