//! What standard error says beside an answer: why there is none, or what is odd about it.
ghost use Rattle.std.specs.Prelude.{◌≡◌, None, Some};
ghost use Rattle.command_line.specs.Remarks.{remark_on_reported, explained_text, key_sentence, remark_text, sentence_key, sentence_of};
ghost use Rattle.command_line.specs.Faults.{fault_words};
ghost use Rattle.command_line.specs.Places.{first_word};
ghost use Rattle.command_line.specs.Runs.{IsRemarkBeside, answer_of};
ghost use Rattle.command_line.specs.declared.remark.opening.Opening.TheVariants.{Other};

mod clue;
mod inactive_path;
mod line_pieces;
mod named;
mod opening;
mod place;
mod shown_byte;
mod warnings;
mod weights_lines;

use crate::command_output::CommandOutput;
use crate::fault::Fault;
use crate::reported_fault::ReportedFault;
use applications::{WeightTable, WeightsFault};
pub use clue::Clue;
use inactive_path::InactivePath;
use named::Named;
use notices::sentence_by_code;
pub use opening::Opening;
use paged_memory::ImageFault;
use plan_certificate::Path;
use std::fmt;
pub use warnings::Warnings;

/// The remark beside an answer, once that is written.
#[derive(Drop)]
pub enum Remark {
    /// The answer says all.
    Nothing,
    /// The answer could not be written whole.
    Unwritten,
    /// Memory ran out before the input was read.
    NoMemory,
    /// The answer is, or ends with, the line of a fault.
    Refused(Explained),
    /// The same, and that it was to be expected, since this kept path was not active.
    Foreseen(Path, Explained),
    /// The answer has no fault.
    Warned(Warnings),
}

/// A fault, and what the input tells beside it.
#[derive(Clone, Copy)]
pub struct Explained {
    pub fault: Fault,
    pub clue: Clue,
}

impl Remark {
    /// The remark beside this answer to an input that gives this clue.
    pub fn beside(answer: &Result<CommandOutput, Fault>, clue: Clue) -> Remark
        ensures { IsRemarkBeside (answer_of answer.now) clue result }
    {
        match answer {
            Ok(output) => match output.fault {
                Some(reported) => Remark::of_reported(reported, clue),
                None => Remark::Warned(output.warnings),
            },
            Err(fault) => Remark::Refused(Explained {
                fault: *fault,
                clue,
            }),
        }
    }

    // The remark on a fault that a text reports.
    fn of_reported(reported: ReportedFault, clue: Clue) -> Remark
        ensures { result ≡ remark_on_reported reported clue }
    {
        let explained = Explained {
            fault: reported.fault(),
            clue,
        };
        match reported {
            ReportedFault::Procedure(_, Some(path)) => Remark::Foreseen(path, explained),
            _ => Remark::Refused(explained),
        }
    }
}

impl Explained {
    /// A fault of which the input tells nothing beside.
    pub fn of(fault: Fault) -> Explained
        ensures { result ≡ record { fault = fault; clue = record { opening = Other; weights_line = None } } }
    {
        Explained {
            fault,
            clue: Clue::none(),
        }
    }

    /// The fault's code.
    pub fn code(self) -> &'static str
        ensures { result.now ≡ first_word (fault_words self.fault) }
    {
        Named::of(self.fault, None).code
    }

    /// What is wrong and what to do; of IM1 by the cause, of WT3 by the table.
    pub fn sentence(self) -> &'static str
        ensures { result.now ≡ sentence_of (sentence_key self.fault self.clue.opening) }
    {
        match self.fault {
            Fault::Image(ImageFault::BadHeader) => sentence(self.clue.opening.key()),
            Fault::Weights(WeightsFault::BadKey(table)) => sentence(key_sentence(table)),
            _ => sentence(self.code()),
        }
    }
}

// The code of the sentence on a key, by its table.
fn key_sentence(table: WeightTable) -> &'static str
    ensures { result.now ≡ key_sentence table }
{
    match table {
        WeightTable::Host => "WT3",
        WeightTable::Media => "WT3 media",
        WeightTable::App => "WT3 app",
    }
}

// The sentence of a code.
fn sentence(code: &str) -> &'static str
    ensures { result.now ≡ sentence_of code.now }
{
    match sentence_by_code(code) {
        Some(sentence) => sentence.text,
        None => "",
    }
}

/// One line.
impl fmt::Display for Explained {
    ghost output = { λ explained. Some (explained_text explained) };

    fn fmt<W: fmt::Write>(&self, f: &mut fmt::Formatter<W>) -> fmt::Result {
        let Named { code, place } = Named::of(self.fault, self.clue.weights_line);
        let sentence = self.sentence();
        writeln!(f, "cmisctl: {code}{place}: {sentence} (docs/faults.md)")
    }
}

/// A line, several or none.
impl fmt::Display for Remark {
    ghost output = { remark_text };

    fn fmt<W: fmt::Write>(&self, f: &mut fmt::Formatter<W>) -> fmt::Result {
        match self {
            Remark::Nothing => Ok(()),
            Remark::Unwritten => {
                let sentence = sentence("output");
                writeln!(f, "cmisctl: {sentence} (docs/faults.md)")
            }
            Remark::NoMemory => {
                let sentence = sentence("memory");
                writeln!(f, "cmisctl: memory: {sentence} (docs/faults.md)")
            }
            Remark::Refused(explained) => write!(f, "{explained}"),
            Remark::Foreseen(path, explained) => {
                let path = InactivePath(*path);
                write!(f, "{path}{explained}")
            }
            Remark::Warned(warnings) => write!(f, "{warnings}"),
        }
    }
}
