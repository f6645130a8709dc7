//! One run of the whole program.
ghost use Rattle.std.specs.Prelude.{◌≡◌};
ghost use Rattle.command_line.specs.Runs.{ending_after};
ghost use Rattle.command_line.specs.StoppingWriter.{writing_failed};
ghost use Rattle.command_line.specs.Program.{IsProgramRun, IsRemarkWritten, IsRequestIn, refusal_remark, words_of};

use crate::choice::commands::Request;
use crate::choice::fault::{ChoiceFault, choice_refused};
use crate::choice::request;
use crate::commands;
use crate::input::CountedReader;
use crate::output::StoppingWriter;
use crate::remark::Remark;
use crate::status::Status;
use std::alloc::Global;
use std::io;
use std::io::{Read, Write};

/// Does what the words of the command line ask for, or says why it does not, and answers how the program ends. The
/// first word is the program's name; a report is colored by itself where the terminal shows colors. What standard error says comes last, and changes neither the answer nor the status.
pub fn run<R: Read, W: Write, E: Write>(
    alloc: Global,
    words: io::Result<Vec<String>>,
    shows_colors: bool,
    reader: &mut CountedReader<R>,
    writer: &mut StoppingWriter<W>,
    errors: &mut StoppingWriter<E>,
) -> Status
    ensures { (remark : Remark) × IsProgramRun R.remaining W.contents shows_colors (words_of words)
        reader.old reader.new writer.old writer.new record { status = result; remark = remark }
        × IsRemarkWritten E.contents remark errors.old errors.new }
{
    let mut remark = Remark::Nothing;
    let status = run_words(alloc, words, shows_colors, reader, writer, &mut remark);
    if writer.has_failed() {
        remark = Remark::Unwritten;
    }
    write_remark(&remark, errors);
    status
}

/// Writes a remark, if it can be written.
fn write_remark<E: Write>(remark: &Remark, errors: &mut StoppingWriter<E>)
    ensures { IsRemarkWritten E.contents remark.now errors.old errors.new }
{
    let _written = errors.put_text(remark);
}

/// Does what the words ask for, or says why it does not, and notes the remark beside it.
fn run_words<R: Read, W: Write>(
    alloc: Global,
    words: io::Result<Vec<String>>,
    shows_colors: bool,
    reader: &mut CountedReader<R>,
    writer: &mut StoppingWriter<W>,
    remark: &mut Remark,
) -> Status
    ensures { IsProgramRun R.remaining W.contents shows_colors (words_of words)
        reader.old reader.new writer.old writer.new (ending_after (writing_failed writer.new) result remark.new) }
{
    match requested(alloc, words) {
        Ok(request) => {
            commands::run(
                alloc,
                request.on_screen(shows_colors),
                reader,
                writer,
                remark,
            )
        }
        Err(fault) => {
            let status = choice_refused(&fault, writer);
            *remark = refusal_remark(status);
            status
        }
    }
}

/// What the words ask for, if they could be read.
fn requested(alloc: Global, words: io::Result<Vec<String>>) -> Result<Request, ChoiceFault>
    ensures { IsRequestIn (words_of words) result }
{
    let words = words?;
    request(alloc, words.as_slice())
}

/// The remark beside a refusal that ends with this status.
fn refusal_remark(status: Status) -> Remark
    ensures { result ≡ refusal_remark status }
{
    match status {
        Status::Memory => Remark::NoMemory,
        _ => Remark::Nothing,
    }
}
