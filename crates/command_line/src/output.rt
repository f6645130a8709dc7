//! Writing the program's output.
ghost use Rattle.std.specs.Prelude.{◌≡◌, true, Ok, Err, is_err};
ghost use Rattle.command_line.specs.StoppingWriter.{contents_of, writing_failed};
ghost use Rattle.command_line.specs.FaultForms.{fault_in, output_in};
ghost use Rattle.command_line.specs.Runs.{IsWritten, answer_of, ended};

mod fault_form;
mod one_write;
mod reading_fault;
mod stopping_writer;

use crate::command_output::CommandOutput;
use crate::fault::Fault;
use crate::reported_fault::ReportedFault;
use crate::status::Status;
pub use fault_form::FaultForm;
use reading_fault::ReadingFault;
use std::io;
use std::io::Write;
pub use stopping_writer::StoppingWriter;
use text_lines::ToWords;
use thiserror::Error;

/// A write or the flush failed.
#[derive(Clone, Copy, Debug, PartialEq, Eq, Drop, Error)]
#[error("a write failed")]
pub struct OutputFault;

impl From<io::Error> for OutputFault {
    fn from(_error: io::Error) -> OutputFault {
        OutputFault
    }
}

/// Writes an answer, a text or a fault or both, the fault in this form, and answers how the program ends.
pub fn write_answer<W: Write>(
    writer: &mut StoppingWriter<W>,
    answer: &Result<CommandOutput, Fault>,
    form: &FaultForm,
) -> Status
    ensures written { IsWritten (output_in form.now (answer_of answer.now)) (answer_of answer.now)
        (contents_of W.contents writer.old) (contents_of W.contents writer.new) (writing_failed writer.new) result }
    ensures stopped { writing_failed writer.old ≡ true → writer.new ≡ writer.old }
{
    match answer {
        Ok(output) => write_output(writer, output, form),
        Err(fault) => write_fault(writer, *fault, form),
    }
}

fn write_output<W: Write>(
    writer: &mut StoppingWriter<W>,
    output: &CommandOutput,
    form: &FaultForm,
) -> Status
    ensures written { IsWritten (output_in form.now (Ok (output.now.text.items, output.now.fault)))
        (Ok (output.now.text.items, output.now.fault))
        (contents_of W.contents writer.old) (contents_of W.contents writer.new) (writing_failed writer.new) result }
    ensures stopped { writing_failed writer.old ≡ true → writer.new ≡ writer.old }
{
    if let Err(OutputFault) = writer.put(&output.text) {
        return Status::ReadOrWrite;
    }
    match output.fault {
        None => Status::Done,
        Some(ReportedFault::Metrics(fault)) => Fault::from(fault).status(),
        Some(ReportedFault::Procedure(fault, _)) => match form {
            FaultForm::Line => write_fault(writer, Fault::Provision(fault), form),
            FaultForm::Json(_) => Status::NotProvisioned,
            FaultForm::Ready => Status::NotProvisioned,
        },
    }
}

/// Writes a fault in this form, and answers how the program ends.
pub fn write_fault<W: Write>(
    writer: &mut StoppingWriter<W>,
    fault: Fault,
    form: &FaultForm,
) -> Status
    ensures written { IsWritten (fault_in form.now fault) (Err fault)
        (contents_of W.contents writer.old) (contents_of W.contents writer.new) (writing_failed writer.new) result }
    ensures stopped { writing_failed writer.old ≡ true → writer.new ≡ writer.old }
{
    let status = fault.status();
    match form {
        FaultForm::Line => {
            let line = fault.to_words().line_after(fault.word());
            ended(writer.put(line.as_slice()), status)
        }
        FaultForm::Json(text) => ended(writer.put(text), status),
        FaultForm::Ready => ended(writer.put_text(ReadingFault(fault)), status),
    }
}

/// How the program ends once this was written.
pub fn ended(written: Result<(), OutputFault>, status: Status) -> Status
    ensures { result ≡ ended (is_err written) status }
{
    match written {
        Ok(()) => status,
        Err(OutputFault) => Status::ReadOrWrite,
    }
}
