//! How the fault of an answer is written.
ghost use Rattle.std.specs.Prelude.{◌≡◌, IfOk};
ghost use Rattle.report_entries.specs.EntryJson.{json_text};
ghost use Rattle.command_line.specs.FaultForms.{fault_in, form_of_reading, output_in};
ghost use Rattle.command_line.specs.FaultTexts.{fault_tree};
ghost use Rattle.command_line.specs.Runs.{answer_of, output_of};

use crate::command_output::CommandOutput;
use crate::fault::Fault;
use crate::remark::{Clue, Explained};
use plan_reports::{bad_json, fault_json};
use std::alloc::{AllocError, Global};
use text_lines::ToWords;

/// How the fault of an answer is written, if it has one.
#[derive(Drop)]
pub enum FaultForm {
    /// As a line.
    Line,
    /// As this JSON.
    Json(Vec<u8>),
    /// As JSON that needs no memory, since the fault is one of reading; or the text of the answer has it already.
    Ready,
}

impl FaultForm {
    /// That of a fault of reading.
    pub fn of_reading(is_json: bool) -> FaultForm
        ensures { result ≡ form_of_reading is_json }
    {
        if is_json {
            FaultForm::Ready
        } else {
            FaultForm::Line
        }
    }

    /// That of an answer, by what its input tells beside it.
    pub fn of(
        alloc: Global,
        is_json: bool,
        answer: &Result<CommandOutput, Fault>,
        clue: Clue,
    ) -> Result<FaultForm, AllocError>
        ensures { IfOk result (λ form.
            output_in form (answer_of answer.now) ≡ output_of is_json clue.opening (answer_of answer.now)) }
    {
        if !is_json {
            return Ok(FaultForm::Line);
        }
        match answer {
            Ok(_) => Ok(FaultForm::Ready),
            Err(fault) => json_form(alloc, *fault, clue),
        }
    }
}

// That of a fault as JSON.
fn json_form(alloc: Global, fault: Fault, clue: Clue) -> Result<FaultForm, AllocError>
    ensures { IfOk result (λ form. fault_in form fault ≡ json_text (fault_tree fault clue.opening)) }
{
    if fault.is_of_reading() {
        return Ok(FaultForm::Ready);
    }
    Ok(FaultForm::Json(json_of(alloc, fault, clue)?))
}

// The JSON of a fault.
fn json_of(alloc: Global, fault: Fault, clue: Clue) -> Result<Vec<u8>, AllocError>
    ensures { IfOk result (λ text. text.items ≡ json_text (fault_tree fault clue.opening)) }
{
    let printed = fault.to_words();
    let sentence = Explained { fault, clue }.sentence();
    match fault {
        Fault::Bad(..) => bad_json(alloc, printed.words(), sentence),
        _ => fault_json(alloc, printed.words(), sentence),
    }
}
