// What all commands do: read the input, cut it into parts, answer them, and write the answer.
ghost use Rattle.std.specs.Prelude.{◌≡◌, ◌≢◌, ◌≤◌, length, Err, IfErr, IfSome};
ghost use Rattle.command_line.specs.Commands.{IsAnswerOf, IsAnswerToInputs};
ghost use Rattle.command_line.specs.CountedReader.{reading_failed, reads_of, remaining_of};
ghost use Rattle.command_line.specs.Input.{TakesWithinLimit};
ghost use Rattle.command_line.specs.Limits.{input_limit, read_limit};
ghost use Rattle.command_line.specs.Inputs.{inputs_of};
ghost use Rattle.command_line.specs.Runs.{IsCommandRun, IsOwnAnswer, IsReadingFailure, answer_of, clue_beside, ending_after, output_of};
ghost use Rattle.command_line.specs.StoppingWriter.{writing_failed};
ghost use Rattle.command_line.specs.FaultForms.{output_in};

use super::check_command::check;
use super::inputs::Inputs;
use super::metrics_command::print_metrics;
use super::plan_command::plan;
use super::provision_command::provision;
use super::report_commands::{print_details, print_observables, report};
use crate::choice::commands::{CommandName, Request};
use crate::command_output::CommandOutput;
use crate::fault::Fault;
use crate::input::{CountedReader, read_input};
use crate::output::{FaultForm, StoppingWriter, write_answer};
use crate::parts::parts;
use crate::remark::{Clue, Remark};
use crate::status::Status;
use std::alloc::Global;
use std::io::{Read, Write};

/// Reads the whole input, writes what the command that was chosen answers to it, and notes the remark beside it.
pub fn run<R: Read, W: Write>(
    alloc: Global,
    request: Request,
    reader: &mut CountedReader<R>,
    writer: &mut StoppingWriter<W>,
    remark: &mut Remark,
) -> Status
    ensures { IsCommandRun R.remaining W.contents request.options.json (IsAnswerOf request)
        reader.old reader.new writer.old writer.new (ending_after (writing_failed writer.new) result remark.new) }
{
    let Reply { answer, clue, form } = read_and_answer(alloc, &request, reader);
    *remark = Remark::beside(&answer, clue);
    write_answer(writer, &answer, &form)
}

/// An answer, what its input tells beside its fault, and how the fault is written.
#[derive(Drop)]
struct Reply {
    answer: Result<CommandOutput, Fault>,
    clue: Clue,
    form: FaultForm,
}

// The answer to what is read.
#[tactic(auto, using(crate::proofs::FaultForms::of_reading))]
fn read_and_answer<R: Read>(
    alloc: Global,
    request: &Request,
    reader: &mut CountedReader<R>,
) -> Reply
    ensures reads { reads_of reader.new ≤ read_limit }
    ensures taken { TakesWithinLimit (remaining_of R.remaining reader.old)
        (remaining_of R.remaining reader.new) (result.answer ≡ Err Fault.TooLong) }
    ensures reading { IsReadingFailure (reading_failed reader.new) (answer_of result.answer) }
    ensures answer { IfSome (remaining_of R.remaining reader.old)
        (λ input. IsAnswerOf request.now input (answer_of result.answer)) }
    ensures clue { IfSome (remaining_of R.remaining reader.old)
        (λ input. result.clue ≡ clue_beside (answer_of result.answer) input) }
    ensures output { output_in result.form (answer_of result.answer)
        ≡ output_of request.now.options.json result.clue.opening (answer_of result.answer) }
{
    let input = match read_input(alloc, reader) {
        Ok(input) => input,
        Err(fault) => {
            return Reply {
                answer: Err(fault),
                clue: Clue::none(),
                form: FaultForm::of_reading(request.options.json),
            };
        }
    };
    answered(alloc, request, &input)
}

// The answer to an input that was read; if there is no memory for the form of its fault, that is the answer.
#[tactic(auto, using(crate::proofs::FaultForms::of_reading))]
fn answered(alloc: Global, request: &Request, input: &[u8]) -> Reply
    requires limit { length input.now ≤ input_limit }
    ensures answer { IsAnswerOf request.now input.now (answer_of result.answer) }
    ensures read { IfErr result.answer (λ fault. fault ≢ Fault.Io) }
    ensures length { IfErr result.answer (λ fault. fault ≢ Fault.TooLong) }
    ensures clue { result.clue ≡ clue_beside (answer_of result.answer) input.now }
    ensures output { output_in result.form (answer_of result.answer)
        ≡ output_of request.now.options.json result.clue.opening (answer_of result.answer) }
{
    let answer = answer(alloc, request, input);
    let clue = Clue::of(&answer, input);
    match FaultForm::of(alloc, request.options.json, &answer, clue) {
        Ok(form) => Reply { answer, clue, form },
        Err(error) => Reply {
            answer: Err(Fault::from(error)),
            clue: Clue::none(),
            form: FaultForm::of_reading(request.options.json),
        },
    }
}

fn answer(alloc: Global, request: &Request, input: &[u8]) -> Result<CommandOutput, Fault>
    requires limit { length input.now ≤ input_limit }
    ensures answer { IsAnswerOf request.now input.now (answer_of result) }
    ensures read { IfErr result (λ fault. fault ≢ Fault.Io) }
    ensures length { IfErr result (λ fault. fault ≢ Fault.TooLong) }
{
    let read = request.command.parts(request.options.keep);
    let texts = parts(input, read.len())?;
    let inputs = Inputs::of(read, texts.as_slice());
    answer_to(alloc, request, &inputs)
}

// What the command itself answers to its inputs.
fn answer_to(alloc: Global, request: &Request, inputs: &Inputs<'_>) -> Result<CommandOutput, Fault>
    ensures answer { IsOwnAnswer (IsAnswerToInputs request.now.command request.now.options (inputs_of inputs.now)) (answer_of result) }
    ensures read { IfErr result (λ fault. fault ≢ Fault.Io) }
{
    let options = &request.options;
    match request.command {
        CommandName::Report(name) => report(alloc, name, options, inputs.image),
        CommandName::Details => print_details(alloc, options, inputs.image),
        CommandName::Observables => print_observables(alloc, options, inputs.image),
        CommandName::Metrics => print_metrics(alloc, options, inputs.image),
        CommandName::Plan => plan(alloc, false, options, inputs),
        CommandName::Draw => plan(alloc, true, options, inputs),
        CommandName::Check => check(alloc, options, inputs),
        CommandName::Provision => provision(alloc, false, options, inputs),
        CommandName::Trace => provision(alloc, true, options, inputs),
    }
}
