ghost use Rattle.std.specs.Prelude.{◌≡◌, ◌≢◌, IfErr, IfOk, option_map};
ghost use Rattle.text_lines.specs.Lines.{text_of};
ghost use Rattle.command_line.specs.Inputs.{inputs_of};
ghost use Rattle.command_line.specs.ProvisionCommand.{IsProcedureAnswer, steps_lines, procedure_output, procedure_text, procedure_tree};
ghost use Rattle.report_entries.specs.EntryJson.{json_text};
ghost use Rattle.command_line.specs.Runs.{IsOwnAnswer, answer_of};

use super::inputs::Inputs;
use super::outcome::{outcome_fault, outcome_of, push_outcome};
use super::session::{Session, carry_out, set_up};
use crate::choice::options::Options;
use crate::command_output::CommandOutput;
use crate::fault::Fault;
use crate::remark::Explained;
use crate::reported_fault::ReportedFault;
use bus_model::Step;
use control_sets::ProvisionFault;
use plan_certificate::Path;
use plan_reports::{Outcome, procedure_json, trace_text};
use std::alloc::{AllocError, Global};
use text_lines::ToWords;

/// How the plan that is given was provisioned, after waking the module up and before activation if these are asked for: how many
/// steps were made and the control bytes that are active, or the fault, after each step, if these are shown.
pub fn provision(
    alloc: Global,
    is_traced: bool,
    options: &Options,
    inputs: &Inputs<'_>,
) -> Result<CommandOutput, Fault>
    ensures answer { IsOwnAnswer (IsProcedureAnswer is_traced options.now (inputs_of inputs.now)) (answer_of result) }
    ensures read { IfErr result (λ fault. fault ≢ Fault.Io) }
{
    let Session {
        advert,
        plan,
        kept,
        inactive,
        warnings,
        mut bus,
    } = set_up(alloc, options.conventions, inputs)?;
    let results = carry_out(
        &mut bus,
        &advert,
        &plan,
        &kept,
        options.wake,
        options.activate,
    );
    let outcome = outcome_of(results, bus.device().active());
    let fault = outcome_fault(results);
    Ok(CommandOutput {
        text: output(alloc, options.json, is_traced, bus.steps(), outcome, fault)?,
        fault: reported(fault, inactive),
        warnings,
    })
}

fn reported(fault: Option<ProvisionFault>, inactive: Option<Path>) -> Option<ReportedFault>
    ensures { result ≡ option_map (λ f. ReportedFault.Procedure f inactive) fault }
{
    fault.map(|fault| ReportedFault::Procedure(fault, inactive))
}

// What is reported of steps, of what came of them, and of a fault.
fn output(
    alloc: Global,
    is_json: bool,
    is_traced: bool,
    steps: &[Step],
    outcome: Outcome,
    fault: Option<ProvisionFault>,
) -> Result<Vec<u8>, AllocError>
    ensures { IfOk result (λ text. text.items ≡ procedure_output is_json is_traced steps.now outcome fault) }
{
    if is_json {
        json(alloc, is_traced, steps, outcome, fault)
    } else {
        text(alloc, is_traced, steps, outcome)
    }
}

fn text(
    alloc: Global,
    is_traced: bool,
    steps: &[Step],
    outcome: Outcome,
) -> Result<Vec<u8>, AllocError>
    ensures { IfOk result (λ text. text.items ≡ procedure_text is_traced steps.now outcome) }
{
    let mut text = steps_text(alloc, is_traced, steps)?;
    push_outcome(&mut text, outcome)?;
    Ok(text)
}

// The fault is the last member.
fn json(
    alloc: Global,
    is_traced: bool,
    steps: &[Step],
    outcome: Outcome,
    fault: Option<ProvisionFault>,
) -> Result<Vec<u8>, AllocError>
    ensures { IfOk result (λ text. text.items ≡ json_text (procedure_tree is_traced steps.now outcome fault)) }
{
    match fault {
        None => procedure_json(alloc, is_traced, steps, outcome, &[], ""),
        Some(fault) => {
            let fault = Fault::Provision(fault);
            let printed = fault.to_words();
            let sentence = Explained::of(fault).sentence();
            procedure_json(alloc, is_traced, steps, outcome, printed.words(), sentence)
        }
    }
}

// The steps, if they are shown.
fn steps_text(alloc: Global, is_traced: bool, steps: &[Step]) -> Result<Vec<u8>, AllocError>
    ensures { IfOk result (λ text. text.items ≡ text_of (steps_lines is_traced steps.now)) }
{
    if is_traced {
        trace_text(alloc, steps)
    } else {
        Ok(Vec::new(alloc))
    }
}
