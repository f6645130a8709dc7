ghost use Rattle.std.specs.Prelude.{◌≡◌, ◌≢◌, ◌++◌, IfErr, IfOk, Ok, OnOk};
ghost use Rattle.applications.specs.WeightFaults.{IsAnswer};
ghost use Rattle.text_lines.specs.Lines.{text_of};
ghost use Rattle.plan_certificate.specs.Certificates.{IsGood};
ghost use Rattle.command_line.specs.CheckCommand.{IsCheckAnswer, IsFirstNoted, IsGoodReport, first_lines, good_lines, kept_lines};
ghost use Rattle.command_line.specs.Inputs.{inputs_of};
ghost use Rattle.command_line.specs.PlanningInputs.{IsAdvertText};
ghost use Rattle.command_line.specs.Runs.{IsOwnAnswer, answer_of};

use super::inputs::Inputs;
use super::planning_inputs::read_advert;
use crate::choice::options::Options;
use crate::command_output::CommandOutput;
use crate::fault::Fault;
use crate::remark::Warnings;
use applications::{Advert, AppWeights, Weights};
use lane_planner::{Problem, first_best};
use plan_certificate::{Certificate, STATES, Verdict};
use plan_reports::{good_json, plan_text};
use std::alloc::{AllocError, Global};
use text_lines::ToWords;

/// Whether the certificate is good, and if it is, its plan, and whether that is the first of the best, if that is asked for.
pub fn check(alloc: Global, options: &Options, inputs: &Inputs<'_>) -> Result<CommandOutput, Fault>
    ensures answer { IsOwnAnswer (IsCheckAnswer options.now (inputs_of inputs.now)) (answer_of result) }
    ensures read { IfErr result (λ fault. fault ≢ Fault.Io) }
{
    let advert = read_advert(options.conventions, inputs.image)?;
    let weights = Weights::read(alloc, inputs.weights)?;
    judged(alloc, options, &advert, &weights, inputs)
}

// What is reported of the certificate. A function of its own, since a certificate has room for all states, which is blanked
// when the function begins.
#[inline(never)]
fn judged(
    alloc: Global,
    options: &Options,
    advert: &Advert,
    weights: &Weights,
    inputs: &Inputs<'_>,
) -> Result<CommandOutput, Fault>
    requires advert { IsAdvertText options.now.conventions inputs.now.image.now advert.now }
    requires weights { IsAnswer inputs.now.weights.now (Ok weights.now) }
    ensures answer { IsOwnAnswer (IsCheckAnswer options.now (inputs_of inputs.now)) (answer_of result) }
    ensures read { IfErr result (λ fault. fault ≢ Fault.Io) }
{
    let weighed = AppWeights::of(advert, weights);
    let mut read = Certificate::<STATES>::blank();
    match read.take(inputs.certificate) {
        Ok(()) => match plan_certificate::check(advert, &weighed, &read) {
            Verdict::Good => Ok(CommandOutput {
                text: good_output(alloc, options.json, options.first, advert, &weighed, &read)?,
                fault: None,
                warnings: Warnings::of(advert, weights, !read.plan.paths.is_empty()),
            }),
            Verdict::Bad(reason, number) => Err(Fault::Bad(reason, number)),
        },
        Err(fault) => Err(Fault::Certificate(fault)),
    }
}

// What is reported of a good certificate.
fn good_output(
    alloc: Global,
    is_json: bool,
    wants_first: bool,
    advert: &Advert,
    weights: &AppWeights,
    certificate: &Certificate<'_, STATES>,
) -> Result<Vec<u8>, AllocError>
    requires { IsGood advert.now weights.now certificate.now }
    ensures { IfOk result (λ text. IsGoodReport is_json wants_first advert.now weights.now certificate.now text.items) }
{
    let is_first = first_if_wanted(wants_first, advert, weights, certificate);
    if is_json {
        let problem = Problem {
            advert,
            weights,
            kept: &certificate.kept,
        };
        good_json(alloc, is_first, &problem, &certificate.plan)
    } else {
        good_text(alloc, is_first, advert, weights, certificate)
    }
}

// Whether the plan is the first of the best, if that is asked for.
fn first_if_wanted(
    wants_first: bool,
    advert: &Advert,
    weights: &AppWeights,
    certificate: &Certificate<'_, STATES>,
) -> Option<bool>
    requires { IsGood advert.now weights.now certificate.now }
    ensures { IsFirstNoted wants_first advert.now weights.now certificate.now result }
{
    if wants_first {
        Some(first_best(advert, weights, certificate))
    } else {
        None
    }
}

fn good_text(
    alloc: Global,
    is_first: Option<bool>,
    advert: &Advert,
    weights: &AppWeights,
    certificate: &Certificate<'_, STATES>,
) -> Result<Vec<u8>, AllocError>
    requires { IsGood advert.now weights.now certificate.now }
    ensures { IfOk result (λ text. text.items ≡ text_of (good_lines is_first advert.now weights.now certificate.now)) }
{
    let plan = plan_text(alloc, advert, weights, &certificate.plan)?;
    let mut text = b"good\n".to_vec(alloc)?;
    push_kept(&mut text, certificate.kept.paths.len())?;
    text.extend_from_slice(&plan)?;
    push_first(&mut text, is_first)?;
    Ok(text)
}

#[tactic(auto, unfolding(crate::specs::CheckCommand::kept_line))]
fn push_kept(text: &mut Vec<u8>, count: usize) -> Result<(), AllocError>
    ensures { OnOk result (text.new.items ≡ text.old.items ++ text_of (kept_lines count)) }
{
    if count == 0 {
        return Ok(());
    }
    let line = count.to_words().line_after("kept");
    text.extend_from_slice(line.as_slice())
}

#[tactic(auto, unfolding(crate::specs::CheckCommand::first_line))]
fn push_first(text: &mut Vec<u8>, is_first: Option<bool>) -> Result<(), AllocError>
    ensures { OnOk result (text.new.items ≡ text.old.items ++ text_of (first_lines is_first)) }
{
    let line = match is_first {
        None => return Ok(()),
        Some(true) => "first yes\n",
        Some(false) => "first no\n",
    };
    text.extend_from_slice(line.as_bytes())
}
