ghost use Rattle.std.specs.Prelude.{◌≢◌, IfErr, IfOk};
ghost use Rattle.plan_certificate.specs.Plans.{IsAdmissible};
ghost use Rattle.command_line.specs.Inputs.{inputs_of};
ghost use Rattle.command_line.specs.PlanCommand.{IsPlanAnswer, IsPlanOutput, IsPlanReportFor};
ghost use Rattle.command_line.specs.Runs.{IsOwnAnswer, answer_of};

use super::inputs::Inputs;
use super::planning_inputs::Planning;
use crate::choice::options::Options;
use crate::command_output::CommandOutput;
use crate::fault::Fault;
use crate::remark::Warnings;
use applications::AppWeights;
use field_tables::{field, number};
use lane_planner::{Problem, Solution};
use plan_drawing::draw;
use plan_reports::plan_json;
use std::alloc::{AllocError, Global};

/// The plan that weighs most of those that keep the kept paths: its certificate, or, as JSON, the plan alone; or its drawing, as text
/// or as an SVG.
pub fn plan(
    alloc: Global,
    draws: bool,
    options: &Options,
    inputs: &Inputs<'_>,
) -> Result<CommandOutput, Fault>
    ensures answer { IsOwnAnswer (IsPlanAnswer draws options.now (inputs_of inputs.now)) (answer_of result) }
    ensures read { IfErr result (λ fault. fault ≢ Fault.Io) }
{
    let planning = Planning::read(alloc, options.conventions, inputs)?;
    let (text, has_paths) = output_of(alloc, draws, options, &planning)?;
    let warnings = Warnings::of(&planning.advert, &planning.weights, has_paths);
    Ok(CommandOutput {
        text,
        fault: None,
        warnings,
    })
}

// What is printed of the plan, and whether it has paths.
fn output_of(
    alloc: Global,
    draws: bool,
    options: &Options,
    planning: &Planning,
) -> Result<(Vec<u8>, bool), AllocError>
    requires { IsAdmissible planning.now.advert planning.now.kept }
    ensures { IfOk result (λ output. IsPlanOutput draws options.now planning.now output.0.items) }
{
    let weighed = AppWeights::of(&planning.advert, &planning.weights);
    let problem = Problem {
        advert: &planning.advert,
        weights: &weighed,
        kept: &planning.kept,
    };
    if draws {
        let media_type = number(&planning.image.view(), field!(Cmis MediaType));
        let drawing = draw(alloc, options.svg, media_type, &problem)?;
        Ok((drawing.text, drawing.has_paths))
    } else {
        planned(alloc, options.json, &problem)
    }
}

// As its certificate, or as JSON.
fn planned(alloc: Global, is_json: bool, problem: &Problem) -> Result<(Vec<u8>, bool), AllocError>
    requires { IsAdmissible problem.now.advert.now problem.now.kept.now }
    ensures { IfOk result (λ output. IsPlanReportFor is_json problem.now.advert.now problem.now.weights.now problem.now.kept.now output.0.items) }
{
    let mut solution = Solution::blank();
    solution.solve(problem);
    let has_paths = !solution.plan.paths.is_empty();
    if is_json {
        let text = plan_json(alloc, problem, &solution.plan)?;
        Ok((text, has_paths))
    } else {
        let text = solution.text(alloc, problem)?;
        Ok((text, has_paths))
    }
}
