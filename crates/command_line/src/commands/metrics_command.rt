ghost use Rattle.std.specs.Prelude.{◌≡◌, ◌≢◌, IfErr, Ok, Err, option_map};
ghost use Rattle.command_line.specs.MetricsCommand.{IsMetricsAnswer, metrics_reported};
ghost use Rattle.command_line.specs.ReportCommands.{IsReportedAs};
ghost use Rattle.command_line.specs.Runs.{IsOwnAnswer, answer_of};

use super::over_bus::image_to_observe;
use crate::choice::options::Options;
use crate::command_output::CommandOutput;
use crate::fault::Fault;
use crate::remark::Warnings;
use crate::reported_fault::ReportedFault;
use module_metrics::{Answer, fault_metrics, metrics};
use paged_memory::Image;
use reports::ReportFault;
use std::alloc::Global;

/// What the reports of the module of an image say and what it lists itself (VDM), or the same of what is read of it over a bus, as metrics with
/// these labels. Of its flags those that are raised are reported, or all.
pub fn print_metrics(alloc: Global, options: &Options, image: &[u8]) -> Result<CommandOutput, Fault>
    ensures answer { IsOwnAnswer (IsMetricsAnswer options.now image.now) (answer_of result) }
    ensures read { IfErr result (λ fault. fault ≢ Fault.Io) }
{
    match image_to_observe(alloc, image, options.bus) {
        Ok(image) => of_image(alloc, options, &image.view()),
        Err(Fault::Report(fault)) => of_fault(alloc, options, fault),
        Err(fault) => Err(fault),
    }
}

// Those of an image, of whose reports one may have a fault.
fn of_image(alloc: Global, options: &Options, image: &Image) -> Result<CommandOutput, Fault>
    ensures output { IsReportedAs (metrics_reported options.now (Ok image.now)) (answer_of result) }
    ensures read { IfErr result (λ fault. fault ≢ Fault.Io) }
{
    let Answer { text, fault } = metrics(alloc, image, &options.labels, options.all_flags)?;
    Ok(CommandOutput {
        text,
        fault: reported(fault),
        warnings: Warnings::none(),
    })
}

// There is no image to report on, since reading it ended with this fault.
fn of_fault(alloc: Global, options: &Options, fault: ReportFault) -> Result<CommandOutput, Fault>
    ensures output { IsReportedAs (metrics_reported options.now (Err fault)) (answer_of result) }
    ensures read { IfErr result (λ fault. fault ≢ Fault.Io) }
{
    Ok(CommandOutput {
        text: fault_metrics(alloc, fault, &options.labels)?,
        fault: reported(Some(fault)),
        warnings: Warnings::none(),
    })
}

fn reported(fault: Option<ReportFault>) -> Option<ReportedFault>
    ensures { result ≡ option_map ReportedFault.Metrics fault }
{
    fault.map(ReportedFault::Metrics)
}
