ghost use Rattle.std.specs.Prelude.{◌≢◌, IfErr, List, Option, ℕ};
ghost use Rattle.observable_reports.specs.Details.{details_text};
ghost use Rattle.reports.specs.Details.{details_fault};
ghost use Rattle.reports.specs.Families.{detail_fault};
ghost use Rattle.reports.specs.declared.fault.ReportFault.{ReportFault};
ghost use Rattle.command_line.specs.Coloring.{shown_as};
ghost use Rattle.command_line.specs.ReportCommands.{IsDetailsAnswer, IsObservablesAnswer, IsReportAnswer, IsReportedAs, Prints, observed_text, printed_of, refusal_of, text_unless};
ghost use Rattle.command_line.specs.Runs.{IsOwnAnswer, answer_of};

use super::over_bus::{image_to_observe, image_to_report};
use crate::choice::commands::ReportName;
use crate::choice::options::Options;
use crate::command_output::CommandOutput;
use crate::fault::Fault;
use crate::remark::Warnings;
use observable_reports::{details, details_json, observables, observables_json};
use paged_memory::Image;
use reports::ReportFault;
use std::alloc::Global;

/// The report of this name, of the module of the image or of what is read of it over a bus, as text or as JSON.
pub fn report(
    alloc: Global,
    name: ReportName,
    options: &Options,
    image: &[u8],
) -> Result<CommandOutput, Fault>
    ensures answer { IsOwnAnswer (IsReportAnswer name options.now image.now) (answer_of result) }
    ensures read { IfErr result (λ fault. fault ≢ Fault.Io) }
{
    let image = image_to_report(alloc, image, options.bus)?;
    let printed = printed(alloc, name, options.json, &image.view());
    report_output(alloc, options, printed)
}

/// All that the module of the image says of itself, or what is read of that over a bus, as text or as JSON.
pub fn print_details(alloc: Global, options: &Options, image: &[u8]) -> Result<CommandOutput, Fault>
    ensures answer { IsOwnAnswer (IsDetailsAnswer options.now image.now) (answer_of result) }
    ensures read { IfErr result (λ fault. fault ≢ Fault.Io) }
{
    let image = image_to_observe(alloc, image, options.bus)?;
    let printed = detailed(alloc, options.json, &image.view());
    report_output(alloc, options, printed)
}

/// All that the module of the image measures, or what is read of that over a bus, as text or as JSON.
pub fn print_observables(
    alloc: Global,
    options: &Options,
    image: &[u8],
) -> Result<CommandOutput, Fault>
    ensures answer { IsOwnAnswer (IsObservablesAnswer options.now image.now) (answer_of result) }
    ensures read { IfErr result (λ fault. fault ≢ Fault.Io) }
{
    let image = image_to_observe(alloc, image, options.bus)?;
    let printed = observed(alloc, options.json, &image.view());
    report_output(alloc, options, printed)
}

// The output if this was printed of an image: that as it is shown, or why there is none.
fn report_output(
    alloc: Global,
    options: &Options,
    printed: Result<Vec<u8>, ReportFault>,
) -> Result<CommandOutput, Fault>
    ensures output { (refused : Option ReportFault) (text : List ℕ) → Prints refused text printed
        → IsReportedAs (text_unless refused (shown_as options.now.coloring options.now.json text)) (answer_of result) }
    ensures read { IfErr result (λ fault. fault ≢ Fault.Io) }
{
    let text = options.coloring.shown(alloc, options.json, printed?)?;
    Ok(CommandOutput {
        text,
        fault: None,
        warnings: Warnings::none(),
    })
}

#[tactic(auto, unfolding(reports::specs::Reports::report_lines))]
fn printed(
    alloc: Global,
    name: ReportName,
    is_json: bool,
    image: &Image,
) -> Result<Vec<u8>, ReportFault>
    ensures { Prints (refusal_of name image.now) (printed_of name is_json image.now) result }
{
    match (name, is_json) {
        (ReportName::Inventory, false) => reports::inventory(alloc, image),
        (ReportName::Inventory, true) => reports::inventory_json(alloc, image),
        (ReportName::Apps, false) => reports::apps(alloc, image),
        (ReportName::Apps, true) => reports::apps_json(alloc, image),
        (ReportName::Monitors, false) => reports::monitors(alloc, image),
        (ReportName::Monitors, true) => reports::monitors_json(alloc, image),
        (ReportName::Flags, false) => reports::flags(alloc, image),
        (ReportName::Flags, true) => reports::flags_json(alloc, image),
    }
}

fn detailed(alloc: Global, is_json: bool, image: &Image) -> Result<Vec<u8>, ReportFault>
    ensures { Prints (details_fault image.now) (details_text is_json image.now) result }
{
    if is_json {
        details_json(alloc, image)
    } else {
        details(alloc, image)
    }
}

fn observed(alloc: Global, is_json: bool, image: &Image) -> Result<Vec<u8>, ReportFault>
    ensures { Prints (detail_fault image.now) (observed_text is_json image.now) result }
{
    if is_json {
        observables_json(alloc, image)
    } else {
        observables(alloc, image)
    }
}
