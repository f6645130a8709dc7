// What is answered to an image.
ghost use Rattle.std.specs.Prelude.{◌≡◌, ◌++◌, [], List, Option, IfErr, IfOk, OnOk, None, Some, get_or, option_map, map};
ghost use Rattle.std.specs.Option.{option_or};
ghost use Rattle.module_decoding.specs.declared.report.Report.TheVariants.{Flags, Monitors};
ghost use Rattle.report_entries.specs.Entries.{Entry as SpecEntry, as_entries, entry_of};
ghost use Rattle.reports.specs.declared.fault.ReportFault.{ReportFault as SpecFault};
ghost use Rattle.reports.specs.declared.fault.ReportFault.TheVariants.{Memory};
ghost use Rattle.reports.specs.Answered.{AreEntries};
ghost use Rattle.reports.specs.Reports.{all_lanes_entries, flags_fault, inventory_entries, inventory_fault, monitors_fault};
ghost use Rattle.module_metrics.specs.AddedLabels.{AreAdded};
ghost use Rattle.module_metrics.specs.Answers.{code_of, fault_text, first_fault, metrics_of, requested_flags};
ghost use Rattle.module_metrics.specs.Unless.{unless};
ghost use Rattle.module_metrics.specs.Exposition.{exposition};
ghost use Rattle.module_metrics.specs.ModuleMetrics.{fault_metrics, module_metrics};
ghost use Rattle.module_metrics.specs.MetricData.{metrics_in};

use crate::exposition;
use crate::labels::Labels;
use crate::metric::{Metric, add_metric, no_metrics, one_label, one_sample};
use crate::module_metrics::{add_entries, add_info, add_sums};
use crate::scale::Scale;
use crate::vdm_metrics::add_listed;
use paged_memory::Image;
use report_entries::{Entry, Flag, TextIn};
use reports::{
    ReportFault, all_lanes_flag_states, all_lanes_flags, all_lanes_monitors, inventory_entries,
};
use std::alloc::{AllocError, Global};
use text_lines::{PrintedWords, ToWords};

/// The metrics of a module, and the first fault of its reports.
#[derive(Drop)]
pub struct Answer {
    pub text: Vec<u8>,
    pub fault: Option<ReportFault>,
}

/// What the reports of the module of an image say, and then what it lists itself (VDM), as metrics whose samples all have these labels.
/// Of its flags those that are raised are told, or all. The only refusal is out of memory: a report that has a fault has no entries, and the first fault is a metric.
#[tactic(auto, unfolding(crate::specs::Answers::metrics_of, crate::specs::Answers::first_fault, crate::specs::MetricData::metrics_in, report_entries::specs::Entries::as_entries))]
pub fn metrics(
    alloc: Global,
    image: &Image,
    labels: &Labels,
    all: bool,
) -> Result<Answer, ReportFault>
    ensures text { IfOk result (λ answer. answer.text.items ≡ exposition labels.now (metrics_of all image.now)) }
    ensures fault { IfOk result (λ answer. answer.fault ≡ first_fault image.now) }
    ensures labels { IfOk result (λ answer. AreAdded labels.now) }
    ensures refused { IfErr result (λ refusal. refusal ≡ Memory) }
{
    let mut fault = None;
    let identity = identity(alloc, image, &mut fault)?;
    let measured = measured(alloc, image, &mut fault)?;
    let warned = warned(alloc, image, &mut fault)?;
    let flags = requested_flags(alloc, image, all)?;
    let mut metrics = module_metrics(alloc, all, &flags, &identity, &measured, &warned, fault)?;
    add_listed(alloc, &mut metrics, image)?;
    Ok(Answer {
        text: exposition::text(alloc, labels.as_slice(), &metrics)?,
        fault,
    })
}

/// The metrics if there is no image to report on, since reading it ended with this fault.
#[tactic(auto, unfolding(crate::specs::Answers::fault_text, crate::specs::MetricData::metrics_in))]
pub fn fault_metrics(
    alloc: Global,
    fault: ReportFault,
    labels: &Labels,
) -> Result<Vec<u8>, AllocError>
    ensures { IfOk result (λ text. text.items ≡ fault_text labels.now fault) }
{
    let mut metrics = no_metrics(alloc);
    add_fault(alloc, &mut metrics, Some(fault))?;
    exposition::text(alloc, labels.as_slice(), &metrics)
}

// What the module is.
fn identity(
    alloc: Global,
    image: &Image,
    first: &mut Option<ReportFault>,
) -> Result<Vec<Entry>, ReportFault>
    ensures entries { IfOk result (λ found. as_entries found ≡ unless (inventory_fault image.now) (inventory_entries image.now)) }
    ensures first { OnOk result (first.new ≡ option_or first.old (inventory_fault image.now)) }
    ensures memory { IfErr result (λ refusal. refusal ≡ Memory) }
{
    entries_or_none(alloc, first, inventory_entries(alloc, image))
}

// What it measures, on the lanes of all banks.
fn measured(
    alloc: Global,
    image: &Image,
    first: &mut Option<ReportFault>,
) -> Result<Vec<Entry>, ReportFault>
    ensures entries { IfOk result (λ found. as_entries found ≡ unless (monitors_fault image.now) (all_lanes_entries Monitors image.now)) }
    ensures first { OnOk result (first.new ≡ option_or first.old (monitors_fault image.now)) }
    ensures memory { IfErr result (λ refusal. refusal ≡ Memory) }
{
    entries_or_none(alloc, first, all_lanes_monitors(alloc, image))
}

// Its states, and the flags that are raised, on the lanes of all banks.
fn warned(
    alloc: Global,
    image: &Image,
    first: &mut Option<ReportFault>,
) -> Result<Vec<Entry>, ReportFault>
    ensures entries { IfOk result (λ found. as_entries found ≡ unless (flags_fault image.now) (all_lanes_entries Flags image.now)) }
    ensures first { OnOk result (first.new ≡ option_or first.old (flags_fault image.now)) }
    ensures memory { IfErr result (λ refusal. refusal ≡ Memory) }
{
    entries_or_none(alloc, first, all_lanes_flags(alloc, image))
}

// The entries of a report, none if it has a fault, which is kept if it is the first.
fn entries_or_none(
    alloc: Global,
    first: &mut Option<ReportFault>,
    report: Result<Vec<Entry>, ReportFault>,
) -> Result<Vec<Entry>, ReportFault>
    ensures entries { (refused : Option SpecFault) (entries : List SpecEntry) → AreEntries refused entries report
        → IfOk result (λ found. as_entries found ≡ unless refused entries) }
    ensures first { (refused : Option SpecFault) (entries : List SpecEntry) → AreEntries refused entries report
        → OnOk result (first.new ≡ option_or first.old refused) }
    ensures memory { IfErr result (λ refusal. refusal ≡ Memory) }
{
    match report {
        Ok(entries) => Ok(entries),
        Err(fault) => match fault {
            ReportFault::Memory => Err(fault),
            _ => {
                keep_first(first, fault);
                Ok(no_entries(alloc))
            }
        },
    }
}

fn keep_first(first: &mut Option<ReportFault>, fault: ReportFault)
    ensures { first.new ≡ option_or first.old (Some fault) }
{
    if first.is_none() {
        *first = Some(fault);
    }
}

#[tactic(auto, unfolding(report_entries::specs::Entries::as_entries))]
fn no_entries(alloc: Global) -> Vec<Entry>
    ensures { as_entries result ≡ [] }
{
    Vec::new(alloc)
}

// All flags, each with whether it is raised, if they are asked for and their report has no fault.
#[tactic(auto, unfolding(crate::specs::Answers::requested_flags))]
fn requested_flags(
    alloc: Global,
    image: &Image,
    all: bool,
) -> Result<Vec<(Flag, bool)>, ReportFault>
    ensures flags { IfOk result (λ flags. flags.items ≡ requested_flags all image.now) }
    ensures memory { IfErr result (λ refusal. refusal ≡ Memory) }
{
    if !all {
        return Ok(Vec::new(alloc));
    }
    match all_lanes_flag_states(alloc, image) {
        Ok(flags) => Ok(flags),
        Err(fault) => match fault {
            ReportFault::Memory => Err(fault),
            _ => Ok(Vec::new(alloc)),
        },
    }
}

#[tactic(auto, unfolding(crate::specs::ModuleMetrics::module_metrics, report_entries::specs::Entries::as_entries))]
fn module_metrics(
    alloc: Global,
    all: bool,
    each_flag: &[(Flag, bool)],
    identity: &[Entry],
    measured: &[Entry],
    warned: &[Entry],
    fault: Option<ReportFault>,
) -> Result<Vec<Metric>, AllocError>
    ensures { IfOk result (λ metrics. metrics_in metrics ≡ module_metrics all each_flag.now (map entry_of identity.now)
        (map entry_of measured.now) (map entry_of warned.now) (option_map code_of fault)) }
{
    let mut metrics = no_metrics(alloc);
    add_info(alloc, &mut metrics, identity)?;
    add_sums(alloc, &mut metrics, identity, measured)?;
    add_entries(alloc, &mut metrics, all, each_flag, identity)?;
    add_entries(alloc, &mut metrics, all, each_flag, measured)?;
    add_entries(alloc, &mut metrics, all, each_flag, warned)?;
    add_fault(alloc, &mut metrics, fault)?;
    Ok(metrics)
}

#[tactic(auto, unfolding(crate::specs::ModuleMetrics::fault_metric, crate::specs::ModuleMetrics::fault_name, crate::specs::ModuleMetrics::fault_help))]
fn add_fault(
    alloc: Global,
    metrics: &mut Vec<Metric>,
    fault: Option<ReportFault>,
) -> Result<(), AllocError>
    ensures { OnOk result (metrics_in metrics.new
        ≡ metrics_in metrics.old ++ fault_metrics (option_map code_of fault)) }
{
    let Some(fault) = fault else {
        return Ok(());
    };
    let printed = fault.to_words();
    let name = "dovecounter_fault";
    let help = "what keeps a report from being made, by its code";
    let labels = one_label(alloc, "code", TextIn(first_word(&printed)))?;
    let samples = one_sample(alloc, labels, 1, Scale::Ones)?;
    add_metric(alloc, metrics, name, help, samples)
}

fn first_word(printed: &PrintedWords) -> &[u8]
    ensures { result.now ≡ get_or printed.now 0 [] }
{
    match printed.words().first() {
        Some(word) => word.as_slice(),
        None => &[],
    }
}
