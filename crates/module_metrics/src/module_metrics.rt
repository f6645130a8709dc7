// What the reports of a module say, as metrics.
ghost use Rattle.std.specs.Prelude.{◌≡◌, ◌++◌, ◌∷◌, [], IfOk, OnOk, map};
ghost use Rattle.std.specs.List.{flat_map};
ghost use Rattle.report_entries.specs.Entries.{content_of, entry_of};
ghost use Rattle.module_metrics.specs.FlagMetrics.{each_raised, flag_metrics};
ghost use Rattle.module_metrics.specs.ModuleMetrics.{content_labels, content_metrics, content_sums, entry_metrics, entry_sums, info_labels, info_metric, info_samples, shown_flags, sums_metric};
ghost use Rattle.module_metrics.specs.MetricData.{labels_in, metrics_in, samples_in};

use crate::amounts::{add_amount, add_lanes, add_limits};
use crate::flag_metrics::{add_flags, truth};
use crate::metric::{
    Label, Metric, Sample, add_label, add_metric, add_sample, no_labels, no_samples, one_label,
    one_sample,
};
use crate::name::Snake;
use crate::scale::Scale;
use crate::state_metrics::{add_lane_states, add_state};
use report_entries::{Code, Content, Entry, Flag, Revision, TextIn};
use std::alloc::{AllocError, Global};
use text_lines::Hexadecimal;

// ---- what the module is

/// Adds the metric of what the module is: one sample, whose labels have all that is a text or a number.
#[tactic(auto, unfolding(crate::specs::ModuleMetrics::info_metric, crate::specs::ModuleMetrics::info_name, crate::specs::ModuleMetrics::info_help))]
pub fn add_info(
    alloc: Global,
    metrics: &mut Vec<Metric>,
    entries: &[Entry],
) -> Result<(), AllocError>
    ensures { OnOk result (metrics_in metrics.new
        ≡ metrics_in metrics.old ++ info_metric (map entry_of entries.now) ∷ []) }
{
    let name = "dovecounter_module_info";
    let help = "what the module says that it is";
    let samples = info_samples(alloc, entries)?;
    add_metric(alloc, metrics, name, help, samples)
}

fn info_samples(alloc: Global, entries: &[Entry]) -> Result<Vec<Sample>, AllocError>
    ensures { IfOk result (λ samples. samples_in samples ≡ info_samples (map entry_of entries.now)) }
{
    if entries.is_empty() {
        return Ok(no_samples(alloc));
    }
    one_sample(alloc, info_labels(alloc, entries)?, 1, Scale::Ones)
}

fn info_labels(alloc: Global, entries: &[Entry]) -> Result<Vec<Label>, AllocError>
    ensures { IfOk result (λ labels. labels_in labels ≡ info_labels (map entry_of entries.now)) }
{
    let mut labels = no_labels(alloc);
    for entry in entries {
        add_content_label(alloc, &mut labels, entry.name, &entry.content)?;
    }
    Ok(labels)
}

#[tactic(auto, unfolding(crate::specs::ModuleMetrics::content_labels))]
fn add_content_label(
    alloc: Global,
    labels: &mut Vec<Label>,
    name: &'static str,
    content: &Content,
) -> Result<(), AllocError>
    ensures { OnOk result (labels_in labels.new
        ≡ labels_in labels.old ++ content_labels name.now (content_of content.now)) }
{
    let key = Snake(name);
    match content {
        Content::Word(word) => add_label(alloc, labels, key, *word),
        Content::Number(number) => add_label(alloc, labels, key, *number),
        Content::Code(byte) => add_label(alloc, labels, key, Code(*byte)),
        Content::Revision(byte) => add_label(alloc, labels, key, Revision(*byte)),
        Content::Text(bytes) => add_label(alloc, labels, key, TextIn(bytes.as_slice())),
        Content::Oui(bytes) => add_label(alloc, labels, key, Hexadecimal(bytes)),
        _ => Ok(()),
    }
}

// ---- sums

/// Adds the metric of whether the sums that two reports tell of are right.
#[tactic(auto, unfolding(crate::specs::ModuleMetrics::sums_metric, crate::specs::ModuleMetrics::sums_name, crate::specs::ModuleMetrics::sums_help))]
pub fn add_sums(
    alloc: Global,
    metrics: &mut Vec<Metric>,
    identity: &[Entry],
    measured: &[Entry],
) -> Result<(), AllocError>
    ensures { OnOk result (metrics_in metrics.new
        ≡ metrics_in metrics.old ++ sums_metric (map entry_of identity.now ++ map entry_of measured.now) ∷ []) }
{
    let name = "dovecounter_module_checksum_right";
    let help = "whether a sum of the module's memory is right";
    let samples = sum_samples(alloc, identity, measured)?;
    add_metric(alloc, metrics, name, help, samples)
}

#[tactic(auto, using(crate::proofs::Appended::sums_append))]
fn sum_samples(
    alloc: Global,
    identity: &[Entry],
    measured: &[Entry],
) -> Result<Vec<Sample>, AllocError>
    ensures { IfOk result (λ samples. samples_in samples
        ≡ flat_map entry_sums (map entry_of identity.now ++ map entry_of measured.now)) }
{
    let mut samples = no_samples(alloc);
    add_sums_of(alloc, &mut samples, identity)?;
    add_sums_of(alloc, &mut samples, measured)?;
    Ok(samples)
}

fn add_sums_of(
    alloc: Global,
    samples: &mut Vec<Sample>,
    entries: &[Entry],
) -> Result<(), AllocError>
    ensures { OnOk result (samples_in samples.new
        ≡ samples_in samples.old ++ flat_map entry_sums (map entry_of entries.now)) }
{
    for entry in entries {
        add_sum(alloc, samples, entry.name, &entry.content)?;
    }
    Ok(())
}

#[tactic(auto, unfolding(crate::specs::ModuleMetrics::content_sums))]
fn add_sum(
    alloc: Global,
    samples: &mut Vec<Sample>,
    name: &'static str,
    content: &Content,
) -> Result<(), AllocError>
    ensures { OnOk result (samples_in samples.new
        ≡ samples_in samples.old ++ content_sums name.now (content_of content.now)) }
{
    match content {
        Content::Right(is_right) => {
            let labels = one_label(alloc, "sum", name)?;
            add_sample(samples, labels, truth(*is_right), Scale::Ones)
        }
        _ => Ok(()),
    }
}

// ---- what entries say by themselves

/// Adds the metrics of each entry of a report. Its flags are those that it has, or else all of these.
pub fn add_entries(
    alloc: Global,
    metrics: &mut Vec<Metric>,
    all: bool,
    each_flag: &[(Flag, bool)],
    entries: &[Entry],
) -> Result<(), AllocError>
    ensures { OnOk result (metrics_in metrics.new
        ≡ metrics_in metrics.old ++ flat_map (entry_metrics all each_flag.now) (map entry_of entries.now)) }
{
    for entry in entries {
        add_content(alloc, metrics, all, each_flag, entry.name, &entry.content)?;
    }
    Ok(())
}

#[tactic(auto, unfolding(crate::specs::ModuleMetrics::content_metrics))]
fn add_content(
    alloc: Global,
    metrics: &mut Vec<Metric>,
    all: bool,
    each_flag: &[(Flag, bool)],
    name: &'static str,
    content: &Content,
) -> Result<(), AllocError>
    ensures { OnOk result (metrics_in metrics.new
        ≡ metrics_in metrics.old ++ content_metrics all each_flag.now name.now (content_of content.now)) }
{
    match content {
        Content::Amount(millis, unit) => add_amount(alloc, metrics, name, *unit, *millis),
        Content::Lanes(values, unit) => add_lanes(alloc, metrics, name, *unit, values.as_slice()),
        Content::Limits(levels, unit) => add_limits(alloc, metrics, name, *unit, *levels),
        Content::State(code) => add_state(alloc, metrics, name, *code),
        Content::LaneStates(states) => add_lane_states(alloc, metrics, states.as_slice()),
        Content::Flags(raised) => add_shown_flags(alloc, metrics, all, each_flag, raised),
        _ => Ok(()),
    }
}

fn add_shown_flags(
    alloc: Global,
    metrics: &mut Vec<Metric>,
    all: bool,
    each_flag: &[(Flag, bool)],
    raised: &[Flag],
) -> Result<(), AllocError>
    ensures { OnOk result (metrics_in metrics.new
        ≡ metrics_in metrics.old ++ flag_metrics (shown_flags all each_flag.now raised.now)) }
{
    if all {
        add_flags(alloc, metrics, each_flag)
    } else {
        add_flags(alloc, metrics, &each_raised(alloc, raised)?)
    }
}

fn each_raised(alloc: Global, flags: &[Flag]) -> Result<Vec<(Flag, bool)>, AllocError>
    ensures { IfOk result (λ shown. shown.items ≡ each_raised flags.now) }
{
    let mut shown = Vec::new(alloc);
    for flag in flags {
        shown.push((*flag, true))?;
    }
    Ok(shown)
}
