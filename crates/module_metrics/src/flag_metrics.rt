// The metrics of flags.
ghost use Rattle.std.specs.Prelude.{◌≡◌, ◌++◌, ◌∷◌, [], ◌≤◌, IfOk, OnOk, Some, length, map};
ghost use Rattle.report_entries.specs.Flags.{raised};
ghost use Rattle.module_metrics.specs.FlagMetrics.{count_help, count_metric, count_name, flag_metrics, flag_sample, flags_help, flags_in, flags_metric, flags_name, is_in, lane_labels, truth};
ghost use Rattle.module_metrics.specs.MetricData.{labels_in, metrics_in, samples_in};

use crate::metric::{
    Label, Metric, Sample, add_label, add_metric, add_sample, no_labels, no_samples, one_label,
    one_sample,
};
use crate::scale::Scale;
use report_entries::Flag;
use std::alloc::{AllocError, Global};

/// Adds the metrics of flags, each with whether it is raised: of the module, then of lanes, how many are raised and which.
pub fn add_flags(
    alloc: Global,
    metrics: &mut Vec<Metric>,
    flags: &[(Flag, bool)],
) -> Result<(), AllocError>
    ensures { OnOk result (metrics_in metrics.new ≡ metrics_in metrics.old ++ flag_metrics flags.now) }
{
    add_count(alloc, metrics, false, flags)?;
    add_each(alloc, metrics, false, flags)?;
    add_count(alloc, metrics, true, flags)?;
    add_each(alloc, metrics, true, flags)
}

#[tactic(auto, unfolding(crate::specs::FlagMetrics::count_metric))]
fn add_count(
    alloc: Global,
    metrics: &mut Vec<Metric>,
    lanes: bool,
    flags: &[(Flag, bool)],
) -> Result<(), AllocError>
    ensures { OnOk result (metrics_in metrics.new
        ≡ metrics_in metrics.old ++ count_metric lanes flags.now ∷ []) }
{
    let count = count_raised(lanes, flags);
    let samples = one_sample(alloc, no_labels(alloc), count as i64, Scale::Ones)?;
    add_metric(
        alloc,
        metrics,
        count_name(lanes),
        count_help(lanes),
        samples,
    )
}

fn count_raised(lanes: bool, flags: &[(Flag, bool)]) -> usize
    ensures value { result ≡ length (raised (flags_in lanes flags.now)) }
    ensures few { result ≤ length flags.now }
{
    let mut count = 0;
    for flag in flags {
        if is_in(lanes, flag) && flag.1 {
            count += 1;
        }
    }
    count
}

fn is_in(lanes: bool, flag: &(Flag, bool)) -> bool
    ensures { result ≡ is_in lanes flag.now }
{
    flag.0.lane.is_some() == lanes
}

#[tactic(auto, unfolding(crate::specs::FlagMetrics::flags_metric))]
fn add_each(
    alloc: Global,
    metrics: &mut Vec<Metric>,
    lanes: bool,
    flags: &[(Flag, bool)],
) -> Result<(), AllocError>
    ensures { OnOk result (metrics_in metrics.new
        ≡ metrics_in metrics.old ++ flags_metric lanes flags.now ∷ []) }
{
    let samples = flag_samples(alloc, lanes, flags)?;
    add_metric(
        alloc,
        metrics,
        flags_name(lanes),
        flags_help(lanes),
        samples,
    )
}

#[tactic(auto, using(crate::proofs::Appended::samples_append))]
fn flag_samples(
    alloc: Global,
    lanes: bool,
    flags: &[(Flag, bool)],
) -> Result<Vec<Sample>, AllocError>
    ensures { IfOk result (λ samples. samples_in samples ≡ map flag_sample (flags_in lanes flags.now)) }
{
    let mut samples = no_samples(alloc);
    for flag in flags {
        if is_in(lanes, flag) {
            add_flag(alloc, &mut samples, flag.0, flag.1)?;
        }
    }
    Ok(samples)
}

#[tactic(auto, unfolding(crate::specs::FlagMetrics::flag_sample))]
fn add_flag(
    alloc: Global,
    samples: &mut Vec<Sample>,
    flag: Flag,
    is_raised: bool,
) -> Result<(), AllocError>
    ensures { OnOk result (samples_in samples.new
        ≡ samples_in samples.old ++ flag_sample (flag, is_raised) ∷ []) }
{
    let mut labels = one_label(alloc, "flag", flag.name)?;
    add_lane(alloc, &mut labels, flag.lane)?;
    add_sample(samples, labels, truth(is_raised), Scale::Ones)
}

/// Adds the label of a lane, if there is one.
pub fn add_lane(alloc: Global, labels: &mut Vec<Label>, lane: Option<u8>) -> Result<(), AllocError>
    ensures { OnOk result (labels_in labels.new ≡ labels_in labels.old ++ lane_labels lane) }
{
    match lane {
        Some(lane) => add_label(alloc, labels, "lane", lane),
        None => Ok(()),
    }
}

/// 1 if it holds, else 0.
pub fn truth(holds: bool) -> i64
    ensures { result ≡ truth holds }
{
    i64::from(holds)
}

#[tactic(auto, unfolding(crate::specs::FlagMetrics::count_name))]
fn count_name(lanes: bool) -> &'static str
    ensures { result.now ≡ count_name lanes }
{
    if lanes {
        "dovecounter_lane_raised_flags"
    } else {
        "dovecounter_module_raised_flags"
    }
}

#[tactic(auto, unfolding(crate::specs::FlagMetrics::count_help))]
fn count_help(lanes: bool) -> &'static str
    ensures { result.now ≡ count_help lanes }
{
    if lanes {
        "number of raised flags of lanes"
    } else {
        "number of raised flags of the module"
    }
}

#[tactic(auto, unfolding(crate::specs::FlagMetrics::flags_name))]
fn flags_name(lanes: bool) -> &'static str
    ensures { result.now ≡ flags_name lanes }
{
    if lanes {
        "dovecounter_lane_flag_raised"
    } else {
        "dovecounter_module_flag_raised"
    }
}

#[tactic(auto, unfolding(crate::specs::FlagMetrics::flags_help))]
fn flags_help(lanes: bool) -> &'static str
    ensures { result.now ≡ flags_help lanes }
{
    if lanes {
        "whether a flag of a lane is raised"
    } else {
        "whether a flag of the module is raised"
    }
}
