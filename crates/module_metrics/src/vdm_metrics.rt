// The metrics of what a CMIS module lists itself (VDM).
ghost use Rattle.std.specs.Prelude.{◌≡◌, ◌++◌, IfOk, OnOk, option_map};
ghost use Rattle.std.specs.List.{flat_map};
ghost use Rattle.module_metrics.specs.Exposition.{label};
ghost use Rattle.module_metrics.specs.MetricData.{labels_in, metrics_in, number_in, samples_in};
ghost use Rattle.module_metrics.specs.VdmMetrics as spec;
ghost use Rattle.module_metrics.specs.VdmMetrics.{is_of, limit_sample, limit_samples, limits_metrics, measure_metrics, number_labels, number_samples, place_labels, some_metrics, value_sample, values_metrics, vdm_metrics, vdm_seen};
ghost use Rattle.reports.specs.Families.{detail_fault};

use crate::flag_metrics::add_lane;
use crate::metric::{
    Label, Metric, Sample, add_label, add_metric, add_number, no_samples, one_label,
};
use crate::number::{Number, number_of};
use crate::vdm_name::{Measure, VdmHelp, VdmName, measures, power_of};
use module_decoding::detail_family_of;
use observable_reports::{Seen, all_listed, shown_as};
use observables::{
    Amount, Observable, Observation, figure_number, lane_of, quantity_number, quantity_row,
    scope_name,
};
use paged_memory::Image;
use report_entries::LimitKind;
use std::alloc::{AllocError, Global};

// The instances that a module advertises, by rising number.
#[tactic(auto, unfolding(crate::specs::VdmMetrics::vdm_seen, reports::specs::Families::detail_fault))]
fn vdm_seen(alloc: Global, image: &Image) -> Result<Vec<Seen>, AllocError>
    ensures { IfOk result (λ seen. seen.items ≡ vdm_seen image.now) }
{
    match detail_family_of(image) {
        Ok(_family) => all_listed(alloc, image),
        Err(_fault) => Ok(Vec::new(alloc)),
    }
}

// ---- metrics

/// Adds the metrics of what a module lists itself.
pub fn add_listed(alloc: Global, metrics: &mut Vec<Metric>, image: &Image) -> Result<(), AllocError>
    ensures { OnOk result (metrics_in metrics.new ≡ metrics_in metrics.old ++ vdm_metrics (vdm_seen image.now)) }
{
    add_vdm(alloc, metrics, &vdm_seen(alloc, image)?)
}

// The metrics of instances: the values of each quantity and figure, then their limits, unless there are none.
#[tactic(auto, unfolding(crate::specs::VdmMetrics::vdm_metrics))]
fn add_vdm(alloc: Global, metrics: &mut Vec<Metric>, seen: &[Seen]) -> Result<(), AllocError>
    ensures { OnOk result (metrics_in metrics.new ≡ metrics_in metrics.old ++ vdm_metrics seen.now) }
{
    add_measures(alloc, metrics, measures(), seen)
}

fn add_measures(
    alloc: Global,
    metrics: &mut Vec<Metric>,
    measures: &[Measure],
    seen: &[Seen],
) -> Result<(), AllocError>
    ensures { OnOk result (metrics_in metrics.new
        ≡ metrics_in metrics.old ++ flat_map (measure_metrics seen.now) measures.now) }
{
    for measure in measures {
        add_measure(alloc, metrics, *measure, seen)?;
    }
    Ok(())
}

fn add_measure(
    alloc: Global,
    metrics: &mut Vec<Metric>,
    measure: Measure,
    seen: &[Seen],
) -> Result<(), AllocError>
    ensures { OnOk result (metrics_in metrics.new ≡ metrics_in metrics.old ++ measure_metrics seen.now measure) }
{
    add_values(alloc, metrics, measure, seen)?;
    add_limits(alloc, metrics, measure, seen)
}

fn add_values(
    alloc: Global,
    metrics: &mut Vec<Metric>,
    measure: Measure,
    seen: &[Seen],
) -> Result<(), AllocError>
    ensures { OnOk result (metrics_in metrics.new ≡ metrics_in metrics.old ++ values_metrics seen.now measure) }
{
    let samples = value_samples(alloc, measure, seen)?;
    let name = VdmName {
        measure,
        limits: false,
    };
    add_some(alloc, metrics, name, samples)
}

fn add_limits(
    alloc: Global,
    metrics: &mut Vec<Metric>,
    measure: Measure,
    seen: &[Seen],
) -> Result<(), AllocError>
    ensures { OnOk result (metrics_in metrics.new ≡ metrics_in metrics.old ++ limits_metrics seen.now measure) }
{
    let samples = limits_samples(alloc, measure, seen)?;
    let name = VdmName {
        measure,
        limits: true,
    };
    add_some(alloc, metrics, name, samples)
}

// A metric, unless it has no samples.
#[tactic(auto, unfolding(crate::specs::MetricData::samples_in))]
fn add_some(
    alloc: Global,
    metrics: &mut Vec<Metric>,
    name: VdmName,
    samples: Vec<Sample>,
) -> Result<(), AllocError>
    ensures { OnOk result (metrics_in metrics.new
        ≡ metrics_in metrics.old ++ some_metrics name.limits name.measure (samples_in samples)) }
{
    if samples.is_empty() {
        return Ok(());
    }
    add_metric(alloc, metrics, name, VdmHelp(name), samples)
}

// ---- values

fn value_samples(alloc: Global, measure: Measure, seen: &[Seen]) -> Result<Vec<Sample>, AllocError>
    ensures { IfOk result (λ samples. samples_in samples ≡ flat_map (value_sample measure) seen.now) }
{
    let mut samples = no_samples(alloc);
    for one in seen {
        add_value(alloc, &mut samples, measure, *one)?;
    }
    Ok(samples)
}

#[tactic(auto, unfolding(crate::specs::VdmMetrics::value_sample))]
fn add_value(
    alloc: Global,
    samples: &mut Vec<Sample>,
    measure: Measure,
    seen: Seen,
) -> Result<(), AllocError>
    ensures { OnOk result (samples_in samples.new ≡ samples_in samples.old ++ value_sample measure seen) }
{
    if !is_of(measure, seen.observation.observable) {
        return Ok(());
    }
    let Some(number) = number_seen(seen.observation, seen.observation.amount) else {
        return Ok(());
    };
    let mut labels = number_labels(alloc, seen.number)?;
    add_place(alloc, &mut labels, seen.observation)?;
    add_number(samples, labels, number)
}

// ---- limits

fn limits_samples(alloc: Global, measure: Measure, seen: &[Seen]) -> Result<Vec<Sample>, AllocError>
    ensures { IfOk result (λ samples. samples_in samples ≡ flat_map (limit_samples measure) seen.now) }
{
    let mut samples = no_samples(alloc);
    for one in seen {
        add_limits_of(alloc, &mut samples, measure, *one)?;
    }
    Ok(samples)
}

#[tactic(auto, unfolding(crate::specs::VdmMetrics::limit_samples))]
fn add_limits_of(
    alloc: Global,
    samples: &mut Vec<Sample>,
    measure: Measure,
    seen: Seen,
) -> Result<(), AllocError>
    ensures { OnOk result (samples_in samples.new ≡ samples_in samples.old ++ limit_samples measure seen) }
{
    if !is_of(measure, seen.observation.observable) {
        return Ok(());
    }
    let limits = seen.observation.limits;
    add_limit(
        alloc,
        samples,
        seen,
        LimitKind::HighAlarm,
        limits.high_alarm,
    )?;
    add_limit(alloc, samples, seen, LimitKind::LowAlarm, limits.low_alarm)?;
    add_limit(
        alloc,
        samples,
        seen,
        LimitKind::HighWarning,
        limits.high_warning,
    )?;
    add_limit(
        alloc,
        samples,
        seen,
        LimitKind::LowWarning,
        limits.low_warning,
    )
}

#[tactic(auto, unfolding(crate::specs::VdmMetrics::limit_sample))]
fn add_limit(
    alloc: Global,
    samples: &mut Vec<Sample>,
    seen: Seen,
    limit: LimitKind,
    level: Option<Amount>,
) -> Result<(), AllocError>
    ensures { OnOk result (samples_in samples.new ≡ samples_in samples.old ++ limit_sample seen limit level) }
{
    let Some(number) = number_seen(seen.observation, level) else {
        return Ok(());
    };
    let mut labels = number_labels(alloc, seen.number)?;
    add_label(alloc, &mut labels, "limit", limit.name())?;
    add_place(alloc, &mut labels, seen.observation)?;
    add_number(samples, labels, number)
}

// ---- of an instance

fn is_of(measure: Measure, observable: Observable) -> bool
    ensures { result ≡ is_of measure observable }
{
    quantity_number(observable.quantity) == quantity_number(measure.quantity)
        && figure_number(observable.figure) == figure_number(measure.figure)
}

// The number of an amount of an instance, if that is known.
fn number_seen(observation: Observation, amount: Option<Amount>) -> Option<Number>
    ensures { option_map number_in result ≡ spec.number_seen observation amount }
{
    let row = quantity_row(observation.observable.quantity);
    number_of(shown_as(row.format, amount?), power_of(row.unit))
}

fn number_labels(alloc: Global, number: u16) -> Result<Vec<Label>, AllocError>
    ensures { IfOk result (λ labels. labels_in labels ≡ number_labels number) }
{
    one_label(alloc, "vdm_instance", number)
}

fn add_place(
    alloc: Global,
    labels: &mut Vec<Label>,
    observation: Observation,
) -> Result<(), AllocError>
    ensures { OnOk result (labels_in labels.new ≡ labels_in labels.old ++ place_labels observation) }
{
    let (subject, side) = (observation.subject, observation.observable.side);
    add_lane(alloc, labels, lane_of(subject))?;
    add_label(alloc, labels, "scope", scope_name(subject, side))
}
