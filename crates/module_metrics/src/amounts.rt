// The metrics of a report's amounts.
ghost use Rattle.std.specs.Prelude.{◌≡◌, ◌++◌, ◌∷◌, [], ◌≤◌, IfOk, OnOk, length};
ghost use Rattle.module_metrics.specs.Amounts.{amount_metric, lane_sample, lane_samples, lanes_metric, limit_sample, limit_samples, limits_metric, module_metric};
ghost use Rattle.module_metrics.specs.MetricData.{metrics_in, samples_in};

use crate::base_unit::scale_of;
use crate::metric::{
    Metric, Sample, add_metric, add_sample, no_labels, no_samples, one_label, one_sample,
};
use crate::name::{AmountHelp, AmountName, Scope};
use field_tables::PerLimit;
use report_entries::{LimitKind, PrintedUnit};
use std::alloc::{AllocError, Global};

/// Adds the metric of an amount of the module.
#[tactic(auto, unfolding(crate::specs::Amounts::module_metric))]
pub fn add_amount(
    alloc: Global,
    metrics: &mut Vec<Metric>,
    name: &'static str,
    unit: PrintedUnit,
    millis: i64,
) -> Result<(), AllocError>
    ensures { OnOk result (metrics_in metrics.new
        ≡ metrics_in metrics.old ++ module_metric name.now unit millis ∷ []) }
{
    let samples = one_sample(alloc, no_labels(alloc), millis, scale_of(unit))?;
    add_amounts(alloc, metrics, Scope::Module, name, unit, samples)
}

fn add_amounts(
    alloc: Global,
    metrics: &mut Vec<Metric>,
    scope: Scope,
    name: &'static str,
    unit: PrintedUnit,
    samples: Vec<Sample>,
) -> Result<(), AllocError>
    ensures { OnOk result (metrics_in metrics.new
        ≡ metrics_in metrics.old ++ amount_metric scope name.now unit (samples_in samples) ∷ []) }
{
    let name = AmountName { scope, name, unit };
    add_metric(alloc, metrics, name, AmountHelp(name), samples)
}

/// Adds the metric of an amount of each lane, lane 1 first.
#[tactic(auto, unfolding(crate::specs::Amounts::lanes_metric))]
pub fn add_lanes(
    alloc: Global,
    metrics: &mut Vec<Metric>,
    name: &'static str,
    unit: PrintedUnit,
    values: &[i64],
) -> Result<(), AllocError>
    requires { length values.now ≤ 32 }
    ensures { OnOk result (metrics_in metrics.new
        ≡ metrics_in metrics.old ++ lanes_metric name.now unit values.now ∷ []) }
{
    let samples = lane_samples(alloc, unit, values)?;
    add_amounts(alloc, metrics, Scope::Lane, name, unit, samples)
}

fn lane_samples(alloc: Global, unit: PrintedUnit, values: &[i64]) -> Result<Vec<Sample>, AllocError>
    requires { length values.now ≤ 32 }
    ensures { IfOk result (λ samples. samples_in samples ≡ lane_samples unit values.now) }
{
    let mut samples = no_samples(alloc);
    for (index, millis) in values.iter().enumerate() {
        add_lane(alloc, &mut samples, unit, index as u8 + 1, *millis)?;
    }
    Ok(samples)
}

#[tactic(auto, unfolding(crate::specs::Amounts::lane_sample))]
fn add_lane(
    alloc: Global,
    samples: &mut Vec<Sample>,
    unit: PrintedUnit,
    lane: u8,
    millis: i64,
) -> Result<(), AllocError>
    ensures { OnOk result (samples_in samples.new
        ≡ samples_in samples.old ++ lane_sample unit (lane, millis) ∷ []) }
{
    let labels = one_label(alloc, "lane", lane)?;
    add_sample(samples, labels, millis, scale_of(unit))
}

/// Adds the metric of the limits of what is measured.
#[tactic(auto, unfolding(crate::specs::Amounts::limits_metric))]
pub fn add_limits(
    alloc: Global,
    metrics: &mut Vec<Metric>,
    name: &'static str,
    unit: PrintedUnit,
    limits: PerLimit<i64>,
) -> Result<(), AllocError>
    ensures { OnOk result (metrics_in metrics.new
        ≡ metrics_in metrics.old ++ limits_metric name.now unit limits ∷ []) }
{
    let samples = limit_samples(alloc, unit, limits)?;
    add_amounts(alloc, metrics, Scope::Limit, name, unit, samples)
}

fn limit_samples(
    alloc: Global,
    unit: PrintedUnit,
    limits: PerLimit<i64>,
) -> Result<Vec<Sample>, AllocError>
    ensures { IfOk result (λ samples. samples_in samples ≡ limit_samples unit limits) }
{
    let mut samples = no_samples(alloc);
    add_limit(
        alloc,
        &mut samples,
        unit,
        LimitKind::HighAlarm,
        limits.high_alarm,
    )?;
    add_limit(
        alloc,
        &mut samples,
        unit,
        LimitKind::LowAlarm,
        limits.low_alarm,
    )?;
    add_limit(
        alloc,
        &mut samples,
        unit,
        LimitKind::HighWarning,
        limits.high_warning,
    )?;
    add_limit(
        alloc,
        &mut samples,
        unit,
        LimitKind::LowWarning,
        limits.low_warning,
    )?;
    Ok(samples)
}

#[tactic(auto, unfolding(crate::specs::Amounts::limit_sample))]
fn add_limit(
    alloc: Global,
    samples: &mut Vec<Sample>,
    unit: PrintedUnit,
    limit: LimitKind,
    millis: i64,
) -> Result<(), AllocError>
    ensures { OnOk result (samples_in samples.new
        ≡ samples_in samples.old ++ limit_sample unit limit millis ∷ []) }
{
    let labels = one_label(alloc, "limit", limit.name())?;
    add_sample(samples, labels, millis, scale_of(unit))
}
