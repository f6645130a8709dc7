// The metrics of states: the value is the code, and a label has the name.
ghost use Rattle.std.specs.Prelude.{◌≡◌, ◌++◌, ◌∷◌, [], ◌≤◌, IfOk, OnOk, Some, length, map};
ghost use Rattle.std.specs.List.{enumerate_from};
ghost use Rattle.module_metrics.specs.StateMetrics.{path_sample, paths_metric, state_help, state_metric, state_name, status_sample, statuses_metric};
ghost use Rattle.module_metrics.specs.MetricData.{metrics_in, samples_in};

use crate::metric::{
    Metric, Sample, add_label, add_metric, add_sample, no_samples, one_label, one_sample,
};
use crate::name::{Snake, Words};
use crate::scale::Scale;
use report_entries::{LaneState, ModuleStateCode, PathStateCode, StatusCode};
use std::alloc::{AllocError, Global};
use std::fmt;

/// Adds the metric of the state of the module.
#[tactic(auto, unfolding(crate::specs::StateMetrics::state_metric, crate::specs::StateMetrics::state_sample))]
pub fn add_state(
    alloc: Global,
    metrics: &mut Vec<Metric>,
    name: &'static str,
    code: u8,
) -> Result<(), AllocError>
    ensures { OnOk result (metrics_in metrics.new
        ≡ metrics_in metrics.old ++ state_metric name.now code ∷ []) }
{
    let labels = one_label(alloc, "state", ModuleStateCode(code))?;
    let samples = one_sample(alloc, labels, i64::from(code), Scale::Ones)?;
    add_metric(alloc, metrics, StateName(name), StateHelp(name), samples)
}

#[derive(Clone, Copy)]
struct StateName(&'static str);

impl fmt::Display for StateName {
    ghost output = { λ shown. Some (state_name shown.0.now) };

    #[tactic(auto, unfolding(crate::specs::StateMetrics::state_name))]
    fn fmt<W: fmt::Write>(&self, f: &mut fmt::Formatter<W>) -> fmt::Result {
        let name = Snake(self.0);
        write!(f, "dovecounter_module_{name}")
    }
}

#[derive(Clone, Copy)]
struct StateHelp(&'static str);

impl fmt::Display for StateHelp {
    ghost output = { λ shown. Some (state_help shown.0.now) };

    #[tactic(auto, unfolding(crate::specs::StateMetrics::state_help))]
    fn fmt<W: fmt::Write>(&self, f: &mut fmt::Formatter<W>) -> fmt::Result {
        let name = Words(self.0);
        write!(f, "{name} of the module, by its code")
    }
}

/// Adds the metrics of the states of lanes, lane 1 first: those of their data paths and the statuses of their configurations.
pub fn add_lane_states(
    alloc: Global,
    metrics: &mut Vec<Metric>,
    states: &[LaneState],
) -> Result<(), AllocError>
    requires { length states.now ≤ 32 }
    ensures { OnOk result (metrics_in metrics.new
        ≡ metrics_in metrics.old ++ (paths_metric states.now ∷ statuses_metric states.now ∷ [])) }
{
    add_paths(alloc, metrics, states)?;
    add_statuses(alloc, metrics, states)
}

#[tactic(auto, unfolding(crate::specs::StateMetrics::paths_metric, crate::specs::StateMetrics::paths_name, crate::specs::StateMetrics::paths_help))]
fn add_paths(
    alloc: Global,
    metrics: &mut Vec<Metric>,
    states: &[LaneState],
) -> Result<(), AllocError>
    requires { length states.now ≤ 32 }
    ensures { OnOk result (metrics_in metrics.new ≡ metrics_in metrics.old ++ paths_metric states.now ∷ []) }
{
    let name = "dovecounter_lane_data_path_state";
    let help = "state of a lane's data path, by its code";
    let samples = path_samples(alloc, states)?;
    add_metric(alloc, metrics, name, help, samples)
}

fn path_samples(alloc: Global, states: &[LaneState]) -> Result<Vec<Sample>, AllocError>
    requires { length states.now ≤ 32 }
    ensures { IfOk result (λ samples. samples_in samples ≡ map path_sample (enumerate_from 1 states.now)) }
{
    let mut samples = no_samples(alloc);
    for (index, state) in states.iter().enumerate() {
        add_path(alloc, &mut samples, index as u8 + 1, *state)?;
    }
    Ok(samples)
}

#[tactic(auto, unfolding(crate::specs::StateMetrics::path_sample))]
fn add_path(
    alloc: Global,
    samples: &mut Vec<Sample>,
    lane: u8,
    lane_state: LaneState,
) -> Result<(), AllocError>
    ensures { OnOk result (samples_in samples.new
        ≡ samples_in samples.old ++ path_sample (lane, lane_state) ∷ []) }
{
    let mut labels = one_label(alloc, "lane", lane)?;
    add_label(alloc, &mut labels, "state", PathStateCode(lane_state.path))?;
    add_sample(samples, labels, i64::from(lane_state.path), Scale::Ones)
}

#[tactic(auto, unfolding(crate::specs::StateMetrics::statuses_metric, crate::specs::StateMetrics::statuses_name, crate::specs::StateMetrics::statuses_help))]
fn add_statuses(
    alloc: Global,
    metrics: &mut Vec<Metric>,
    states: &[LaneState],
) -> Result<(), AllocError>
    requires { length states.now ≤ 32 }
    ensures { OnOk result (metrics_in metrics.new ≡ metrics_in metrics.old ++ statuses_metric states.now ∷ []) }
{
    let name = "dovecounter_lane_config_status";
    let help = "status of a lane's configuration, by its code";
    let samples = status_samples(alloc, states)?;
    add_metric(alloc, metrics, name, help, samples)
}

fn status_samples(alloc: Global, states: &[LaneState]) -> Result<Vec<Sample>, AllocError>
    requires { length states.now ≤ 32 }
    ensures { IfOk result (λ samples. samples_in samples ≡ map status_sample (enumerate_from 1 states.now)) }
{
    let mut samples = no_samples(alloc);
    for (index, state) in states.iter().enumerate() {
        add_status(alloc, &mut samples, index as u8 + 1, *state)?;
    }
    Ok(samples)
}

#[tactic(auto, unfolding(crate::specs::StateMetrics::status_sample))]
fn add_status(
    alloc: Global,
    samples: &mut Vec<Sample>,
    lane: u8,
    lane_state: LaneState,
) -> Result<(), AllocError>
    ensures { OnOk result (samples_in samples.new
        ≡ samples_in samples.old ++ status_sample (lane, lane_state) ∷ []) }
{
    let mut labels = one_label(alloc, "lane", lane)?;
    add_label(alloc, &mut labels, "status", StatusCode(lane_state.status))?;
    add_sample(samples, labels, i64::from(lane_state.status), Scale::Ones)
}
