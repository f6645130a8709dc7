// Metrics as data.
ghost use Rattle.std.specs.Prelude.{◌≡◌, ◌++◌, ◌∷◌, [], IfOk, IfSome, OnErr, OnOk};
ghost use Rattle.module_metrics.specs.Exposition.{label, metric, sample};
ghost use Rattle.module_metrics.specs.Scales.{places_of};
ghost use Rattle.module_metrics.specs.MetricData.{labels_in, metrics_in, number_in, samples_in};

use crate::number::Number;
use crate::scale::Scale;
use std::alloc::{AllocError, Global};
use std::fmt::Display;

/// What tells one sample of a metric from the others.
#[derive(Drop)]
pub struct Label {
    pub key: String,
    pub value: String,
}

/// A number under labels.
#[derive(Drop)]
pub struct Sample {
    pub labels: Vec<Label>,
    pub number: Number,
}

/// What stands under a name.
#[derive(Drop)]
pub struct Metric {
    pub name: String,
    pub help: String,
    pub samples: Vec<Sample>,
}

/// No label.
#[tactic(auto, unfolding(crate::specs::MetricData::labels_in))]
pub fn no_labels(alloc: Global) -> Vec<Label>
    ensures { labels_in result ≡ [] }
{
    Vec::new(alloc)
}

/// One label.
pub fn one_label<V: Display + Drop>(
    alloc: Global,
    key: &'static str,
    value: V,
) -> Result<Vec<Label>, AllocError>
    ensures { IfSome (V.output value) (λ shown. IfOk result (λ labels. labels_in labels ≡ label key.now shown ∷ [])) }
{
    let mut labels = no_labels(alloc);
    add_label(alloc, &mut labels, key, value)?;
    Ok(labels)
}

/// Adds a label.
#[tactic(auto, unfolding(crate::specs::MetricData::labels_in, crate::specs::Exposition::label))]
pub fn add_label<K: Display + Drop, V: Display + Drop>(
    alloc: Global,
    labels: &mut Vec<Label>,
    key: K,
    value: V,
) -> Result<(), AllocError>
    ensures added { IfSome (K.output key) (λ named. IfSome (V.output value) (λ shown.
        OnOk result (labels_in labels.new ≡ labels_in labels.old ++ label named shown ∷ []))) }
    ensures kept { OnErr result (labels_in labels.new ≡ labels_in labels.old) }
{
    let key = format!(in alloc; "{key}")?;
    let value = format!(in alloc; "{value}")?;
    labels.push(Label { key, value })?;
    Ok(())
}

/// No sample.
#[tactic(auto, unfolding(crate::specs::MetricData::samples_in))]
pub fn no_samples(alloc: Global) -> Vec<Sample>
    ensures { samples_in result ≡ [] }
{
    Vec::new(alloc)
}

/// One sample.
pub fn one_sample(
    alloc: Global,
    labels: Vec<Label>,
    parts: i64,
    scale: Scale,
) -> Result<Vec<Sample>, AllocError>
    ensures { IfOk result (λ samples. samples_in samples ≡ sample (labels_in labels) parts (places_of scale) ∷ []) }
{
    let mut samples = no_samples(alloc);
    add_sample(&mut samples, labels, parts, scale)?;
    Ok(samples)
}

/// Adds a sample of so many parts of a scale.
#[tactic(auto, unfolding(crate::specs::Exposition::sample))]
pub fn add_sample(
    samples: &mut Vec<Sample>,
    labels: Vec<Label>,
    parts: i64,
    scale: Scale,
) -> Result<(), AllocError>
    ensures { OnOk result (samples_in samples.new
        ≡ samples_in samples.old ++ sample (labels_in labels) parts (places_of scale) ∷ []) }
{
    add_number(samples, labels, Number::Parts(parts, scale))
}

/// Adds a sample.
#[tactic(auto, unfolding(crate::specs::MetricData::samples_in, crate::specs::MetricData::labels_in))]
pub fn add_number(
    samples: &mut Vec<Sample>,
    labels: Vec<Label>,
    number: Number,
) -> Result<(), AllocError>
    ensures { OnOk result (samples_in samples.new
        ≡ samples_in samples.old ++ record { labels = labels_in labels; number = number_in number } ∷ []) }
{
    samples.push(Sample { labels, number })?;
    Ok(())
}

/// No metric.
#[tactic(auto, unfolding(crate::specs::MetricData::metrics_in))]
pub fn no_metrics(alloc: Global) -> Vec<Metric>
    ensures { metrics_in result ≡ [] }
{
    Vec::new(alloc)
}

/// Adds a metric.
#[tactic(auto, unfolding(crate::specs::MetricData::metrics_in, crate::specs::MetricData::samples_in, crate::specs::Exposition::metric))]
pub fn add_metric<N: Display + Drop, H: Display + Drop>(
    alloc: Global,
    metrics: &mut Vec<Metric>,
    name: N,
    help: H,
    samples: Vec<Sample>,
) -> Result<(), AllocError>
    ensures { IfSome (N.output name) (λ named. IfSome (H.output help) (λ helped.
        OnOk result (metrics_in metrics.new
        ≡ metrics_in metrics.old ++ metric named helped (samples_in samples) ∷ []))) }
{
    let name = format!(in alloc; "{name}")?;
    let help = format!(in alloc; "{help}")?;
    metrics.push(Metric {
        name,
        help,
        samples,
    })?;
    Ok(())
}
