// The text of metrics, in Prometheus' text format.
ghost use Rattle.std.specs.Prelude.{◌≡◌, ◌++◌, ◌∷◌, [], IfOk, OnOk, false, map, true};
ghost use Rattle.text_lines.specs.Lines.{text_of};
ghost use Rattle.module_metrics.specs.Exposition.{bracketed, closing, escape, escaped, exposition, help_line, label_text, mark, marked, metric_lines, sample_line, type_line};
ghost use Rattle.module_metrics.specs.MetricData.{label_of, metric_of, sample_of};

use crate::metric::{Label, Metric, Sample};
use crate::number::push_number;
use std::alloc::{AllocError, Global};

/// The text of metrics. Some labels are common to all samples, before their own.
pub fn text(alloc: Global, common: &[Label], metrics: &[Metric]) -> Result<Vec<u8>, AllocError>
    ensures { IfOk result (λ text. text.items ≡ exposition (map label_of common.now) (map metric_of metrics.now)) }
{
    let mut text = Vec::new(alloc);
    for metric in metrics {
        push_metric(alloc, &mut text, common, metric)?;
    }
    Ok(text)
}

#[tactic(auto, unfolding(crate::specs::MetricData::samples_in))]
fn push_metric(
    alloc: Global,
    text: &mut Vec<u8>,
    common: &[Label],
    metric: &Metric,
) -> Result<(), AllocError>
    ensures { OnOk result (text.new.items
        ≡ text.old.items ++ text_of (metric_lines (map label_of common.now) (metric_of metric.now))) }
{
    let name = metric.name.as_str();
    push_help(text, name, metric.help.as_str())?;
    push_type(text, name)?;
    push_samples(alloc, text, name, common, &metric.samples)
}

#[tactic(auto, unfolding(crate::specs::Exposition::help_line))]
fn push_help(text: &mut Vec<u8>, name: &str, help: &str) -> Result<(), AllocError>
    ensures { OnOk result (text.new.items ≡ text.old.items ++ (help_line name.now help.now ++ 10 ∷ [])) }
{
    text.extend_from_slice(b"# HELP ")?;
    text.extend_from_slice(name.as_bytes())?;
    text.push(b' ')?;
    text.extend_from_slice(help.as_bytes())?;
    text.push(b'\n')?;
    Ok(())
}

#[tactic(auto, unfolding(crate::specs::Exposition::type_line))]
fn push_type(text: &mut Vec<u8>, name: &str) -> Result<(), AllocError>
    ensures { OnOk result (text.new.items ≡ text.old.items ++ (type_line name.now ++ 10 ∷ [])) }
{
    text.extend_from_slice(b"# TYPE ")?;
    text.extend_from_slice(name.as_bytes())?;
    text.extend_from_slice(b" gauge\n")
}

fn push_samples(
    alloc: Global,
    text: &mut Vec<u8>,
    name: &str,
    common: &[Label],
    samples: &[Sample],
) -> Result<(), AllocError>
    ensures { OnOk result (text.new.items ≡ text.old.items
        ++ text_of (map (sample_line name.now (map label_of common.now)) (map sample_of samples.now))) }
{
    for sample in samples {
        push_sample(alloc, text, name, common, sample)?;
    }
    Ok(())
}

#[tactic(auto, unfolding(crate::specs::Exposition::sample_line, crate::specs::MetricData::labels_in))]
fn push_sample(
    alloc: Global,
    text: &mut Vec<u8>,
    name: &str,
    common: &[Label],
    sample: &Sample,
) -> Result<(), AllocError>
    ensures { OnOk result (text.new.items ≡ text.old.items
        ++ (sample_line name.now (map label_of common.now) (sample_of sample.now) ++ 10 ∷ [])) }
{
    text.extend_from_slice(name.as_bytes())?;
    push_labels(text, common, &sample.labels)?;
    text.push(b' ')?;
    push_number(alloc, text, sample.number)?;
    text.push(b'\n')?;
    Ok(())
}

// ---- labels

fn push_labels(text: &mut Vec<u8>, common: &[Label], own: &[Label]) -> Result<(), AllocError>
    ensures { OnOk result (text.new.items
        ≡ text.old.items ++ bracketed (map label_of common.now ++ map label_of own.now)) }
{
    let is_none = common.is_empty() && own.is_empty();
    push_marked(text, true, common)?;
    push_marked(text, common.is_empty(), own)?;
    push_closing(text, is_none)
}

fn push_closing(text: &mut Vec<u8>, is_none: bool) -> Result<(), AllocError>
    ensures { OnOk result (text.new.items ≡ text.old.items ++ closing is_none) }
{
    if !is_none {
        text.push(b'}')?;
    }
    Ok(())
}

fn push_marked(text: &mut Vec<u8>, is_first: bool, labels: &[Label]) -> Result<(), AllocError>
    ensures { OnOk result (text.new.items ≡ text.old.items ++ marked is_first (map label_of labels.now)) }
{
    let mut is_first = is_first;
    for label in labels {
        push_label(text, is_first, label)?;
        is_first = false;
    }
    Ok(())
}

#[tactic(auto, unfolding(crate::specs::Exposition::label_text))]
fn push_label(text: &mut Vec<u8>, is_first: bool, label: &Label) -> Result<(), AllocError>
    ensures { OnOk result (text.new.items ≡ text.old.items ++ (mark is_first ∷ label_text (label_of label.now))) }
{
    text.push(if is_first { b'{' } else { b',' })?;
    text.extend_from_slice(label.key.as_bytes())?;
    text.extend_from_slice(b"=\"")?;
    push_escaped(text, label.value.as_str())?;
    text.push(b'"')?;
    Ok(())
}

#[tactic(auto, unfolding(crate::specs::Exposition::escaped))]
fn push_escaped(text: &mut Vec<u8>, value: &str) -> Result<(), AllocError>
    ensures { OnOk result (text.new.items ≡ text.old.items ++ escaped value.now) }
{
    for byte in value.as_bytes() {
        push_escape(text, *byte)?;
    }
    Ok(())
}

fn push_escape(text: &mut Vec<u8>, byte: u8) -> Result<(), AllocError>
    ensures { OnOk result (text.new.items ≡ text.old.items ++ escape byte) }
{
    match byte {
        b'\\' => text.extend_from_slice(b"\\\\"),
        b'"' => text.extend_from_slice(b"\\\""),
        b'\n' => text.extend_from_slice(b"\\n"),
        _ => {
            text.push(byte)?;
            Ok(())
        }
    }
}
