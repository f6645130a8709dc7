ghost use Rattle.std.specs.Prelude.{◌≡◌, ◌&&◌, ◌||◌, None, Some, map, not};
ghost use Rattle.std.specs.List.{list_all, list_any};
ghost use Rattle.std.specs.Str.{bytes_eq};
ghost use Rattle.report_entries.specs.RowTables.{rows_in, source_in};
ghost use Rattle.module_metrics.specs.CommonLabels as spec;
ghost use Rattle.module_metrics.specs.CommonLabels.{has_key, is_row_key, key_fault, sample_keys};
ghost use Rattle.module_metrics.specs.Grammar.{is_in_name, is_letter, is_name, is_reserved};
ghost use Rattle.module_metrics.specs.MetricNames.{snake};
ghost use Rattle.module_metrics.specs.MetricData.{label_of};

use crate::label_fault::LabelFault;
use crate::metric::{Label, add_label, no_labels};
use crate::name::word_letter;
use paged_memory::Family;
use report_entries::{Line, Source};
use reports::inventory_lines;
use std::alloc::Global;
use std::marker::Model;

/// Labels that are added to all samples, before their own.
#[derive(Drop)]
pub struct Labels {
    labels: Vec<Label>,
}

impl Model for Labels {
    ghost use Rattle.std.specs.Prelude.{List};
    ghost use Rattle.module_metrics.specs.AddedLabels.{AreAdded};
    ghost use Rattle.module_metrics.specs.Exposition.{Label as SpecLabel};
    ghost use Rattle.module_metrics.specs.LabelCode.{coded_label};
    ghost use Rattle.module_metrics.specs.MetricData.{labels_in};
    ghost use Rattle.std.specs.Coded.{coded_list};

    ghost Value = { List SpecLabel };

    ghost coded = { coded_list coded_label };

    ghost view = { λ labels. labels_in labels.labels };

    ghost invariant = { λ labels. AreAdded (labels_in labels.labels) };
}

impl Labels {
    ghost use Rattle.std.specs.Prelude.{◌≡◌, [], None, Some, map};
    ghost use Rattle.module_metrics.specs.AddedLabels.{AreAdded};
    ghost use Rattle.module_metrics.specs.CommonLabels.{Adds};
    ghost use Rattle.module_metrics.specs.MetricData.{label_of};

    /// No label.
    #[tactic(auto, using(crate::proofs::MoreLabels::none_added))]
    pub fn new(alloc: Global) -> Labels
        ensures { result ≡ [] }
    {
        Labels {
            labels: no_labels(alloc),
        }
    }

    /// Adds the label of a word KEY=VALUE after the others. A word that is no label changes nothing.
    pub fn add(&mut self, alloc: Global, word: &str) -> Result<(), LabelFault>
        ensures { Adds self.old self.new word.now result }
    {
        let Some((key, value)) = word.split_once('=') else {
            return Err(LabelFault::NoValue);
        };
        if let Some(fault) = key_fault(self.as_slice(), key.as_bytes()) {
            return Err(fault);
        }
        add_label(alloc, &mut self.labels, key, value)?;
        Ok(())
    }

    /// The labels.
    #[tactic(auto, unfolding(crate::specs::MetricData::labels_in))]
    pub(crate) fn as_slice(&self) -> &[Label]
        ensures labels { map label_of result.now ≡ self.now }
        ensures added { AreAdded self.now }
    {
        &self.labels
    }
}

// ---- keys

// What is wrong with the key of one more.
fn key_fault(labels: &[Label], key: &[u8]) -> Option<LabelFault>
    ensures { result ≡ key_fault (map label_of labels.now) key.now }
{
    if !is_key(key) {
        return Some(LabelFault::BadKey);
    }
    if is_taken(key) {
        return Some(LabelFault::Taken);
    }
    if has_key(labels, key) {
        return Some(LabelFault::Twice);
    }
    None
}

// A name of the format that Prometheus doesn't keep for itself.
fn is_key(key: &[u8]) -> bool
    ensures { result ≡ (is_name key.now && not (is_reserved key.now)) }
{
    is_name(key) && !is_reserved(key)
}

fn is_name(key: &[u8]) -> bool
    ensures { result ≡ is_name key.now }
{
    match key.split_first() {
        Some((first, more)) => is_letter(*first) && are_in_name(more),
        None => false,
    }
}

fn are_in_name(bytes: &[u8]) -> bool
    ensures { result ≡ list_all is_in_name bytes.now }
{
    for byte in bytes {
        if !is_in_name(*byte) {
            return false;
        }
    }
    true
}

fn is_letter(byte: u8) -> bool
    ensures { result ≡ is_letter byte }
{
    byte.is_ascii_alphabetic() || byte == b'_'
}

fn is_in_name(byte: u8) -> bool
    ensures { result ≡ is_in_name byte }
{
    is_letter(byte) || byte.is_ascii_digit()
}

fn is_reserved(key: &[u8]) -> bool
    ensures { result ≡ is_reserved key.now }
{
    key.len() >= 2 && key[0] == b'_' && key[1] == b'_'
}

fn has_key(labels: &[Label], key: &[u8]) -> bool
    ensures { result ≡ has_key (map label_of labels.now) key.now }
{
    for label in labels {
        if key == label.key.as_bytes() {
            return true;
        }
    }
    false
}

// Whether samples have it by themselves.
#[tactic(auto, unfolding(crate::specs::CommonLabels::is_taken))]
fn is_taken(key: &[u8]) -> bool
    ensures { result ≡ spec.is_taken key.now }
{
    is_sample_key(key)
        || is_row_key(inventory_lines(Family::Cmis), key)
        || is_row_key(inventory_lines(Family::Sff8636), key)
}

fn is_sample_key(key: &[u8]) -> bool
    ensures { result ≡ list_any (bytes_eq key.now) sample_keys }
{
    key == b"lane".as_slice()
        || key == b"flag".as_slice()
        || key == b"limit".as_slice()
        || key == b"state".as_slice()
        || key == b"status".as_slice()
        || key == b"sum".as_slice()
        || key == b"code".as_slice()
        || key == b"scope".as_slice()
        || key == b"vdm_instance".as_slice()
}

fn is_row_key(lines: &'static [Line], key: &[u8]) -> bool
    ensures { result ≡ is_row_key (rows_in lines.now) key.now }
{
    for line in lines {
        if has_label(&line.source) && is_snake(line.name, key) {
            return true;
        }
    }
    false
}

fn has_label(source: &Source<&'static str>) -> bool
    ensures { result ≡ spec.is_label (source_in source.now) }
{
    match source {
        Source::Word(..)
        | Source::Either(..)
        | Source::Code(..)
        | Source::Revision(..)
        | Source::Next(..)
        | Source::Text(..)
        | Source::Oui(..) => true,
        _ => false,
    }
}

// Whether the key is the name with an underscore for each byte that is no small letter or digit.
fn is_snake(name: &str, key: &[u8]) -> bool
    ensures { result ≡ bytes_eq key.now (snake name.now) }
{
    let name = name.as_bytes();
    if key.len() != name.len() {
        return false;
    }
    for (index, byte) in key.iter().enumerate() {
        if char::from(*byte) != word_letter('_', name[index]) {
            return false;
        }
    }
    true
}
