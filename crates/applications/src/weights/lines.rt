// Weights as lines, which are read without memory.
ghost use Rattle.std.specs.Prelude.{◌≡◌, ◌==◌, ◌<◌, ◌≤◌, ◌∷◌, length, IfSome, List, MatchOption, MatchResult, true};
ghost use Rattle.std.specs.List.{after_first, before_first, list_all, position, position_or_len};
ghost use Rattle.std.specs.Str.{is_utf8};
ghost use Rattle.text_lines.specs.Lines.{lines_of};
ghost use Rattle.applications.specs.WeightLines.{Drafts, IsAnswer, IsLineFault, Says, SaysIn, is_plain_byte, is_plain_line, may_follow, trimmed};
ghost use Rattle.applications.specs.declared.weights.lines.Said.{Said};

use super::keys::id_of_key;
use text_lines::{read_decimal, split_line};
use thiserror::Error;

const HOST_LINE: &[u8] = b"[host]";

/// Why lines say no weights.
#[derive(Clone, Copy, Debug, PartialEq, Eq, Error)]
#[error("the lines say no weights")]
pub enum WeightLinesFault {
    /// The line of this number, from 1 on, may not stand there.
    BadLine(usize),
    /// The line of this number writes a HostInterfaceID that an earlier one writes.
    SameIdTwice(usize),
    /// There is no line `[host]`.
    NoHost,
}

/// What a line says.
#[derive(Clone, Copy)]
pub enum Said {
    /// It has only blanks and a comment.
    Nothing,
    /// `[host]`
    Host,
    /// A HostInterfaceID and its weight.
    Weight(u8, u32),
}

// What the lines so far say.
#[derive(Drop)]
struct Draft {
    has_host: bool,
    listed: [bool; 256],
    by_host_id: [u32; 256],
}

/// The weights by HostInterfaceID that lines list after a line `[host]`. Such lines are a TOML document with the same weights.
#[tactic(auto, using(crate::proofs::SaidLines::read_fault))]
pub fn read_weight_lines(text: &[u8]) -> Result<[u32; 256], WeightLinesFault>
    ensures { IsAnswer (lines_of text.now) result }
{
    let mut draft = Draft {
        has_host: false,
        listed: [false; 256],
        by_host_id: [0; 256],
    };
    let mut number = 0;
    let mut rest = text;
    while let Some((line, after)) = split_line(rest) {
        number += 1;
        draft.take(line, number)?;
        rest = after;
    }
    if !draft.has_host {
        return Err(WeightLinesFault::NoHost);
    }
    Ok(draft.by_host_id)
}

impl Draft {
    // Takes the line of this number, which follows those so far.
    #[tactic(auto, using(crate::proofs::SaidLines::same_said))]
    fn take(&mut self, line: &[u8], number: usize) -> Result<(), WeightLinesFault>
        ensures { (before : List Said) → Drafts before self.old →
            MatchResult result
            (λ _. (said : Said) × Says line.now said × (may_follow before said ≡ true) × Drafts (said ∷ before) self.new)
            (IsLineFault before line.now number) }
    {
        let bad = WeightLinesFault::BadLine(number);
        let Some(said) = said_by(line) else {
            return Err(bad);
        };
        match said {
            Said::Nothing => {}
            Said::Host => {
                if self.has_host {
                    return Err(bad);
                }
                self.has_host = true;
            }
            Said::Weight(host_id, weight) => {
                if !self.has_host {
                    return Err(bad);
                }
                if self.listed[usize::from(host_id)] {
                    return Err(WeightLinesFault::SameIdTwice(number));
                }
                self.listed[usize::from(host_id)] = true;
                self.by_host_id[usize::from(host_id)] = weight;
            }
        }
        Ok(())
    }
}

// What a line says, if it may stand in such a text at all.
fn said_by(line: &[u8]) -> Option<Said>
    ensures { MatchOption result ((said : Said) → ¬ (Says line.now said)) (λ said. Says line.now said) }
{
    if !is_plain(line) {
        return None;
    }
    let (content, _comment) = cut(line, b'#');
    said_in(trimmed(content))
}

// What a line with this content says.
#[tactic(auto, unfolding(crate::specs::WeightLines::host_line))]
fn said_in(content: &[u8]) -> Option<Said>
    ensures { MatchOption result ((said : Said) → ¬ (SaysIn content.now said)) (λ said. SaysIn content.now said) }
{
    if content.is_empty() {
        return Some(Said::Nothing);
    }
    if content == HOST_LINE {
        return Some(Said::Host);
    }
    let (key, value) = cut(content, b'=');
    let host_id = id_of_key(trimmed(key))?;
    let weight = read_decimal(trimmed(value), u64::from(u32::MAX))?;
    Some(Said::Weight(host_id, weight as u32))
}

// Whether a line is text without control characters other than tabs.
fn is_plain(line: &[u8]) -> bool
    ensures { result ≡ is_plain_line line.now }
{
    is_text(line) && has_plain_bytes(line)
}

#[tactic(auto, using(crate::proofs::WeightAnswers::is_text, crate::proofs::WeightAnswers::no_text))]
fn is_text(line: &[u8]) -> bool
    ensures { result ≡ is_utf8 line.now }
{
    match std::str::from_utf8(line) {
        Ok(_) => true,
        Err(_) => false,
    }
}

fn has_plain_bytes(line: &[u8]) -> bool
    ensures { result ≡ list_all is_plain_byte line.now }
{
    line.iter().all(|byte| is_plain_byte(*byte))
}

fn is_plain_byte(byte: u8) -> bool
    ensures { result ≡ is_plain_byte byte }
{
    byte == b'\t' || 32 <= byte && byte != 127
}

// Without the blanks at both ends.
fn trimmed(bytes: &[u8]) -> &[u8]
    ensures { result.now ≡ trimmed bytes.now }
{
    bytes.trim_ascii()
}

// What stands before the first such byte, and what after it.
fn cut(bytes: &[u8], at: u8) -> (&[u8], &[u8])
    ensures before { result.0.now ≡ before_first (λ byte. byte == at) bytes.now }
    ensures after { result.1.now ≡ after_first (λ byte. byte == at) bytes.now }
{
    let place = place_of(bytes, at);
    (&bytes[..place], &bytes[(place + 1).min(bytes.len())..])
}

// How many bytes stand before it.
#[tactic(auto, using(text_lines::proofs::LineEnds::place_or_length))]
fn place_of(bytes: &[u8], at: u8) -> usize
    ensures within { result ≤ length bytes.now }
    ensures place { result ≡ position_or_len (λ byte. byte == at) bytes.now }
{
    find_byte(bytes, at).unwrap_or(bytes.len())
}

fn find_byte(bytes: &[u8], at: u8) -> Option<usize>
    ensures within { IfSome result (λ place. place < length bytes.now) }
    ensures place { result ≡ position (λ byte. byte == at) bytes.now }
{
    bytes.iter().position(|byte| *byte == at)
}
