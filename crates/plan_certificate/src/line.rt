// The lines of a certificate's text.
ghost use Rattle.std.specs.Prelude.{◌≡◌, ◌≢◌, ◌<◌, ◌≤◌, ℕ, List, [], ◌∷◌, Some, codes, map, MatchOption};
ghost use Rattle.std.specs.Fmt.{decimal};
ghost use Rattle.plan_certificate.specs.declared.path.Path.{Path};
ghost use Rattle.plan_certificate.specs.declared.certificate.Entry.{Entry};
ghost use Rattle.plan_certificate.specs.declared.line.Line.{Line};
ghost use Rattle.plan_certificate.specs.CertificateText.{path_values, state_values, line_words, line_text, IsPathInRange, IsEntryInRange, IsLineInRange};

use crate::certificate::Entry;
use crate::path::Path;
use crate::state::HOST_LANES;
use text_lines::{read_decimal, read_hex_byte, split_words};

/// A line of a certificate's text.
#[derive(Clone, Copy)]
pub enum Line {
    /// Nothing is kept: version 1, or 3 if the certificate is for a module that pairs first lanes.
    Header(bool),
    /// Kept paths follow the weight: version 2, or likewise 4.
    KeptHeader(bool),
    Weight(u64),
    KeepLine(Path),
    PathLine(Path),
    StateLine(Entry),
    End,
}

/// The line that bytes spell.
pub fn read_line(bytes: &[u8]) -> Option<Line>
    ensures { MatchOption result ((line : Line) → IsLineInRange line → bytes.now ≢ line_text line)
        (λ line. IsLineInRange line × (bytes.now ≡ line_text line)) }
{
    let Some(words) = split_words::<4>(bytes) else {
        return None;
    };
    read_words(&words)
}

#[tactic(auto, unfolding(crate::specs::CertificateText::line_words))]
fn read_words(words: &[&[u8]]) -> Option<Line>
    ensures { MatchOption result ((line : Line) → IsLineInRange line → map (λ word. word.now) words.now ≢ line_words line)
        (λ line. IsLineInRange line × (map (λ word. word.now) words.now ≡ line_words line)) }
{
    let Some((name, values)) = words.split_first() else {
        return None;
    };
    match values {
        [] => read_end(name),
        [value] => read_head(name, value),
        [first, second, third] => read_item(name, first, second, third),
        _ => None,
    }
}

#[tactic(auto, unfolding(crate::specs::CertificateText::line_words))]
fn read_end(name: &[u8]) -> Option<Line>
    ensures { MatchOption result ((line : Line) → IsLineInRange line → name.now ∷ [] ≢ line_words line)
        (λ line. IsLineInRange line × (name.now ∷ [] ≡ line_words line)) }
{
    if name == b"end".as_slice() {
        Some(Line::End)
    } else {
        None
    }
}

// The header or the weight.
#[tactic(auto, unfolding(crate::specs::CertificateText::line_words))]
fn read_head(name: &[u8], value: &[u8]) -> Option<Line>
    ensures { MatchOption result ((line : Line) → IsLineInRange line → name.now ∷ value.now ∷ [] ≢ line_words line)
        (λ line. IsLineInRange line × (name.now ∷ value.now ∷ [] ≡ line_words line)) }
{
    if name == b"certificate".as_slice() {
        return read_version(value);
    }
    if name != b"weight".as_slice() {
        return None;
    }
    match read_decimal(value, u64::MAX) {
        Some(weight) => Some(Line::Weight(weight)),
        None => None,
    }
}

#[tactic(auto, unfolding(crate::specs::CertificateText::line_words))]
fn read_version(value: &[u8]) -> Option<Line>
    ensures { MatchOption result ((line : Line) → IsLineInRange line → codes "certificate" ∷ value.now ∷ [] ≢ line_words line)
        (λ line. IsLineInRange line × (codes "certificate" ∷ value.now ∷ [] ≡ line_words line)) }
{
    if value == b"1".as_slice() {
        Some(Line::Header(false))
    } else if value == b"2".as_slice() {
        Some(Line::KeptHeader(false))
    } else if value == b"3".as_slice() {
        Some(Line::Header(true))
    } else if value == b"4".as_slice() {
        Some(Line::KeptHeader(true))
    } else {
        None
    }
}

// A kept path, a path or a state.
#[tactic(auto, unfolding(crate::specs::CertificateText::line_words))]
fn read_item(name: &[u8], first: &[u8], second: &[u8], third: &[u8]) -> Option<Line>
    ensures { MatchOption result ((line : Line) → IsLineInRange line → name.now ∷ first.now ∷ second.now ∷ third.now ∷ [] ≢ line_words line)
        (λ line. IsLineInRange line × (name.now ∷ first.now ∷ second.now ∷ third.now ∷ [] ≡ line_words line)) }
{
    // States first, since most lines are theirs.
    if name == b"state".as_slice() {
        match read_entry(first, second, third) {
            Some(entry) => Some(Line::StateLine(entry)),
            None => None,
        }
    } else if name == b"path".as_slice() {
        match read_path(first, second, third) {
            Some(path) => Some(Line::PathLine(path)),
            None => None,
        }
    } else if name == b"keep".as_slice() {
        match read_path(first, second, third) {
            Some(path) => Some(Line::KeepLine(path)),
            None => None,
        }
    } else {
        None
    }
}

fn read_path(app: &[u8], host: &[u8], media: &[u8]) -> Option<Path>
    ensures { MatchOption result ((path : Path) → IsPathInRange path → app.now ∷ host.now ∷ media.now ∷ [] ≢ path_values path)
        (λ path. IsPathInRange path × (app.now ∷ host.now ∷ media.now ∷ [] ≡ path_values path)) }
{
    let Some(app) = read_small(app, u8::MAX) else {
        return None;
    };
    let Some(host) = read_small(host, u8::MAX) else {
        return None;
    };
    let Some(media) = read_small(media, u8::MAX) else {
        return None;
    };
    Some(Path { app, host, media })
}

fn read_entry(boundary: &[u8], used: &[u8], potential: &[u8]) -> Option<Entry>
    ensures { MatchOption result ((entry : Entry) → IsEntryInRange entry → boundary.now ∷ used.now ∷ potential.now ∷ [] ≢ state_values entry)
        (λ entry. IsEntryInRange entry × (boundary.now ∷ used.now ∷ potential.now ∷ [] ≡ state_values entry)) }
{
    let Some(boundary) = read_small(boundary, HOST_LANES) else {
        return None;
    };
    let Some(used) = read_hex_byte(used) else {
        return None;
    };
    let Some(potential) = read_decimal(potential, u64::MAX) else {
        return None;
    };
    Some(Entry {
        boundary,
        used,
        potential,
    })
}

fn read_small(word: &[u8], limit: u8) -> Option<u8>
    ensures { MatchOption result ((n : ℕ) → n ≤ limit → word.now ≢ decimal n) (λ n. (n ≤ limit) × (word.now ≡ decimal n)) }
{
    match read_decimal(word, u64::from(limit)) {
        Some(number) => Some(number as u8),
        None => None,
    }
}
