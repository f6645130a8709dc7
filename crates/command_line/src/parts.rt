//! The parts of the program's input, between lines that are exactly `---`.
ghost use Rattle.std.specs.Borrow.{Bor};
ghost use Rattle.std.specs.Prelude.{◌≡◌, ◌≢◌, ◌≤◌, ◌∷◌, [], ℕ, List, map, length, option_map, slice_get, MatchResult};
ghost use Rattle.std.specs.Option.{option_map_or};
ghost use Rattle.std.specs.Iterator.{YieldsFirstBy, item_count};
ghost use Rattle.command_line.specs.Parts.{is_separator_line, most_parts, parts_left, parts_of};
ghost use Rattle.command_line.specs.Limits.{input_limit};

use crate::fault::Fault;
use arrayvec::ArrayVec;
use text_lines::{LF, split_ended_line};

/// The most parts that a command takes.
pub const MAX_PARTS: usize = 4;

/// The parts of an input, if there are so many.
// A function of its own once compiled too: its loop is slower where it shares registers with its caller's.
#[inline(never)]
pub fn parts(input: &[u8], count: usize) -> Result<ArrayVec<&[u8], MAX_PARTS>, Fault>
    requires room { count ≤ most_parts }
    requires limit { length input.now ≤ input_limit }
    ensures { MatchResult result
        (λ parts. (map (λ part. part.now) parts.items ≡ parts_of input.now) × (length parts.items ≡ count))
        (λ fault. (fault ≡ Fault.Parts (length (parts_of input.now))) × (length (parts_of input.now) ≢ count)) }
{
    let mut parts = ArrayVec::new();
    let mut found = 0;
    for part in Pieces::of(input) {
        found += 1;
        let _further = parts.try_push(part);
    }
    if found != count {
        return Err(Fault::Parts(found));
    }
    Ok(parts)
}

/// The part of this number, from 0 on, if there is one.
pub fn part(input: &[u8], number: usize) -> Option<&[u8]>
    ensures { option_map (λ (part : Bor (List ℕ)). part.now) result ≡ slice_get (parts_of input.now) number }
{
    Pieces::of(input).nth(number)
}

// The parts of an input from the first to the last; none once the last has been given.
#[derive(Clone, Copy)]
struct Pieces<'a> {
    rest: Option<&'a [u8]>,
}

impl<'a> Pieces<'a> {
    fn of(input: &'a [u8]) -> Self
        ensures { parts_left result ≡ parts_of input.entry.now }
    {
        Pieces { rest: Some(input) }
    }
}

impl<'a> Iterator for Pieces<'a> {
    type Item = &'a [u8];

    ghost next_gives = { YieldsFirstBy (λ part. part.now) parts_left };

    ghost remaining = { item_count parts_left };

    fn next(&mut self) -> Option<&'a [u8]> {
        let (part, rest) = split_part(self.rest?);
        self.rest = rest;
        Some(part)
    }
}

// The first part, and what stands after the separator that ends it, if one does.
fn split_part(text: &[u8]) -> (&[u8], Option<&[u8]>)
    ensures { parts_of text.now ≡ result.0.now ∷ option_map_or (λ rest. parts_of rest.now) result.1 [] }
{
    let mut len = 0;
    let mut rest = text;
    while let Some((line, after)) = split_ended_line(rest) {
        if is_separator(line) {
            return (&text[..len], Some(after));
        }
        len += line.len();
        rest = after;
    }
    (text, None)
}

fn is_separator(line: &[u8]) -> bool
    ensures { result ≡ is_separator_line line.now }
{
    line == b"---".as_slice() || line == b"---\n".as_slice()
}
