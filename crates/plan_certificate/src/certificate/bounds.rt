// What bounds the gain of each state that has an entry.
ghost use Rattle.std.specs.Prelude.{◌≡◌, ◌<◌, ◌≤◌, [], None, Some, replicate, slice_index_or, slice_set};
ghost use Rattle.plan_certificate.specs.Bounds.{IsStated, potential_at};

use crate::state::STATES;
use std::marker::Model;
use text_lines::{read_decimal, split_line};

/// The upper byte of a state that has none.
const NONE: u8 = 0;

/// The upper byte of one that stands in the text.
const IN_TEXT: u8 = 1;

/// Where the potential begins in the line of a state, as in `state 8 ff 40`.
const POTENTIAL: usize = 11;

/// From here on a potential stands in the text alone. From what decisions reach, less can be gained: eight paths weigh less.
pub const LARGE_POTENTIAL: u64 = 1090921693184;

/// By the places of states, the bound of each state that has one, in five bytes and not nine, for firmware has little stack. For a
/// larger one these say where its line begins in the text.
#[derive(Debug, Drop)]
pub(crate) struct Bounds<'text> {
    text: &'text [u8],
    low: [u32; STATES],
    high: [u8; STATES],
}

impl<'text> Model for Bounds<'text> {
    ghost use Rattle.plan_certificate.specs.Bounds.{AreBounds, Bounded, bounds_of};

    ghost Value = { Bounded };

    ghost view = { λ bounds. record { text = bounds.text.now; bounds = bounds_of bounds.text.now bounds.low bounds.high } };

    ghost invariant = { λ bounds. AreBounds bounds.text.now bounds.low bounds.high };
}

impl<'text> Bounds<'text> {
    /// No state has one.
    pub(crate) fn none() -> Self
        ensures { result ≡ record { text = []; bounds = replicate STATES None } }
    {
        Bounds {
            text: b"",
            low: [0; STATES],
            high: [0; STATES],
        }
    }

    /// Takes the text in which larger ones are to stand.
    pub(crate) fn begin(&mut self, text: &'text [u8])
        requires { self.old.bounds ≡ replicate STATES None }
        ensures { self.new ≡ record { text = text.now; bounds = replicate STATES None } }
    {
        self.text = text;
    }

    /// That of the state at a place, if it has one.
    pub(crate) fn at(&self, place: usize) -> Option<u64>
        requires { place < STATES }
        ensures { result ≡ slice_index_or self.now.bounds place None }
    {
        let (text, lows, highs) = (self.text, &self.low, &self.high);
        let (low, high) = (lows[place], highs[place]);
        if high == NONE {
            None
        } else if high == IN_TEXT {
            Some(potential_at(text, low as usize))
        } else {
            Some(u64::from(low) + 4294967296 * (u64::from(high) - 2))
        }
    }

    /// Puts one for the state at a place. If it is large, the line of the state begins there in the text.
    pub(crate) fn put(&mut self, place: usize, potential: u64, at: usize)
        requires place { place < STATES }
        requires near { at < 4294967296 }
        requires stated { LARGE_POTENTIAL ≤ potential → IsStated self.old.text at }
        requires same { LARGE_POTENTIAL ≤ potential → potential_at self.old.text at ≡ potential }
        ensures { self.new ≡ record { text = self.old.text; bounds = slice_set self.old.bounds place (Some potential) } }
    {
        if potential < LARGE_POTENTIAL {
            self.low[place] = (potential % 4294967296) as u32;
            self.high[place] = (potential / 4294967296) as u8 + 2;
        } else {
            self.low[place] = at as u32;
            self.high[place] = IN_TEXT;
        }
    }
}

// The potential in the line of a state that begins there. Not inlined, since hardly any certificate has such a one. It reads no
// whole line, so that where each line is read, that is inlined.
#[inline(never)]
fn potential_at(text: &[u8], at: usize) -> u64
    requires { IsStated text.now at }
    ensures { result ≡ potential_at text.now at }
{
    match split_line(&text[at..]) {
        Some((line, _)) => read_decimal(&line[POTENTIAL..], u64::MAX).unwrap_or(0),
        None => 0,
    }
}
