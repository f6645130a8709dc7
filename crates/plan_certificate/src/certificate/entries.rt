// The entries of a certificate, by their states.
ghost use Rattle.std.specs.Prelude.{◌≡◌, ◌↔◌, ◌≤◌, ◌<◌, ◌/◌, ◌%◌, ◌==◌, ◌++◌, ◌∷◌, [], IsTrue, find, length};
ghost use Rattle.std.specs.List.{All};
ghost use Rattle.plan_certificate.specs.Bounds.{IsStated, potential_at};
ghost use Rattle.plan_certificate.specs.Certificates.{HasStates, entry_place};
ghost use Rattle.plan_certificate.specs.EntryPlaces.{AreListed, is_from};
ghost use Rattle.plan_certificate.specs.Verdicts as spec;

use super::Entry;
use super::bounds::{Bounds, LARGE_POTENTIAL};
use crate::state::{HOST_LANES, STATES, State};
use std::marker::Model;

/// How many times sixteen places there are.
const BLOCKS: usize = 144;

/// At most so many entries, whose states rise. Each stands at the place of its state, so none is searched for.
#[derive(Debug, Drop)]
pub struct Entries<'text, const ROOM: usize> {
    bounds: Bounds<'text>,
    /// How many entries there are.
    count: usize,
    /// The place after the last state's, or 0.
    end: usize,
    /// Of each sixteen places, whether they may have an entry.
    blocks: [bool; BLOCKS],
}

impl<'text, const ROOM: usize> Model for Entries<'text, ROOM> {
    ghost use Rattle.plan_certificate.specs.EntryPlaces.{AreEntries, Listed, entries_of};

    ghost Value = { Listed };

    ghost view = { λ entries. record { text = entries.bounds.text; entries = entries_of entries.bounds.bounds } };

    ghost invariant = { λ entries. AreEntries ROOM entries.bounds.bounds entries.count entries.end entries.blocks };
}

impl<'text, const ROOM: usize> Entries<'text, ROOM> {
    /// No entry.
    pub fn new() -> Self
        ensures { result ≡ record { text = []; entries = [] } }
    {
        Entries {
            bounds: Bounds::none(),
            count: 0,
            end: 0,
            blocks: [false; BLOCKS],
        }
    }

    /// Takes the text of which the entries are to be.
    pub(crate) fn begin(&mut self, text: &'text [u8])
        requires { self.old.entries ≡ [] }
        ensures { self.new ≡ record { text = text.now; entries = [] } }
    {
        self.bounds.begin(text);
    }

    /// Adds an entry after the others.
    pub fn push(&mut self, entry: Entry)
        requires room { length self.old.entries < ROOM }
        requires state { entry.boundary ≤ 8 }
        requires above { All (λ before. entry_place before < entry_place entry) self.old.entries }
        requires small { entry.potential < LARGE_POTENTIAL }
        ensures { self.new ≡ record { text = self.old.text; entries = self.old.entries ++ entry ∷ [] } }
    {
        self.push_stated(entry, 0);
    }

    /// The same of one whose line begins there in the text.
    pub(crate) fn push_stated(&mut self, entry: Entry, at: usize)
        requires room { length self.old.entries < ROOM }
        requires state { entry.boundary ≤ 8 }
        requires above { All (λ before. entry_place before < entry_place entry) self.old.entries }
        requires near { at < 4294967296 }
        requires stated { LARGE_POTENTIAL ≤ entry.potential → IsStated self.old.text at }
        requires same { LARGE_POTENTIAL ≤ entry.potential → potential_at self.old.text at ≡ entry.potential }
        ensures { self.new ≡ record { text = self.old.text; entries = self.old.entries ++ entry ∷ [] } }
    {
        let place = entry.place();
        self.bounds.put(place, entry.potential, at);
        self.count += 1;
        self.end = place + 1;
        self.blocks[place / 16] = true;
    }

    pub(crate) fn is_empty(&self) -> bool
        ensures { IsTrue result ↔ (self.now.entries ≡ []) }
    {
        self.count == 0
    }

    pub(crate) fn is_full(&self) -> bool
        ensures value { result ≡ (length self.now.entries == ROOM) }
        ensures fits { length self.now.entries ≤ ROOM }
        ensures few { length self.now.entries ≤ STATES }
        ensures states { HasStates self.now.entries }
    {
        self.count == ROOM
    }

    /// Whether the states of all entries come before that of this one.
    pub(crate) fn are_below(&self, entry: &Entry) -> bool
        ensures { IsTrue result ↔ All (λ before. entry_place before < entry_place entry.now) self.now.entries }
    {
        self.end <= entry.place()
    }

    /// What can still be gained from a state, as its entry says, if it has one.
    pub(crate) fn potential_of(&self, state: State) -> Option<u64>
        ensures { result ≡ spec.potential_of self.now.entries state }
    {
        let bounds = &self.bounds;
        if HOST_LANES < state.boundary {
            return None;
        }
        bounds.at(state.place())
    }

    /// The first entry whose state is at a place or past it.
    pub(crate) fn first_from(&self, from: usize) -> Option<Entry>
        ensures first { result ≡ find (is_from from) self.now.entries }
        ensures listed { AreListed ROOM self.now.entries }
    {
        let (bounds, blocks) = (&self.bounds, &self.blocks);
        let mut place = from;
        while place < self.end {
            if !blocks[place / 16] {
                place = 16 * (place / 16) + 16;
            } else {
                match bounds.at(place) {
                    Some(potential) => return Some(entry_at(place, potential)),
                    None => place += 1,
                }
            }
        }
        None
    }
}

// The entry of the state at a place.
fn entry_at(place: usize, potential: u64) -> Entry
    requires { place < STATES }
    ensures { result ≡ record { boundary = place / 256; used = place % 256; potential = potential } }
{
    Entry {
        boundary: (place / 256) as u8,
        used: (place % 256) as u8,
        potential,
    }
}
