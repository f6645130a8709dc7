//! All that a module measures, in the order of the list.
ghost use Rattle.std.specs.Prelude.{◌≡◌, ◌≤◌, ◌<◌, ◌+◌, ◌*◌, ◌/◌, ◌%◌, ℕ, max, None, Some, IfOk, IfSome, MatchOption};
ghost use Rattle.observables.specs.Monitors.{MonitorFits};
ghost use Rattle.observables.specs.Observations as spec;
ghost use Rattle.observables.specs.Observations.{IsNextObservation, all_places, monitor_places, observations_before};
ghost use Rattle.observables.specs.Words.{page_of};

use crate::monitor::Monitor;
use crate::observation::{
    LANES, MONITOR_PLACES, Observation, measured, monitor_of, observation_at,
};
use crate::words::{byte_in, page_of};
use paged_memory::{Image, PAGE_LEN};
use std::alloc::{AllocError, Global};

// How many pages describe instances, four of each bank, and how many each.
const DESCRIBING_PAGES: u16 = 16;

const INSTANCES_OF_PAGE: u16 = 64;

/// All of them.
#[tactic(auto, using(crate::proofs::MoreObservations::one_more, crate::proofs::MoreObservations::no_more))]
pub fn all_observations(alloc: Global, image: &Image) -> Result<Vec<Observation>, AllocError>
    ensures { IfOk result (λ all. all.items ≡ observations_before image.now all_places) }
{
    let mut all = Vec::new(alloc);
    let mut from = 0;
    while let Some((place, observation)) = next_observation(image, from) {
        all.push(observation)?;
        from = place + 1;
    }
    Ok(all)
}

/// The first observation from a place on, with its place. The next one begins at the place after that.
#[tactic(auto, using(crate::proofs::NextObservations::next))]
pub fn next_observation(image: &Image, from: u16) -> Option<(u16, Observation)>
    ensures first { MatchOption result ((k : ℕ) → from ≤ k → k < all_places → spec.observation_at image.now k ≡ None) (IsNextObservation image.now from) }
    ensures within { IfSome result (λ found. found.0 < all_places) }
{
    for number in from / LANES..MONITOR_PLACES / LANES {
        if let Some(found) = next_of_monitor(image, number, from) {
            return Some(found);
        }
    }
    next_of_instances(image, from.max(MONITOR_PLACES))
}

// The first from a place on of those of a monitor: none if the module's family lacks it.
fn next_of_monitor(image: &Image, number: u16, from: u16) -> Option<(u16, Observation)>
    requires { 32 * number < monitor_places }
    ensures first { MatchOption result ((k : ℕ) → max from (32 * number) ≤ k → k < 32 * (number + 1) → spec.observation_at image.now k ≡ None)
        (IsNextObservation image.now (max from (32 * number))) }
{
    let Some(monitor) = monitor_of(image, number as u8) else {
        return None;
    };
    let first = LANES * number;
    for place in from.max(first)..first + LANES {
        if let Some(observation) = measured_at(image, number, monitor, place) {
            return Some((place, observation));
        }
    }
    None
}

// The observation at a place of those of a monitor.
fn measured_at(image: &Image, _number: u16, monitor: Monitor, place: u16) -> Option<Observation>
    requires few { 32 * _number < monitor_places }
    requires first { 32 * _number ≤ place }
    requires last { place < 32 * (_number + 1) }
    requires row { spec.monitor_of image.now _number ≡ Some monitor }
    requires fits { MonitorFits monitor }
    ensures { result ≡ spec.observation_at image.now place }
{
    measured(image, monitor, (place % LANES) as u8 + 1)
}

// The first from a place of instances on.
fn next_of_instances(image: &Image, from: u16) -> Option<(u16, Observation)>
    requires { monitor_places ≤ from }
    ensures first { MatchOption result ((k : ℕ) → from ≤ k → k < all_places → spec.observation_at image.now k ≡ None) (IsNextObservation image.now from) }
{
    for page in (from - MONITOR_PLACES) / INSTANCES_OF_PAGE..DESCRIBING_PAGES {
        if let Some(found) = next_on_page(image, page, from) {
            return Some(found);
        }
    }
    None
}

// The first from a place on of the instances that a page describes: none if it is absent.
fn next_on_page(image: &Image, page: u16, from: u16) -> Option<(u16, Observation)>
    requires { page < 16 }
    ensures first { MatchOption result ((k : ℕ) → max from (monitor_places + 64 * page) ≤ k → k < monitor_places + 64 * (page + 1) → spec.observation_at image.now k ≡ None)
        (IsNextObservation image.now (max from (monitor_places + 64 * page))) }
{
    let Some(described) = page_of(image, (page / 4) as u8, 0x20 + (page % 4) as u8) else {
        return None;
    };
    let first = MONITOR_PLACES + INSTANCES_OF_PAGE * page;
    for place in from.max(first)..first + INSTANCES_OF_PAGE {
        if let Some(observation) = described_at(image, page, described.bytes(), place) {
            return Some((place, observation));
        }
    }
    None
}

// The observation at a place of those that a page describes: none if it says that the instance is unused.
fn described_at(
    image: &Image,
    _page: u16,
    described: &[u8; PAGE_LEN],
    place: u16,
) -> Option<Observation>
    requires few { _page < 16 }
    requires first { monitor_places + 64 * _page ≤ place }
    requires last { place < monitor_places + 64 * (_page + 1) }
    requires page { page_of image.now (_page / 4) (32 + _page % 4) ≡ Some described.now }
    ensures { result ≡ spec.observation_at image.now place }
{
    let kind = byte_in(described, 129 + 2 * (place % INSTANCES_OF_PAGE) as u8);
    if kind == 0 {
        return None;
    }
    observation_at(image, place)
}
