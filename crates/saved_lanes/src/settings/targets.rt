// What each lane is to have, and what a module can do, from numbers and to numbers.
ghost use Rattle.std.specs.Prelude.{◌≡◌, ◌≤◌, ◌<◌, length};
ghost use Rattle.saved_lanes.specs.SettingsTargets as spec;

use crate::settings::numbers::{SavedLimits, SavedSettingsChange, SavedTargets};
use field_tables::{LaneNumber, LaneSet};
use lane_controls::{
    LaneSettings, SettingFault, SettingsChange, SignalLimits, SignalTargets, settings_of,
    staged_settings,
};

/// Why a change of settings isn't begun.
#[derive(Clone, Copy, Debug, PartialEq, Eq)]
pub enum SettingsRefusal {
    /// One of the lanes may not be disturbed.
    NotPermitted,
    /// The module doesn't advertise one of the targets.
    NotAdvertised(SettingFault),
}

/// A setting that is a number for each lane.
#[derive(Clone, Copy)]
pub enum Part {
    Recall,
    FixedInput,
    PreCursor,
    PostCursor,
    Amplitude,
}

/// The settings of the eight lanes that bytes 153 to 173 of page 10h have, or bytes 214 to 234 of page 11h.
pub fn targets_of(bytes: &[u8]) -> SavedTargets
    requires { length bytes.now ≡ 21 }
    ensures { result ≡ spec.targets_of bytes.now }
{
    SavedTargets {
        adaptive: bytes[0],
        recall: each_lane(bytes, Part::Recall),
        fixed_input: each_lane(bytes, Part::FixedInput),
        recover_tx: bytes[7],
        recover_rx: bytes[8],
        pre_cursor: each_lane(bytes, Part::PreCursor),
        post_cursor: each_lane(bytes, Part::PostCursor),
        amplitude: each_lane(bytes, Part::Amplitude),
    }
}

fn each_lane(bytes: &[u8], part: Part) -> [u8; 8]
    requires { length bytes.now ≡ 21 }
    ensures { result ≡ spec.each_lane part bytes.now }
{
    [
        part_at(bytes, part, 1),
        part_at(bytes, part, 2),
        part_at(bytes, part, 3),
        part_at(bytes, part, 4),
        part_at(bytes, part, 5),
        part_at(bytes, part, 6),
        part_at(bytes, part, 7),
        part_at(bytes, part, 8),
    ]
}

fn part_at(bytes: &[u8], part: Part, lane: u8) -> u8
    requires whole { length bytes.now ≡ 21 }
    requires from_one { 1 ≤ lane }
    requires to_eight { lane ≤ 8 }
    ensures { result ≡ spec.part_at part bytes.now lane }
{
    part_of(settings_of(bytes, lane), part)
}

fn part_of(settings: LaneSettings, part: Part) -> u8
    ensures { result ≡ spec.part_of part settings }
{
    match part {
        Part::Recall => settings.recall,
        Part::FixedInput => settings.fixed_input,
        Part::PreCursor => settings.pre_cursor,
        Part::PostCursor => settings.post_cursor,
        Part::Amplitude => settings.amplitude,
    }
}

/// What a module can do that has these bytes 153 and 154 on page 01h.
pub fn limits_of(amplitudes_and_input: u8, cursors: u8) -> SavedLimits
    ensures { result ≡ spec.limits_of amplitudes_and_input cursors }
{
    SavedLimits {
        amplitudes: amplitudes_and_input / 16,
        fixed_input: amplitudes_and_input % 16,
        pre_cursor: cursors % 16,
        post_cursor: cursors / 16,
    }
}

fn limits_in(limits: &SavedLimits) -> SignalLimits
    ensures { result ≡ spec.limits_in limits.now }
{
    SignalLimits {
        amplitudes_and_input: amplitudes_in(limits.amplitudes) * 16 + limits.fixed_input % 16,
        cursors: limits.post_cursor % 16 * 16 + limits.pre_cursor % 16,
    }
}

// A module that advertises no amplitude has none to choose: its code is 0.
fn amplitudes_in(amplitudes: u8) -> u8
    ensures value { result ≡ spec.amplitudes_in amplitudes }
    ensures small { result ≤ 15 }
{
    match amplitudes % 16 {
        0 => 1,
        codes => codes,
    }
}

/// What is to be changed, of a module that can do this much.
pub fn change_of(
    change: &SavedSettingsChange,
    limits: &SavedLimits,
) -> Result<SettingsChange, SettingsRefusal>
    ensures { result ≡ spec.change_of change.now limits.now }
{
    let lanes = LaneSet::from(change.lanes);
    if !lanes.is_subset(LaneSet::from(change.permitted)) {
        return Err(SettingsRefusal::NotPermitted);
    }
    match staged_settings(&targets_in(&change.targets, lanes), limits_in(limits)) {
        Ok(settings) => Ok(SettingsChange {
            lanes,
            settings,
            tries: change.tries,
        }),
        Err(fault) => Err(SettingsRefusal::NotAdvertised(fault)),
    }
}

fn targets_in(targets: &SavedTargets, lanes: LaneSet) -> SignalTargets
    ensures { result ≡ spec.targets_in targets.now lanes }
{
    SignalTargets {
        adaptive: targets.adaptive,
        recall: of_lanes(&targets.recall, lanes),
        fixed_input: of_lanes(&targets.fixed_input, lanes),
        recover_tx: targets.recover_tx,
        recover_rx: targets.recover_rx,
        pre_cursor: of_lanes(&targets.pre_cursor, lanes),
        post_cursor: of_lanes(&targets.post_cursor, lanes),
        amplitude: of_lanes(&targets.amplitude, lanes),
    }
}

// Other lanes get what the lowest of these lanes gets, so that nothing about them is refused.
fn of_lanes(values: &[u8; 8], lanes: LaneSet) -> [u8; 8]
    ensures { result ≡ spec.of_lanes lanes values.now }
{
    [
        value_for(values, lanes, 1),
        value_for(values, lanes, 2),
        value_for(values, lanes, 3),
        value_for(values, lanes, 4),
        value_for(values, lanes, 5),
        value_for(values, lanes, 6),
        value_for(values, lanes, 7),
        value_for(values, lanes, 8),
    ]
}

fn value_for(values: &[u8; 8], lanes: LaneSet, lane: u8) -> u8
    requires from_one { 1 ≤ lane }
    requires to_eight { lane ≤ 8 }
    ensures { result ≡ spec.value_for lanes values.now lane }
{
    if lanes.contains(lane) {
        values[usize::from(lane) - 1]
    } else {
        values[lowest_place(lanes)]
    }
}

fn lowest_place(lanes: LaneSet) -> usize
    ensures value { result ≡ spec.lowest_place lanes }
    ensures small { result < 8 }
{
    place_of(lowest_of(lanes))
}

fn lowest_of(lanes: LaneSet) -> Option<LaneNumber>
    ensures { result ≡ spec.lowest_of lanes }
{
    LaneNumber::all()
        .iter()
        .copied()
        .find(|lane| lanes.contains(lane.number()))
}

fn place_of(lane: Option<LaneNumber>) -> usize
    ensures value { result ≡ spec.place_of lane }
    ensures small { result < 8 }
{
    match lane {
        Some(lane) => lane.index(),
        None => 0,
    }
}
