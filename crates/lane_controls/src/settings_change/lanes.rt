//! What bytes that were read show of lanes, and what is staged for some of them.
ghost use Rattle.std.specs.Prelude.{◌≡◌, ◌+◌, ◌-◌, ◌≤◌, ◌<◌, ◌||◌, length};
ghost use Rattle.lane_controls.specs.SettingsChanges as spec;
ghost use Rattle.lane_controls.specs.SignalSettings as signal;

use super::SettingsChange;
use crate::merging::merged;
use crate::signal_settings::{LaneSettings, SETTINGS, half_of, settings_of};
use field_tables::{LaneNumber, LaneSet};

/// The lowest of these lanes whose path isn't up.
pub fn down_lane(lanes: LaneSet, states: &[u8]) -> Option<LaneNumber>
    requires { length states.now ≡ 4 }
    ensures { result ≡ spec.down_lane lanes states.now }
{
    LaneNumber::all().iter().copied().find(|lane| lanes.contains(lane.number())
        && !is_up_in(states, *lane))
}

fn is_up_in(states: &[u8], lane: LaneNumber) -> bool
    requires { length states.now ≡ 4 }
    ensures { result ≡ spec.is_up_in states.now lane }
{
    let state = code_of(states, lane);
    state == 4 || state == 7
}

// A state or status of four bits.
fn code_of(codes: &[u8], lane: LaneNumber) -> u8
    requires { length codes.now ≡ 4 }
    ensures { result ≡ signal.half_of codes.now 0 (lane - 1) }
{
    half_of(codes, 0, lane.number() - 1)
}

/// The lowest of these lanes that isn't under explicit control, or is active with another control byte.
pub fn unfit_lane(lanes: LaneSet, staged: &[u8], active: &[u8]) -> Option<LaneNumber>
    requires staged { 8 ≤ length staged.now }
    requires active { length active.now ≡ 8 }
    ensures { result ≡ spec.unfit_lane lanes staged.now active.now }
{
    LaneNumber::all().iter().copied().find(|lane| lanes.contains(lane.number())
        && !is_explicit_in(staged, active, *lane))
}

fn is_explicit_in(staged: &[u8], active: &[u8], lane: LaneNumber) -> bool
    requires staged { 8 ≤ length staged.now }
    requires active { length active.now ≡ 8 }
    ensures { result ≡ spec.is_explicit_in staged.now active.now lane }
{
    let index = lane.index();
    staged[index] == active[index] && active[index] % 2 == 1
}

/// The lowest of these lanes whose configuration was rejected.
pub fn rejected_lane(lanes: LaneSet, statuses: &[u8]) -> Option<LaneNumber>
    requires { length statuses.now ≡ 4 }
    ensures { result ≡ spec.rejected_lane lanes statuses.now }
{
    LaneNumber::all().iter().copied().find(|lane| lanes.contains(lane.number())
        && !is_accepted(statuses, *lane))
}

fn is_accepted(statuses: &[u8], lane: LaneNumber) -> bool
    requires { length statuses.now ≡ 4 }
    ensures { result ≡ (spec.has_status statuses.now 1 lane || spec.has_status statuses.now 12 lane) }
{
    let status = code_of(statuses, lane);
    status == 1 || status == 12
}

/// The lowest of these lanes whose configuration is in progress.
pub fn waiting_lane(lanes: LaneSet, statuses: &[u8]) -> Option<LaneNumber>
    requires { length statuses.now ≡ 4 }
    ensures { result ≡ spec.waiting_lane lanes statuses.now }
{
    LaneNumber::all().iter().copied().find(|lane| lanes.contains(lane.number())
        && code_of(statuses, *lane) == 12)
}

/// The lowest of these lanes that has other settings in the active set.
pub fn inactive_lane(lanes: LaneSet, wanted: &[u8], active: &[u8]) -> Option<LaneNumber>
    requires wanted { length wanted.now ≡ 21 }
    requires active { length active.now ≡ 21 }
    ensures { result ≡ spec.inactive_lane lanes wanted.now active.now }
{
    LaneNumber::all().iter().copied().find(|lane| lanes.contains(lane.number())
        && !has_settings(wanted, active, *lane))
}

fn has_settings(wanted: &[u8], active: &[u8], lane: LaneNumber) -> bool
    requires wanted { length wanted.now ≡ 21 }
    requires active { length active.now ≡ 21 }
    ensures { result ≡ spec.has_settings wanted.now active.now lane }
{
    let want = settings_of(wanted, lane.number());
    let has = settings_of(active, lane.number());
    has_input(want, has) && has_output(want, has)
}

fn has_input(want: LaneSettings, has: LaneSettings) -> bool
    ensures { result ≡ spec.has_input want has }
{
    want.adaptive == has.adaptive
        && want.recall == has.recall
        && want.fixed_input == has.fixed_input
        && want.recover_tx == has.recover_tx
}

fn has_output(want: LaneSettings, has: LaneSettings) -> bool
    ensures { result ≡ spec.has_output want has }
{
    want.recover_rx == has.recover_rx
        && want.pre_cursor == has.pre_cursor
        && want.post_cursor == has.post_cursor
        && want.amplitude == has.amplitude
}

impl SettingsChange {
    /// The settings to be staged where these bytes were read from 145 on: the other lanes' stay.
    #[tactic(auto, unfolding(crate::specs::SettingsChanges::mixed))]
    pub fn mixed(&self, staged: &[u8]) -> [u8; SETTINGS]
        requires { length staged.now ≡ 29 }
        ensures { result ≡ spec.mixed self.now staged.now }
    {
        let lanes = self.lanes.byte();
        let settings = &self.settings;
        [
            mixed_at(settings, staged, 0, lanes),
            mixed_at(settings, staged, 1, quarter_mask(lanes, 0)),
            mixed_at(settings, staged, 2, quarter_mask(lanes, 4)),
            mixed_at(settings, staged, 3, half_mask(lanes, 0)),
            mixed_at(settings, staged, 4, half_mask(lanes, 2)),
            mixed_at(settings, staged, 5, half_mask(lanes, 4)),
            mixed_at(settings, staged, 6, half_mask(lanes, 6)),
            mixed_at(settings, staged, 7, lanes),
            mixed_at(settings, staged, 8, lanes),
            mixed_at(settings, staged, 9, half_mask(lanes, 0)),
            mixed_at(settings, staged, 10, half_mask(lanes, 2)),
            mixed_at(settings, staged, 11, half_mask(lanes, 4)),
            mixed_at(settings, staged, 12, half_mask(lanes, 6)),
            mixed_at(settings, staged, 13, half_mask(lanes, 0)),
            mixed_at(settings, staged, 14, half_mask(lanes, 2)),
            mixed_at(settings, staged, 15, half_mask(lanes, 4)),
            mixed_at(settings, staged, 16, half_mask(lanes, 6)),
            mixed_at(settings, staged, 17, half_mask(lanes, 0)),
            mixed_at(settings, staged, 18, half_mask(lanes, 2)),
            mixed_at(settings, staged, 19, half_mask(lanes, 4)),
            mixed_at(settings, staged, 20, half_mask(lanes, 6)),
        ]
    }
}

fn mixed_at(settings: &[u8], staged: &[u8], index: usize, mask: u8) -> u8
    requires settings { index < length settings.now }
    requires staged { 8 + index < length staged.now }
    ensures { result ≡ spec.mixed_at settings.now staged.now index mask }
{
    merged(mask, settings[index], staged[8 + index])
}

fn half_mask(lanes: u8, first: u8) -> u8
    requires { first < 7 }
    ensures { result ≡ spec.half_mask lanes first }
{
    (lanes >> first & 1) * 15 + (lanes >> (first + 1) & 1) * 240
}

fn quarter_mask(lanes: u8, first: u8) -> u8
    requires { first < 5 }
    ensures { result ≡ spec.quarter_mask lanes first }
{
    (lanes >> first & 1) * 3
        + (lanes >> (first + 1) & 1) * 12
        + (lanes >> (first + 2) & 1) * 48
        + (lanes >> (first + 3) & 1) * 192
}
