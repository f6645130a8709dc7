//! Signal integrity settings of a control set: what is staged for given targets, and what is active.
ghost use Rattle.std.specs.Prelude.{◌≡◌, ◌+◌, ◌≤◌, ◌<◌, ◌↔◌, IsTrue, length, nat_le};
ghost use Rattle.std.specs.List.{list_all};
ghost use Rattle.lane_controls.specs.SignalSettings as spec;

/// How many bytes the settings of a control set have: 153 to 173 of page 10h, and 214 to 234 of page 11h.
pub const SETTINGS: usize = 21;

/// What is wanted for the eight lanes. It counts for lanes under explicit control alone.
#[derive(Clone, Copy)]
pub struct SignalTargets {
    /// Lanes whose transmitter equalizes its input by itself: bit i-1 is lane i.
    pub adaptive: u8,
    /// Which stored equalization each lane recalls.
    pub recall: [u8; 8],
    /// The fixed equalization of the input.
    pub fixed_input: [u8; 8],
    /// Lanes whose clock is recovered in the transmitter, and in the receiver.
    pub recover_tx: u8,
    pub recover_rx: u8,
    /// The equalization of the output, before and after the cursor.
    pub pre_cursor: [u8; 8],
    pub post_cursor: [u8; 8],
    /// The code of the output's amplitude.
    pub amplitude: [u8; 8],
}

/// What a module can do.
#[derive(Clone, Copy)]
pub struct SignalLimits {
    /// Page 01h, byte 153: amplitude codes 3 to 0 in bits 7 to 4, the greatest fixed equalization of the input in bits 3 to 0.
    pub amplitudes_and_input: u8,
    /// Page 01h, byte 154: the greatest post-cursor in bits 7 to 4, the greatest pre-cursor in bits 3 to 0.
    pub cursors: u8,
}

/// What a module can't do.
#[derive(Clone, Copy, Debug, PartialEq, Eq)]
pub enum SettingFault {
    Recall,
    FixedInput,
    PreCursor,
    PostCursor,
    Amplitude,
}

/// The settings of one lane.
#[derive(Clone, Copy, Debug, PartialEq, Eq)]
pub struct LaneSettings {
    pub adaptive: u8,
    pub recall: u8,
    pub fixed_input: u8,
    pub recover_tx: u8,
    pub recover_rx: u8,
    pub pre_cursor: u8,
    pub post_cursor: u8,
    pub amplitude: u8,
}

/// The bytes to be staged, or the first of what the module can't do.
pub fn staged_settings(
    targets: &SignalTargets,
    limits: SignalLimits,
) -> Result<[u8; SETTINGS], SettingFault>
    ensures { result ≡ spec.staged targets.now limits }
{
    if !are_within(&targets.recall, 3) {
        return Err(SettingFault::Recall);
    }
    if !are_within(&targets.fixed_input, limits.amplitudes_and_input % 16) {
        return Err(SettingFault::FixedInput);
    }
    if !are_within(&targets.pre_cursor, limits.cursors % 16) {
        return Err(SettingFault::PreCursor);
    }
    if !are_within(&targets.post_cursor, limits.cursors / 16) {
        return Err(SettingFault::PostCursor);
    }
    if !are_amplitudes(&targets.amplitude, limits.amplitudes_and_input) {
        return Err(SettingFault::Amplitude);
    }
    Ok(bytes_of(targets))
}

fn bytes_of(targets: &SignalTargets) -> [u8; SETTINGS]
    ensures { result ≡ spec.bytes_of targets.now }
{
    [
        targets.adaptive,
        quarters(&targets.recall, 0),
        quarters(&targets.recall, 4),
        halves(&targets.fixed_input, 0),
        halves(&targets.fixed_input, 2),
        halves(&targets.fixed_input, 4),
        halves(&targets.fixed_input, 6),
        targets.recover_tx,
        targets.recover_rx,
        halves(&targets.pre_cursor, 0),
        halves(&targets.pre_cursor, 2),
        halves(&targets.pre_cursor, 4),
        halves(&targets.pre_cursor, 6),
        halves(&targets.post_cursor, 0),
        halves(&targets.post_cursor, 2),
        halves(&targets.post_cursor, 4),
        halves(&targets.post_cursor, 6),
        halves(&targets.amplitude, 0),
        halves(&targets.amplitude, 2),
        halves(&targets.amplitude, 4),
        halves(&targets.amplitude, 6),
    ]
}

fn halves(values: &[u8; 8], first: usize) -> u8
    requires { first + 1 < 8 }
    ensures { result ≡ spec.halves values.now first }
{
    values[first] % 16 + values[first + 1] % 16 * 16
}

fn quarters(values: &[u8; 8], first: usize) -> u8
    requires { first + 3 < 8 }
    ensures { result ≡ spec.quarters values.now first }
{
    values[first] % 4
        + values[first + 1] % 4 * 4
        + values[first + 2] % 4 * 16
        + values[first + 3] % 4 * 64
}

fn are_within(values: &[u8], most: u8) -> bool
    ensures { result ≡ list_all (λ value. nat_le value most) values.now }
{
    values.iter().all(|value| *value <= most)
}

fn are_amplitudes(values: &[u8], supported: u8) -> bool
    ensures { result ≡ list_all (spec.is_amplitude supported) values.now }
{
    values.iter().all(|value| is_amplitude(supported, *value))
}

#[tactic(auto, using(std::proofs::lemmas::Nat::Bits::shr_and_one))]
fn is_amplitude(supported: u8, value: u8) -> bool
    ensures { result ≡ spec.is_amplitude supported value }
{
    match value {
        0 => supported / 16 % 2 == 1,
        1 => supported / 32 % 2 == 1,
        2 => supported / 64 % 2 == 1,
        3 => supported / 128 == 1,
        _ => false,
    }
}

/// The settings of a lane, as they are staged or active.
pub fn settings_of(bytes: &[u8], lane: u8) -> LaneSettings
    requires whole { length bytes.now ≡ 21 }
    requires from_one { 1 ≤ lane }
    requires to_eight { lane ≤ 8 }
    ensures { result ≡ spec.settings_of bytes.now lane }
{
    let index = lane - 1;
    LaneSettings {
        adaptive: bytes[0] >> index & 1,
        recall: quarter_of(bytes, index),
        fixed_input: half_of(bytes, 3, index),
        recover_tx: bytes[7] >> index & 1,
        recover_rx: bytes[8] >> index & 1,
        pre_cursor: half_of(bytes, 9, index),
        post_cursor: half_of(bytes, 13, index),
        amplitude: half_of(bytes, 17, index),
    }
}

pub(crate) fn half_of(bytes: &[u8], first: usize, index: u8) -> u8
    requires inside { first + 3 < length bytes.now }
    requires lane { index < 8 }
    ensures { result ≡ spec.half_of bytes.now first index }
{
    let byte = bytes[first + usize::from(index / 2)];
    if index % 2 == 0 { byte % 16 } else { byte / 16 }
}

fn quarter_of(bytes: &[u8], index: u8) -> u8
    requires inside { 2 < length bytes.now }
    requires lane { index < 8 }
    ensures { result ≡ spec.quarter_of bytes.now index }
{
    let byte = bytes[1 + usize::from(index / 4)];
    match index % 4 {
        0 => byte % 4,
        1 => byte / 4 % 4,
        2 => byte / 16 % 4,
        _ => byte / 64,
    }
}

/// Whether the settings of a lane that were staged are the active ones.
pub fn are_active(staged: &[u8], active: &[u8], lane: u8) -> bool
    requires staged { length staged.now ≡ 21 }
    requires active { length active.now ≡ 21 }
    requires from_one { 1 ≤ lane }
    requires to_eight { lane ≤ 8 }
    ensures { IsTrue result ↔ spec.AreActive staged.now active.now lane }
{
    settings_of(staged, lane) == settings_of(active, lane)
}
