//! What a module advertises of patterns, loopbacks and results: `capabilities` are bytes 128 to 139 of page 13h.
ghost use Rattle.std.specs.Prelude.{◌≡◌, ◌<◌, length};
ghost use Rattle.lane_controls.specs.Capabilities as spec;

use crate::control::{Control, Loopback, PatternUnit};
use crate::result_set::{ResultSet, Side};

/// Whether the module has pages 13h and 14h, by page 01h, byte 142.
pub fn has_diagnostics(byte: u8) -> bool
    ensures { result ≡ spec.has_diagnostics byte }
{
    is_set(byte, 5)
}

/// Whether bits of a control can be set so.
pub fn supports(capabilities: &[u8], control: Control, mask: u8, bits: u8) -> bool
    requires whole { length capabilities.now ≡ 12 }
    ensures { result ≡ spec.supports capabilities.now control mask bits }
{
    match control {
        Control::Pattern(unit, _) => supports_patterns(capabilities, unit, mask, bits),
        Control::Loopback(loopback) => supports_loopback(capabilities, loopback, mask, bits),
        Control::Measurement => supports_measurement(capabilities, bits & mask),
        _ => true,
    }
}

/// Whether lanes can be looped back on both sides at once.
pub fn supports_both_sides(capabilities: &[u8]) -> bool
    requires whole { length capabilities.now ≡ 12 }
    ensures { result ≡ spec.supports_both_sides capabilities.now }
{
    is_set(capabilities[0], 6)
}

/// Whether it shows such results.
pub fn reports(capabilities: &[u8], results: ResultSet) -> bool
    requires whole { length capabilities.now ≡ 12 }
    ensures { result ≡ spec.reports capabilities.now results }
{
    let reported = capabilities[2];
    match results {
        ResultSet::ErrorRatio => is_set(reported, 0),
        ResultSet::Counters(_, _) => is_set(reported, 1),
        ResultSet::SignalToNoise(Side::Host) => is_set(reported, 4),
        ResultSet::SignalToNoise(Side::Media) => is_set(reported, 5),
        ResultSet::GatedErrorRatio => has_gated_results(capabilities) && is_set(reported, 0),
        ResultSet::GatedCounters(_, _) => has_gated_results(capabilities) && is_set(reported, 1),
    }
}

fn supports_loopback(capabilities: &[u8], loopback: Loopback, mask: u8, bits: u8) -> bool
    requires whole { length capabilities.now ≡ 12 }
    ensures { result ≡ spec.supports_loopback capabilities.now loopback mask bits }
{
    let modes = capabilities[0];
    let (mode, lanes) = match loopback {
        Loopback::MediaSideOutput => (0, 5),
        Loopback::MediaSideInput => (1, 5),
        Loopback::HostSideOutput => (2, 4),
        Loopback::HostSideInput => (3, 4),
    };
    is_set(modes, mode) && (is_set(modes, lanes) || is_whole(mask, bits))
}

fn is_whole(mask: u8, bits: u8) -> bool
    ensures { result ≡ spec.is_whole mask bits }
{
    mask == 255 && (bits == 0 || bits == 255)
}

fn supports_patterns(capabilities: &[u8], unit: PatternUnit, mask: u8, bits: u8) -> bool
    requires whole { length capabilities.now ≡ 12 }
    ensures { result ≡ spec.supports_patterns capabilities.now unit mask bits }
{
    supports_code(capabilities, unit, mask % 16, bits % 16)
        && supports_code(capabilities, unit, mask / 16, bits / 16)
}

fn supports_code(capabilities: &[u8], unit: PatternUnit, mask: u8, code: u8) -> bool
    requires whole { length capabilities.now ≡ 12 }
    requires half { code < 16 }
    ensures { result ≡ spec.supports_code capabilities.now unit mask code }
{
    mask == 0 || (mask == 15 && has_pattern(capabilities, unit, code))
}

fn has_pattern(capabilities: &[u8], unit: PatternUnit, code: u8) -> bool
    requires whole { length capabilities.now ≡ 12 }
    requires half { code < 16 }
    ensures { result ≡ spec.has_pattern capabilities.now unit code }
{
    let first: usize = match unit {
        PatternUnit::HostGenerator => 4,
        PatternUnit::MediaGenerator => 6,
        PatternUnit::HostChecker => 8,
        PatternUnit::MediaChecker => 10,
    };
    is_set(capabilities[first + usize::from(code / 8)], code % 8)
}

fn supports_measurement(capabilities: &[u8], set: u8) -> bool
    requires whole { length capabilities.now ≡ 12 }
    ensures { result ≡ spec.supports_measurement capabilities.now set }
{
    (set / 2 % 8 == 0 || has_gates(capabilities)) && (!is_set(set, 4) || is_set(capabilities[1], 2))
}

fn has_gated_results(capabilities: &[u8]) -> bool
    requires whole { length capabilities.now ≡ 12 }
    ensures { result ≡ spec.has_gated_results capabilities.now }
{
    has_gates(capabilities) && is_set(capabilities[1], 5)
}

fn has_gates(capabilities: &[u8]) -> bool
    requires whole { length capabilities.now ≡ 12 }
    ensures { result ≡ spec.has_gates capabilities.now }
{
    capabilities[1] / 64 > 0
}

#[tactic(auto, using(std::proofs::lemmas::Nat::Bits::shr_and_one))]
fn is_set(byte: u8, bit: u8) -> bool
    requires { bit < 8 }
    ensures { result ≡ spec.is_set byte bit }
{
    byte >> bit & 1 == 1
}
