//! What a module can do in link tests.
ghost use Rattle.std.specs.Prelude.{◌≡◌, ◌<◌, length};
ghost use Rattle.saved_tests.specs.LinkCapabilities as spec;

use lane_controls::has_diagnostics;

/// What a module advertises of patterns, loopbacks and results.
#[repr(C)]
#[derive(Clone, Copy)]
pub struct LinkCapabilities {
    /// Which patterns each unit has: bit n is code n.
    pub host_generator: u16,
    pub media_generator: u16,
    pub host_checker: u16,
    pub media_checker: u16,
    /// 1 if the module has the pages of link tests, else 0; then all of it is 0.
    pub diagnostics: u8,
    /// Which loopbacks it has: bit n-1 is loopback n.
    pub loopbacks: u8,
    /// 1 if lanes of the side are looped back one by one, 0 if all at once.
    pub single_host_lanes: u8,
    pub single_media_lanes: u8,
    /// 1 if lanes are looped back on both sides at once, else 0.
    pub both_sides: u8,
    /// 1 if it reports what follows, else 0.
    pub ratios: u8,
    pub counts: u8,
    pub host_noise: u8,
    pub media_noise: u8,
    /// 1 if results are gated.
    pub gates: u8,
}

impl LinkCapabilities {
    /// By byte 142 of page 01h, and bytes 128 to 139 of page 13h.
    pub fn of(advertised: u8, bytes: &[u8; 12]) -> LinkCapabilities
        ensures { result ≡ spec.capabilities_of advertised bytes.now }
    {
        if has_diagnostics(advertised) {
            LinkCapabilities::by(bytes)
        } else {
            LinkCapabilities::none()
        }
    }

    fn by(bytes: &[u8; 12]) -> LinkCapabilities
        ensures { result ≡ spec.capabilities_by bytes.now }
    {
        LinkCapabilities {
            host_generator: u16::from_le_bytes([bytes[4], bytes[5]]),
            media_generator: u16::from_le_bytes([bytes[6], bytes[7]]),
            host_checker: u16::from_le_bytes([bytes[8], bytes[9]]),
            media_checker: u16::from_le_bytes([bytes[10], bytes[11]]),
            diagnostics: 1,
            loopbacks: bytes[0] % 16,
            single_host_lanes: bit(bytes[0], 4),
            single_media_lanes: bit(bytes[0], 5),
            both_sides: bit(bytes[0], 6),
            ratios: bit(bytes[2], 0),
            counts: bit(bytes[2], 1),
            host_noise: bit(bytes[2], 4),
            media_noise: bit(bytes[2], 5),
            gates: u8::from(bytes[1] / 64 > 0),
        }
    }

    // Of a module without the pages.
    fn none() -> LinkCapabilities
        ensures { result ≡ spec.no_capabilities }
    {
        LinkCapabilities {
            host_generator: 0,
            media_generator: 0,
            host_checker: 0,
            media_checker: 0,
            diagnostics: 0,
            loopbacks: 0,
            single_host_lanes: 0,
            single_media_lanes: 0,
            both_sides: 0,
            ratios: 0,
            counts: 0,
            host_noise: 0,
            media_noise: 0,
            gates: 0,
        }
    }
}

#[tactic(auto, using(std::proofs::lemmas::Nat::Bits::shr_and_one))]
fn bit(byte: u8, index: u8) -> u8
    requires { index < 8 }
    ensures { result ≡ spec.bit byte index }
{
    byte >> index & 1
}
