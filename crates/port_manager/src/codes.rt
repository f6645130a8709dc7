// The codes that page 11h shows of each lane, in four bits each: what they are, how often they have changed, and when last.
ghost use Rattle.std.specs.Prelude.{◌≡◌, ◌<◌};
ghost use Rattle.port_manager.specs.Codes as spec;

use crate::flags::{later_of, one_more};

/// A code of each lane, lane 1 first.
#[derive(Clone, Copy, Drop)]
pub struct LaneCodes {
    /// As last read; 0 before that.
    pub codes: [u8; 8],
    /// How often one was read that differs from the one before, as far as 16 bits count.
    pub changes: [u16; 8],
    /// The moment of the last time, or 0.
    pub last: [u64; 8],
}

impl LaneCodes {
    /// None was read.
    pub fn none() -> LaneCodes
        ensures { result ≡ spec.no_codes }
    {
        LaneCodes {
            codes: [0; 8],
            changes: [0; 8],
            last: [0; 8],
        }
    }

    /// With what bytes from this address on show of them, which page 11h has from another address on.
    pub fn with(&self, offset: u8, bytes: &[u8], first: u8, now: u64) -> LaneCodes
        ensures { result ≡ spec.with_codes self.now offset bytes.now first now }
    {
        LaneCodes {
            codes: codes_read(&self.codes, offset, bytes, first),
            changes: counted(self, offset, bytes, first),
            last: dated(self, offset, bytes, first, now),
        }
    }
}

fn codes_read(held: &[u8; 8], offset: u8, bytes: &[u8], first: u8) -> [u8; 8]
    ensures { result ≡ spec.codes_read held.now offset bytes.now first }
{
    let mut codes = [0; 8];
    for (place, code) in codes.iter_mut().enumerate() {
        *code = read_code(offset, bytes, first, place).unwrap_or(held[place]);
    }
    codes
}

fn counted(held: &LaneCodes, offset: u8, bytes: &[u8], first: u8) -> [u16; 8]
    ensures { result ≡ spec.counted held.now offset bytes.now first }
{
    let mut counts = [0; 8];
    for (place, count) in counts.iter_mut().enumerate() {
        let code = read_code(offset, bytes, first, place);
        *count = one_more(held.changes[place], is_other(code, held.codes[place]));
    }
    counts
}

fn dated(held: &LaneCodes, offset: u8, bytes: &[u8], first: u8, now: u64) -> [u64; 8]
    ensures { result ≡ spec.dated held.now offset bytes.now first now }
{
    let mut last = [0; 8];
    for (place, moment) in last.iter_mut().enumerate() {
        let code = read_code(offset, bytes, first, place);
        *moment = later_of(held.last[place], is_other(code, held.codes[place]), now);
    }
    last
}

fn is_other(read: Option<u8>, held: u8) -> bool
    ensures { result ≡ spec.is_other read held }
{
    match read {
        Some(code) => code != held,
        None => false,
    }
}

// The code of a lane with so many before it, if the bytes have it: the lower half of a byte, or the upper one.
fn read_code(offset: u8, bytes: &[u8], first: u8, place: usize) -> Option<u8>
    requires { place < 8 }
    ensures { result ≡ spec.read_code offset bytes.now first place }
{
    let address = usize::from(first) + place / 2;
    let start = usize::from(offset);
    if start <= address && address - start < bytes.len() {
        let byte = bytes[address - start];
        Some(if place % 2 == 0 { byte % 16 } else { byte / 16 })
    } else {
        None
    }
}
