//! What page 14h shows of a link test: ratios, counters and signal to noise.
ghost use Rattle.std.specs.Prelude.{◌≡◌, ◌+◌, ◌*◌, ◌-ℤ◌, ◌≤◌, ◌<◌, length, pos};
ghost use Rattle.lane_controls.specs.Results as spec;
ghost use Rattle.lane_controls.specs.declared.results.Endian.TheVariants.{Big};

use crate::result_set::Side;
use byteorder::{BigEndian, ByteOrder, LittleEndian};

/// Which byte of a number comes first.
#[derive(Clone, Copy, Debug, PartialEq, Eq)]
pub enum Endian {
    Little,
    Big,
}

/// A ratio: the mantissa times ten to the power of the exponent less 24.
#[derive(Clone, Copy, Debug, PartialEq, Eq)]
pub struct Ratio {
    pub mantissa: u16,
    pub exponent: u8,
}

/// What was counted on a lane.
#[derive(Clone, Copy, Debug, PartialEq, Eq)]
pub struct Counts {
    pub errors: u64,
    pub bits: u64,
}

impl Ratio {
    /// The ratio that a word of 16 bits stands for.
    pub fn of(word: u16) -> Ratio
        ensures value { result ≡ spec.ratio_of word }
        ensures whole { result.exponent * 2048 + result.mantissa ≡ word }
        ensures mantissa { result.mantissa < 2048 }
        ensures exponent { result.exponent < 32 }
    {
        Ratio {
            mantissa: word % 2048,
            exponent: (word / 2048) as u8,
        }
    }

    /// The power of ten by which the mantissa counts.
    pub fn power(self) -> i8
        requires { self.exponent < 32 }
        ensures { result ≡ pos self.exponent -ℤ pos 24 }
    {
        self.exponent as i8 - 24
    }
}

/// What lost lock at some time while flags were collected: bit i-1 is lane i.
#[derive(Clone, Copy, Debug, PartialEq, Eq)]
pub struct LockLosses {
    pub reference_clock: bool,
    pub host_generator: u8,
    pub media_generator: u8,
    pub host_checker: u8,
    pub media_checker: u8,
}

/// What lost lock, by bytes 132 to 139.
pub fn lock_losses(flags: &[u8; 8]) -> LockLosses
    ensures { result ≡ spec.lock_losses flags.now }
{
    LockLosses {
        reference_clock: flags[0] / 128 == 1,
        host_generator: flags[4],
        media_generator: flags[5],
        host_checker: flags[6],
        media_checker: flags[7],
    }
}

/// The error ratio of a lane, where ratios were selected.
pub fn error_ratio(results: &[u8], side: Side, lane: u8) -> Ratio
    requires whole { length results.now ≡ 64 }
    requires from_one { 1 ≤ lane }
    requires to_eight { lane ≤ 8 }
    ensures { result ≡ spec.ratio_of (spec.number_at Big 2 (spec.place_of_ratio side lane) results.now) }
{
    let first: usize = match side {
        Side::Host => 0,
        Side::Media => 16,
    };
    Ratio::of(word_at(results, first + 2 * usize::from(lane - 1), Endian::Big))
}

/// The signal to noise ratio of a lane in 1/256 dB, where those were selected.
pub fn signal_to_noise(results: &[u8], side: Side, lane: u8, order: Endian) -> u16
    requires whole { length results.now ≡ 64 }
    requires from_one { 1 ≤ lane }
    requires to_eight { lane ≤ 8 }
    ensures { result ≡ spec.number_at order 2 (spec.place_of_noise side lane) results.now }
{
    let first: usize = match side {
        Side::Host => 16,
        Side::Media => 48,
    };
    word_at(results, first + 2 * usize::from(lane - 1), order)
}

/// What was counted on a lane, where the counters of its four lanes were selected.
pub fn counted_on(results: &[u8], lane: u8, order: Endian) -> Counts
    requires whole { length results.now ≡ 64 }
    requires from_one { 1 ≤ lane }
    requires to_eight { lane ≤ 8 }
    ensures { result ≡ spec.counts_of order lane results.now }
{
    let place = 16 * (usize::from(lane - 1) % 4);
    Counts {
        errors: long_at(results, place, order),
        bits: long_at(results, place + 8, order),
    }
}

fn word_at(results: &[u8], place: usize, order: Endian) -> u16
    requires inside { place + 2 ≤ length results.now }
    ensures { result ≡ spec.number_at order 2 place results.now }
{
    match order {
        Endian::Little => LittleEndian::read_u16(&results[place..]),
        Endian::Big => BigEndian::read_u16(&results[place..]),
    }
}

fn long_at(results: &[u8], place: usize, order: Endian) -> u64
    requires inside { place + 8 ≤ length results.now }
    ensures { result ≡ spec.number_at order 8 place results.now }
{
    match order {
        Endian::Little => LittleEndian::read_u64(&results[place..]),
        Endian::Big => BigEndian::read_u64(&results[place..]),
    }
}
