//! What a link test has shown of each lane.
ghost use Rattle.std.specs.Prelude.{◌≡◌, ◌≤◌, length};
ghost use Rattle.saved_tests.specs.LinkResults as spec;

use lane_controls::{
    Endian, LaneQuad, LinkTest, ResultSet, Side, counted_on, error_ratio, lock_losses,
    signal_to_noise,
};
use std::array;

/// What is known of a lane.
#[repr(C)]
#[derive(Clone, Copy)]
pub struct LinkLane {
    /// How many errors were counted, and in how many bits.
    pub errors: u64,
    pub bits: u64,
    /// The error ratio: the mantissa times ten to this power.
    pub mantissa: u16,
    /// The signal to noise ratio in 1/256 dB.
    pub noise: u16,
    pub power: i8,
    /// 1 if the ratio is known, 2 if the counts are, 4 if the signal to noise ratio is; else 0, and all of it is 0.
    pub known: u8,
}

/// What a link test has shown, as it was read last.
#[repr(C)]
#[derive(Clone, Copy)]
pub struct LinkResults {
    /// Of lanes 1 to 8.
    pub host: [LinkLane; 8],
    pub media: [LinkLane; 8],
    /// 1 if the reference clock was lost at some time, else 0.
    pub lost_clock: u8,
    /// Which lanes lost lock at some time: bit i-1 is lane i.
    pub host_generator: u8,
    pub media_generator: u8,
    pub host_checker: u8,
    pub media_checker: u8,
}

const UNKNOWN: LinkLane = LinkLane {
    errors: 0,
    bits: 0,
    mantissa: 0,
    noise: 0,
    power: 0,
    known: 0,
};

/// What a test has shown. Nothing is known of a lane before results were read.
pub fn results_of(test: &LinkTest, order: Endian) -> LinkResults
    ensures { result ≡ spec.results_of test.now order }
{
    let lost = lock_losses(&test.flags);
    LinkResults {
        host: lanes_of(test, Side::Host, order),
        media: lanes_of(test, Side::Media, order),
        lost_clock: u8::from(lost.reference_clock),
        host_generator: lost.host_generator,
        media_generator: lost.media_generator,
        host_checker: lost.host_checker,
        media_checker: lost.media_checker,
    }
}

fn lanes_of(test: &LinkTest, side: Side, order: Endian) -> [LinkLane; 8]
    ensures { result ≡ spec.lanes_of test.now side order }
{
    array::from_fn(|index| lane_of(test, side, index as u8 + 1, order))
}

fn lane_of(test: &LinkTest, side: Side, lane: u8, order: Endian) -> LinkLane
    requires from_one { 1 ≤ lane }
    requires to_eight { lane ≤ 8 }
    ensures { result ≡ spec.lane_of test.now side lane order }
{
    if test.results.len() == 64 {
        lane_in(&test.results, test.plan.results, side, lane, order)
    } else {
        UNKNOWN
    }
}

fn lane_in(bytes: &[u8], results: ResultSet, side: Side, lane: u8, order: Endian) -> LinkLane
    requires whole { length bytes.now ≡ 64 }
    requires from_one { 1 ≤ lane }
    requires to_eight { lane ≤ 8 }
    ensures { result ≡ spec.lane_in bytes.now results side lane order }
{
    match results {
        ResultSet::ErrorRatio | ResultSet::GatedErrorRatio => ratio_in(bytes, side, lane),
        ResultSet::SignalToNoise(of) => {
            if is_same_side(of, side) {
                noise_in(bytes, side, lane, order)
            } else {
                UNKNOWN
            }
        }
        ResultSet::Counters(of, quad) | ResultSet::GatedCounters(of, quad) => {
            if is_counted(of, quad, side, lane) {
                counts_in(bytes, lane, order)
            } else {
                UNKNOWN
            }
        }
    }
}

// Whether the counters of these four lanes of a side have the lane.
fn is_counted(of: Side, quad: LaneQuad, side: Side, lane: u8) -> bool
    ensures { result ≡ spec.is_counted of quad side lane }
{
    let lanes = matches!(
        (quad, LaneQuad::of(lane)),
        (LaneQuad::Lower, LaneQuad::Lower) | (LaneQuad::Upper, LaneQuad::Upper)
    );
    lanes && is_same_side(of, side)
}

fn is_same_side(of: Side, side: Side) -> bool
    ensures { result ≡ spec.same_side of side }
{
    matches!(
        (of, side),
        (Side::Host, Side::Host) | (Side::Media, Side::Media)
    )
}

fn ratio_in(bytes: &[u8], side: Side, lane: u8) -> LinkLane
    requires whole { length bytes.now ≡ 64 }
    requires from_one { 1 ≤ lane }
    requires to_eight { lane ≤ 8 }
    ensures { result ≡ spec.ratio_in bytes.now side lane }
{
    let ratio = error_ratio(bytes, side, lane);
    LinkLane {
        mantissa: ratio.mantissa,
        power: ratio.power(),
        known: 1,
        ..UNKNOWN
    }
}

fn counts_in(bytes: &[u8], lane: u8, order: Endian) -> LinkLane
    requires whole { length bytes.now ≡ 64 }
    requires from_one { 1 ≤ lane }
    requires to_eight { lane ≤ 8 }
    ensures { result ≡ spec.counts_in bytes.now lane order }
{
    let counts = counted_on(bytes, lane, order);
    LinkLane {
        errors: counts.errors,
        bits: counts.bits,
        known: 2,
        ..UNKNOWN
    }
}

fn noise_in(bytes: &[u8], side: Side, lane: u8, order: Endian) -> LinkLane
    requires whole { length bytes.now ≡ 64 }
    requires from_one { 1 ≤ lane }
    requires to_eight { lane ≤ 8 }
    ensures { result ≡ spec.noise_in bytes.now side lane order }
{
    LinkLane {
        noise: signal_to_noise(bytes, side, lane, order),
        known: 4,
        ..UNKNOWN
    }
}
