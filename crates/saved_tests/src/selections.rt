// Results by the codes that select them on page 14h, and by one more where a code selects two of them.
ghost use Rattle.std.specs.Prelude.{◌≡◌};
ghost use Rattle.saved_tests.specs.Selections as spec;

use lane_controls::{LaneQuad, ResultSet, Side};

/// Whether it stands for results.
pub fn is_selection(code: u8) -> bool
    ensures { result ≡ spec.is_selection code }
{
    matches!(code, 1..=7 | 17..=21)
}

/// The code that stands for results: the one that selects them, but 7 for signal to noise of media lanes.
pub fn code_for(results: ResultSet) -> u8
    ensures { result ≡ spec.code_for results }
{
    match results {
        ResultSet::SignalToNoise(Side::Media) => 7,
        _ => results.code(),
    }
}

/// The results that it stands for, if it does.
pub fn results_in(code: u8) -> ResultSet
    ensures { result ≡ spec.results_in code }
{
    match code {
        1 => ResultSet::ErrorRatio,
        2..=5 => ResultSet::Counters(side_in(code), quad_in(code)),
        6 => ResultSet::SignalToNoise(Side::Host),
        7 => ResultSet::SignalToNoise(Side::Media),
        17 => ResultSet::GatedErrorRatio,
        _ => {
            let counters = code.saturating_sub(16);
            ResultSet::GatedCounters(side_in(counters), quad_in(counters))
        }
    }
}

fn side_in(counters: u8) -> Side
    ensures { result ≡ spec.side_in counters }
{
    if counters < 4 {
        Side::Host
    } else {
        Side::Media
    }
}

fn quad_in(counters: u8) -> LaneQuad
    ensures { result ≡ spec.quad_in counters }
{
    if counters % 2 == 0 {
        LaneQuad::Lower
    } else {
        LaneQuad::Upper
    }
}
