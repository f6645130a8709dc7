//! Powers as levels.
ghost use Rattle.std.specs.Prelude.{◌≡◌, ◌≤◌, ◌<◌, ◌*◌, ◌^◌, MatchOption};
ghost use Rattle.decibels.specs.Levels.{IsLevel};

use crate::thresholds::THRESHOLDS;

/// The level of a power given in tenths of a microwatt, in hundredths of a decibel above a tenth of a microwatt. 4000 of them are 0 dBm.
/// No power has no level.
pub fn level(power: u16) -> Option<u16>
    ensures { MatchOption result (power ≡ 0) (IsLevel power) }
{
    let (scale, decades) = match power {
        0 => return None,
        1..=9 => (10_000, 4),
        10..=99 => (1_000, 3),
        100..=999 => (100, 2),
        1_000..=9_999 => (10, 1),
        _ => (1, 0),
    };
    Some(level_of_five_digits(u32::from(power) * scale) - 1_000 * decades)
}

fn level_of_five_digits(power: u32) -> u16
    requires five_digits { (10 ^ 4 ≤ power) × (power < 10 ^ 5) }
    ensures level { IsLevel power result }
    ensures above { 4000 ≤ result }
{
    let reached = THRESHOLDS.partition_point(|threshold| *threshold <= power);
    3_999 + reached as u16
}
