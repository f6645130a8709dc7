// The units of metrics, which have no prefix, and how a report's amounts are counted in them.
ghost use Rattle.std.specs.Prelude.{◌≡◌};
ghost use Rattle.module_metrics.specs.BaseUnits.{base_name, places};
ghost use Rattle.module_metrics.specs.Scales.{places_of};

use crate::scale::Scale;
use report_entries::PrintedUnit;

/// The unit without its prefix.
#[tactic(auto, unfolding(crate::specs::BaseUnits::base_name))]
pub fn base_name(unit: PrintedUnit) -> &'static str
    ensures { result.now ≡ base_name unit }
{
    match unit {
        PrintedUnit::Celsius => "celsius",
        PrintedUnit::Millivolt => "volts",
        PrintedUnit::Microwatt | PrintedUnit::Watt => "watts",
        PrintedUnit::Milliampere => "amperes",
        PrintedUnit::Metre => "meters",
        // in no report whose amounts are metrics
        PrintedUnit::Kilometre => "kilometers",
        PrintedUnit::Nanometre => "nanometers",
        PrintedUnit::Decibel => "decibels",
        PrintedUnit::Gigabaud => "gigabauds",
        PrintedUnit::Percent => "percent",
    }
}

/// What a report counts of it: thousandths of the unit with its prefix.
pub fn scale_of(unit: PrintedUnit) -> Scale
    ensures { places_of result ≡ places unit }
{
    match unit {
        PrintedUnit::Millivolt | PrintedUnit::Milliampere => Scale::Millionths,
        PrintedUnit::Microwatt => Scale::Billionths,
        _ => Scale::Thousandths,
    }
}
