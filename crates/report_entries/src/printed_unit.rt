ghost use Rattle.std.specs.Prelude.{◌≡◌};
ghost use Rattle.report_entries.specs.PrintedUnits.{printed_in, unit_key, unit_name};

use field_tables::Unit;

/// A unit whose thousandths are printed.
#[derive(Clone, Copy)]
pub enum PrintedUnit {
    Celsius,
    Millivolt,
    Microwatt,
    Milliampere,
    Watt,
    Metre,
    Kilometre,
    Nanometre,
    Decibel,
    Gigabaud,
    Percent,
}

impl PrintedUnit {
    /// The unit in which a field's amounts print.
    pub fn of(unit: Unit) -> PrintedUnit
        ensures { result ≡ printed_in unit }
    {
        match unit {
            Unit::Temperature => PrintedUnit::Celsius,
            Unit::Voltage => PrintedUnit::Millivolt,
            Unit::OpticalPower => PrintedUnit::Microwatt,
            Unit::Bias => PrintedUnit::Milliampere,
            Unit::ModulePower => PrintedUnit::Watt,
        }
    }

    /// As it is printed.
    #[tactic(auto, unfolding(crate::specs::PrintedUnits::unit_name))]
    pub(crate) fn name(self) -> &'static str
        ensures { result.now ≡ unit_name self }
    {
        match self {
            PrintedUnit::Celsius => "C",
            PrintedUnit::Millivolt => "mV",
            PrintedUnit::Microwatt => "uW",
            PrintedUnit::Milliampere => "mA",
            PrintedUnit::Watt => "W",
            PrintedUnit::Metre => "m",
            PrintedUnit::Kilometre => "km",
            PrintedUnit::Nanometre => "nm",
            PrintedUnit::Decibel => "dB",
            PrintedUnit::Gigabaud => "GBd",
            PrintedUnit::Percent => "%",
        }
    }

    /// As it stands after the name in a key of JSON.
    #[tactic(auto, unfolding(crate::specs::PrintedUnits::unit_key))]
    pub(crate) fn key(self) -> &'static str
        ensures { result.now ≡ unit_key self }
    {
        match self {
            PrintedUnit::Celsius => "c",
            PrintedUnit::Millivolt => "mv",
            PrintedUnit::Microwatt => "uw",
            PrintedUnit::Milliampere => "ma",
            PrintedUnit::Watt => "w",
            PrintedUnit::Metre => "m",
            PrintedUnit::Kilometre => "km",
            PrintedUnit::Nanometre => "nm",
            PrintedUnit::Decibel => "db",
            PrintedUnit::Gigabaud => "gbd",
            PrintedUnit::Percent => "percent",
        }
    }
}
