//! What a module measures at a place that its standard fixes.
ghost use Rattle.std.specs.Prelude.{◌≡◌, ◌≤◌, ◌<◌, ◌+◌, IsTrue};
ghost use Rattle.observables.specs.Monitors as spec;

use crate::quantity::{Quantity, Scope};
use external_calibration::Monitor as Calibrated;
use field_tables::{Field, PerLimit};

/// Bits of a field, one for each value of a monitor, from the one with this number on.
#[derive(Clone, Copy, Debug, PartialEq, Eq)]
pub struct BitPlace {
    pub field: Field,
    /// Counted from 1.
    pub first: u8,
}

/// Where the limits of a monitor are, and the flags that tell whether values passed them.
#[derive(Clone, Copy, Debug, PartialEq, Eq)]
pub struct Bounds {
    pub limits: Field,
    pub flags: PerLimit<BitPlace>,
}

/// What else an amount depends on than on the word.
#[derive(Clone, Copy, Debug, PartialEq, Eq)]
pub enum Correction {
    Plain,
    /// It counts by the multiplier of bias of CMIS.
    Multiplied,
    /// The host calibrates it if the module says so (SFF-8472).
    Calibrated(Calibrated),
}

/// Where a module has what it measures.
#[derive(Clone, Copy, Debug, PartialEq, Eq)]
pub struct Monitor {
    pub quantity: Quantity,
    pub scope: Scope,
    /// Of the module one value, else one of each lane.
    pub values: Field,
    pub bounds: Option<Bounds>,
    /// The bit by which the module advertises it; none if each module of the standard has it.
    pub advert: Option<BitPlace>,
    pub correction: Correction,
}

/// The bits of a field from the one with this number on.
pub fn bits_at(field: Field, first: u8) -> BitPlace
    ensures { result ≡ spec.bits_at field first }
{
    BitPlace { field, first }
}

/// Four bits of a field in a row.
pub fn bits_in_row(field: Field, first: u8) -> PerLimit<BitPlace>
    requires { first < 252 }
    ensures { result ≡ spec.bits_in_row field first }
{
    PerLimit {
        high_alarm: bits_at(field, first),
        low_alarm: bits_at(field, first + 1),
        high_warning: bits_at(field, first + 2),
        low_warning: bits_at(field, first + 3),
    }
}

/// Two bits of a field of alarms, and the same of a field of warnings.
pub fn bits_in_pairs(alarms: Field, warnings: Field, first: u8) -> PerLimit<BitPlace>
    requires { first < 252 }
    ensures { result ≡ spec.bits_in_pairs alarms warnings first }
{
    PerLimit {
        high_alarm: bits_at(alarms, first),
        low_alarm: bits_at(alarms, first + 1),
        high_warning: bits_at(warnings, first),
        low_warning: bits_at(warnings, first + 1),
    }
}

/// The bits of lanes of four fields, one for each limit.
pub fn bits_of_lanes(
    high_alarm: Field,
    low_alarm: Field,
    high_warning: Field,
    low_warning: Field,
) -> PerLimit<BitPlace>
    ensures { result ≡ spec.bits_of_lanes high_alarm low_alarm high_warning low_warning }
{
    PerLimit {
        high_alarm: bits_at(high_alarm, 1),
        low_alarm: bits_at(low_alarm, 1),
        high_warning: bits_at(high_warning, 1),
        low_warning: bits_at(low_warning, 1),
    }
}
