//! What modules measure at places that the standards fix.
ghost use Rattle.std.specs.Prelude.{◌≡◌, ◌≤◌, IfSome};
ghost use Rattle.field_tables.specs.FieldRows.{row_of};
ghost use Rattle.observables.specs.CmisMonitors.{auxiliary, cmis_monitor};
ghost use Rattle.observables.specs.Monitors.{MonitorFits};
ghost use Rattle.observables.specs.QsfpMonitors.{qsfp_monitor};
ghost use Rattle.observables.specs.SfpMonitors.{sfp_monitor};

use crate::monitor::{
    Bounds, Correction, Monitor, bits_at, bits_in_pairs, bits_in_row, bits_of_lanes,
};
use crate::quantity::{Quantity, Scope};
use external_calibration::Monitor as Calibrated;
use field_tables::{Field, bit_at, field};
use paged_memory::Image;

// The flags of the limits: bits of a field in a row, or of alarms and of warnings, or the bits of lanes of a field for each limit.
macro_rules! flags {
    ($of:ident row $field:ident $first:literal) => { bits_in_row(field!($of $field), $first) };
    ($of:ident pairs $alarms:ident $warnings:ident $first:literal) => { bits_in_pairs(field!($of $alarms), field!($of $warnings), $first) };
    ($of:ident lanes $high_alarm:ident $low_alarm:ident $high_warning:ident $low_warning:ident) => {
        bits_of_lanes(field!($of $high_alarm), field!($of $low_alarm), field!($of $high_warning), field!($of $low_warning))
    };
}

macro_rules! bounds {
    ($of:ident) => { None };
    ($of:ident $limits:ident: $($flags:tt)*) => { Some(Bounds { limits: field!($of $limits), flags: flags!($of $($flags)*) }) };
}

macro_rules! advert {
    ($of:ident) => { None };
    ($of:ident $field:ident $first:literal) => { Some(bits_at(field!($of $field), $first)) };
}

// A row: what is measured, of the module or of each lane, and its values; limits and flags; advert; correction.
macro_rules! monitors {
    ($of:ident $number:ident;
        $($n:literal: $quantity:ident $scope:ident $values:ident [$($bounds:tt)*] [$($advert:tt)*] $correction:ident $(($calibrated:ident))?;)*
        $(others { $($others:tt)* })?) => {
        match $number {
            $($n => Some(Monitor {
                quantity: Quantity::$quantity,
                scope: Scope::$scope,
                values: field!($of $values),
                bounds: bounds!($of $($bounds)*),
                advert: advert!($of $($advert)*),
                correction: Correction::$correction $((Calibrated::$calibrated))?,
            }),)*
            $($($others)*)?
            _ => None,
        }
    };
}

/// The monitor of CMIS with this number; what an auxiliary monitor measures depends on the image.
pub fn cmis_monitor(image: &Image, number: u8) -> Option<Monitor>
    ensures row { result ≡ cmis_monitor image.now number }
    ensures fits { IfSome result MonitorFits }
{
    monitors! { Cmis number;
        0: Temperature Module Temperature [TempLimits: row ModuleFlag 1] [ModuleMonitors 1] Plain;
        1: SupplyVoltage Module Vcc [VccLimits: row ModuleFlag 5] [ModuleMonitors 2] Plain;
        5: TransmittedPower Lane TxPower
            [TxPowerLimits: lanes TxPowerHighAlarm TxPowerLowAlarm TxPowerHighWarning TxPowerLowWarning] [TxPowerMonitor 1] Plain;
        6: LaserBias Lane TxBias
            [TxBiasLimits: lanes TxBiasHighAlarm TxBiasLowAlarm TxBiasHighWarning TxBiasLowWarning] [TxBiasMonitor 1] Multiplied;
        7: ReceivedPower Lane RxPower
            [RxPowerLimits: lanes RxPowerHighAlarm RxPowerLowAlarm RxPowerHighWarning RxPowerLowWarning] [RxPowerMonitor 1] Plain;
        others {
            2 => auxiliary(image, 1, field!(Cmis Aux1), None, Some(Quantity::TecCurrentShare)),
            3 => auxiliary(image, 2, field!(Cmis Aux2), Some(Quantity::LaserTemperature), Some(Quantity::TecCurrentShare)),
            4 => auxiliary(image, 3, field!(Cmis Aux3), Some(Quantity::LaserTemperature), Some(Quantity::SecondSupplyVoltage)),
        }
    }
}

// An auxiliary monitor has a meaning only if it is advertised: what it measures where the bit of its kind is 0, and where it is 1.
fn auxiliary(
    image: &Image,
    number: u8,
    values: Field,
    at_0: Option<Quantity>,
    at_1: Option<Quantity>,
) -> Option<Monitor>
    requires first { 1 ≤ number }
    requires last { number ≤ 3 }
    requires lanes { (row_of values).count ≤ 8 }
    ensures row { result ≡ auxiliary image.now number values at_0 at_1 }
    ensures fits { IfSome result MonitorFits }
{
    if !bit_at(image, field!(Cmis ModuleMonitors), number + 2) {
        return None;
    }
    let kind = bit_at(image, field!(Cmis AuxKinds), number);
    let quantity = if kind { at_1? } else { at_0? };
    Some(Monitor {
        quantity,
        scope: Scope::Module,
        values,
        bounds: None,
        advert: Some(bits_at(field!(Cmis ModuleMonitors), number + 2)),
        correction: Correction::Plain,
    })
}

/// The monitor of SFF-8636 with this number.
pub fn qsfp_monitor(number: u8) -> Option<Monitor>
    ensures row { result ≡ qsfp_monitor number }
    ensures fits { IfSome result MonitorFits }
{
    monitors! { Sff8636 number;
        0: Temperature Module Temperature [TempLimits: row TempFlag 1] [Monitors 4] Plain;
        1: SupplyVoltage Module Vcc [VccLimits: row VccFlag 1] [Monitors 3] Plain;
        2: TransmittedPower Lane TxPower
            [TxPowerLimits: lanes TxPowerHighAlarm TxPowerLowAlarm TxPowerHighWarning TxPowerLowWarning] [Monitors 1] Plain;
        3: LaserBias Lane TxBias
            [TxBiasLimits: lanes TxBiasHighAlarm TxBiasLowAlarm TxBiasHighWarning TxBiasLowWarning] [] Plain;
        4: ReceivedPower Lane RxPower
            [RxPowerLimits: lanes RxPowerHighAlarm RxPowerLowAlarm RxPowerHighWarning RxPowerLowWarning] [] Plain;
    }
}

/// The monitor of SFF-8472 with this number.
pub fn sfp_monitor(number: u8) -> Option<Monitor>
    ensures row { result ≡ sfp_monitor number }
    ensures fits { IfSome result MonitorFits }
{
    monitors! { Sff8472 number;
        0: Temperature Module Temperature [TempLimits: pairs Alarms Warnings 1] [DiagPresent 1] Calibrated(Temperature);
        1: SupplyVoltage Module Vcc [VccLimits: pairs Alarms Warnings 3] [DiagPresent 1] Calibrated(Vcc);
        2: TransmittedPower Lane TxPower [TxPowerLimits: pairs Alarms Warnings 7] [DiagPresent 1] Calibrated(TxPower);
        3: LaserBias Lane TxBias [TxBiasLimits: pairs Alarms Warnings 5] [DiagPresent 1] Calibrated(TxBias);
        4: ReceivedPower Lane RxPower [RxPowerLimits: pairs RxAlarms RxWarnings 1] [DiagPresent 1] Calibrated(RxPower);
        5: LaserTemperature Module LaserTemperature [] [Options 3] Plain;
        6: TecCurrent Module TecCurrent [] [Options 3] Plain;
    }
}
