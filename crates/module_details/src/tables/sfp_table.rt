// What a module of SFF-8472 says of itself. The definition has the same rows; each contract says that the two are equal.
ghost use Rattle.std.specs.Prelude.{◌≡◌, IsTrue};
ghost use Rattle.std.specs.List.{list_all};
ghost use Rattle.module_details.specs.SfpDetails as spec;
ghost use Rattle.module_details.specs.Fits.{row_fits};
ghost use Rattle.module_details.specs.RowTables.{rows_in};

use crate::item::{Case, Item, Line, Row, Values};
use code_names::Table;
use external_calibration::Monitor;
use field_tables::{field, text_of};
use report_entries::PrintedUnit;

const IDENTITY: &[Line] = detail_table! {
    Sff8472;
    "family": [Word "SFF-8472"];
    "identifier": [Named Identifiers Identifier];
    "extended-identifier": [Named Sff8472ExtendedIdentifiers ExtendedIdentifier];
    "revision": [Named Sff8472Revisions Revision];
    "connector": [Named Connectors Connector];
    "vendor": [Text Vendor];
    "oui": [Oui Oui];
    "part": [Text Part];
    "part-revision": [Text PartRevision];
    "serial": [Text Serial];
    "date": [Text Date];
    "encoding": [Named Sff8472Encodings Encoding];
    "bit-rate": [BitRate BitRate BitRateMargins];
    "bit-rate-margin-max": [StepsIfAny BitRateMargins 1000 Percent] [Within BitRate 1 255 255];
    "bit-rate-margin-min": [StepsIfAny BitRateMargins 1000 Percent] (value 2);
    "rate-select-type": [Named Sff8472RateSelects RateSelectType];
    "length-smf": [StepsIfAny Lengths 1000 Kilometre];
    "length-smf-in-100-m": [StepsIfAny Lengths 100 Kilometre] (value 2);
    "length-om2": [StepsIfAny Lengths 10000 Metre] (value 3);
    "length-om1": [StepsIfAny Lengths 10000 Metre] (value 4);
    "length": [StepsIfAny Lengths 1000 Metre] (value 5) [Neither FcTechnology 3 4];
    "length-om4": [StepsIfAny Lengths 10000 Metre] (value 5) [Within FcTechnology 3 1 1] [Within FcTechnology 4 1 1];
    "length-om3": [StepsIfAny Lengths 10000 Metre] (value 6);
    "wavelength": [PairIfAny WavelengthOrCable 1000 Nanometre] [Within FcTechnology 3 1 1] [Within FcTechnology 4 1 1];
    "passive-cable-compliance": [Named SfpPassiveCables WavelengthOrCable] [Within FcTechnology 3 0 0];
    "active-cable-compliance": [Named SfpActiveCables WavelengthOrCable] [Within FcTechnology 4 0 0];
};

/// What it is.
#[tactic(auto, unfolding(crate::specs::SfpDetails::identity_rows))]
pub fn identity() -> &'static [Line]
    ensures rows { rows_in result.now ≡ spec.identity_rows }
    ensures fit { IsTrue (list_all row_fits (rows_in result.now)) }
{
    IDENTITY
}

const COMPLIANCE: &[Line] = detail_table! {
    Sff8472;
    "ethernet": [Names Sff8472Compliance TenGigabitEthernet 0];
    "sonet": [Names Sff8472Compliance Sonet 8];
    "sonet-more": [Names Sff8472Compliance SonetMore 16];
    "gigabit-ethernet": [Names Sff8472Compliance Ethernet 24];
    "fc-length": [Names Sff8472Compliance FcLength 32];
    "fc-technology": [Names Sff8472Compliance FcTechnology 40];
    "fc-media": [Names Sff8472Compliance FcMedia 48];
    "fc-speed": [Names Sff8472Compliance FcSpeed 56];
    "fc-speed-more": [Names Sff8472Compliance FcSpeedMore 64];
    "extended-compliance": [Named ExtendedCompliance ExtendedCompliance];
};

/// Which specifications it complies with.
#[tactic(auto, unfolding(crate::specs::SfpDetails::compliance_rows))]
pub fn compliance() -> &'static [Line]
    ensures rows { rows_in result.now ≡ spec.compliance_rows }
    ensures fit { IsTrue (list_all row_fits (rows_in result.now)) }
{
    COMPLIANCE
}

const OPTIONS: &[Line] = detail_table! {
    Sff8472;
    "linear-receiver": [Yes Options];
    "power-level-2": [Yes Options] (value 2);
    "cooled": [Yes Options] (value 3);
    "cdr": [Yes Options] (value 4);
    "paging": [Yes Options] (value 5);
    "power-level-3": [Yes Options] (value 6);
    "rx-los-flag": [Yes OptionsMore];
    "rx-los-inverted": [Yes OptionsMore] (value 2);
    "tx-fault-flag": [Yes OptionsMore] (value 3);
    "tx-disable-control": [Yes OptionsMore] (value 4);
    "rate-select": [Yes OptionsMore] (value 5);
    "tunable": [Yes OptionsMore] (value 6);
    "decision-threshold": [Yes OptionsMore] (value 7);
    "diagnostics": [Yes DiagPresent];
    "internally-calibrated": [Yes Internal] [Within DiagPresent 1 0 0];
    "externally-calibrated": [Yes External] [Within DiagPresent 1 0 0];
    "rx-power-type": [Either RxPowerIsAverage "average" "OMA"] [Within DiagPresent 1 0 0];
    "soft-rate-select-control": [Yes EnhancedOptions];
    "application-select": [Yes EnhancedOptions] (value 2);
    "soft-rate-select": [Yes EnhancedOptions] (value 3);
    "soft-rx-los": [Yes EnhancedOptions] (value 4);
    "soft-tx-fault": [Yes EnhancedOptions] (value 5);
    "soft-tx-disable": [Yes EnhancedOptions] (value 6);
    "alarms": [Yes EnhancedOptions] (value 7);
};

/// Which controls and flags it has.
#[tactic(auto, unfolding(crate::specs::SfpDetails::options_rows))]
pub fn options() -> &'static [Line]
    ensures rows { rows_in result.now ≡ spec.options_rows }
    ensures fit { IsTrue (list_all row_fits (rows_in result.now)) }
{
    OPTIONS
}

const STATUS: &[Line] = detail_table! {
    Sff8472;
    "data-not-ready": [Yes DataNotReady] paged;
    "rate-select-0-set": [Yes Status] paged;
    "rate-select-0": [Yes Status] (value 2) paged;
    "rate-select-1": [Yes Status] (value 3) paged;
    "tx-disable-set": [Yes Status] (value 4) paged;
    "tx-disabled": [Yes Status] (value 5) paged;
    "rate-select-1-set": [Yes RateSelect1Set] paged;
    "power-level-set": [Yes PowerLevel] paged;
    "power-level-higher": [Yes PowerLevel] (value 2) paged;
    "temperature": [Measured Temperature Temperature] paged;
    "vcc": [Measured Vcc Vcc] paged;
    "laser-temperature": [Amount LaserTemperature] paged [Within Options 3 0 0];
    "tec-current": [Steps TecCurrent 100 Milliampere] paged [Within Options 3 0 0];
    "tx-power": [MeasuredLevel TxPower TxPower] (lanes 1) paged;
    "tx-power-mw": [MeasuredMilliwatts TxPower TxPower] (lanes 1) paged;
    "tx-bias": [Measured TxBias TxBias] (lanes 1) paged;
    "rx-power": [MeasuredLevel RxPower RxPower] (lanes 1) paged;
    "rx-power-mw": [MeasuredMilliwatts RxPower RxPower] (lanes 1) paged;
};

/// How it is.
#[tactic(auto, unfolding(crate::specs::SfpDetails::status_rows))]
pub fn status() -> &'static [Line]
    ensures rows { rows_in result.now ≡ spec.status_rows }
    ensures fit { IsTrue (list_all row_fits (rows_in result.now)) }
{
    STATUS
}

const CALIBRATED: &[Line] = detail_table! {
    Sff8472;
    "rx-power-constants-usable": [Calibrates RxPower] paged [Within External 1 0 0];
    "calibrated-tx-power": [Measured TxPower TxPower] (lanes 1) paged [Within External 1 0 0];
    "calibrated-rx-power": [Measured RxPower RxPower] (lanes 1) paged [Within External 1 0 0];
    "temperature-high-alarm-limit": [Measured Temperature TempLimits] paged [Within External 1 0 0] [Within EnhancedOptions 7 0 0];
    "temperature-low-alarm-limit": [Measured Temperature TempLimits] (value 2) paged [Within External 1 0 0] [Within EnhancedOptions 7 0 0];
    "temperature-high-warning-limit": [Measured Temperature TempLimits] (value 3) paged [Within External 1 0 0] [Within EnhancedOptions 7 0 0];
    "temperature-low-warning-limit": [Measured Temperature TempLimits] (value 4) paged [Within External 1 0 0] [Within EnhancedOptions 7 0 0];
    "vcc-high-alarm-limit": [Measured Vcc VccLimits] paged [Within External 1 0 0] [Within EnhancedOptions 7 0 0];
    "vcc-low-alarm-limit": [Measured Vcc VccLimits] (value 2) paged [Within External 1 0 0] [Within EnhancedOptions 7 0 0];
    "vcc-high-warning-limit": [Measured Vcc VccLimits] (value 3) paged [Within External 1 0 0] [Within EnhancedOptions 7 0 0];
    "vcc-low-warning-limit": [Measured Vcc VccLimits] (value 4) paged [Within External 1 0 0] [Within EnhancedOptions 7 0 0];
    "tx-bias-high-alarm-limit": [Measured TxBias TxBiasLimits] paged [Within External 1 0 0] [Within EnhancedOptions 7 0 0];
    "tx-bias-low-alarm-limit": [Measured TxBias TxBiasLimits] (value 2) paged [Within External 1 0 0] [Within EnhancedOptions 7 0 0];
    "tx-bias-high-warning-limit": [Measured TxBias TxBiasLimits] (value 3) paged [Within External 1 0 0] [Within EnhancedOptions 7 0 0];
    "tx-bias-low-warning-limit": [Measured TxBias TxBiasLimits] (value 4) paged [Within External 1 0 0] [Within EnhancedOptions 7 0 0];
    "tx-power-high-alarm-limit": [Measured TxPower TxPowerLimits] paged [Within External 1 0 0] [Within EnhancedOptions 7 0 0];
    "tx-power-low-alarm-limit": [Measured TxPower TxPowerLimits] (value 2) paged [Within External 1 0 0] [Within EnhancedOptions 7 0 0];
    "tx-power-high-warning-limit": [Measured TxPower TxPowerLimits] (value 3) paged [Within External 1 0 0] [Within EnhancedOptions 7 0 0];
    "tx-power-low-warning-limit": [Measured TxPower TxPowerLimits] (value 4) paged [Within External 1 0 0] [Within EnhancedOptions 7 0 0];
    "rx-power-high-alarm-limit": [Measured RxPower RxPowerLimits] paged [Within External 1 0 0] [Within EnhancedOptions 7 0 0];
    "rx-power-low-alarm-limit": [Measured RxPower RxPowerLimits] (value 2) paged [Within External 1 0 0] [Within EnhancedOptions 7 0 0];
    "rx-power-high-warning-limit": [Measured RxPower RxPowerLimits] (value 3) paged [Within External 1 0 0] [Within EnhancedOptions 7 0 0];
    "rx-power-low-warning-limit": [Measured RxPower RxPowerLimits] (value 4) paged [Within External 1 0 0] [Within EnhancedOptions 7 0 0];
};

/// What it measures and its limits, if the host has to calibrate them.
#[tactic(auto, unfolding(crate::specs::SfpDetails::calibrated_rows))]
pub fn calibrated() -> &'static [Line]
    ensures rows { rows_in result.now ≡ spec.calibrated_rows }
    ensures fit { IsTrue (list_all row_fits (rows_in result.now)) }
{
    CALIBRATED
}
