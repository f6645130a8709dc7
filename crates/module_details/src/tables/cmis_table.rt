// What a CMIS module says of itself. The definition has the same rows; each contract says that the two are equal.
ghost use Rattle.std.specs.Prelude.{◌≡◌, IsTrue};
ghost use Rattle.std.specs.List.{list_all};
ghost use Rattle.module_details.specs.CmisDetails as spec;
ghost use Rattle.module_details.specs.Fits.{row_fits};
ghost use Rattle.module_details.specs.RowTables.{rows_in};

use crate::item::{Case, Item, Line, Row, Values};
use code_names::Table;
use field_tables::{field, text_of};
use report_entries::PrintedUnit;

const IDENTITY: &[Line] = detail_table! {
    Cmis;
    "family": [Word "CMIS"];
    "identifier": [Named Identifiers Identifier];
    "revision": [Revision Revision];
    "memory": [Either FlatMemory "flat" "paged"];
    "media-type": [Named MediaTypes MediaType];
    "connector": [Named Connectors Connector];
    "vendor": [Text Vendor];
    "oui": [Oui Oui];
    "part": [Text Part];
    "part-revision": [Text PartRevision];
    "serial": [Text Serial];
    "date": [Text Date];
    "clei": [Text Clei];
    "power-class": [Number PowerClass 1];
    "max-power": [Amount MaxPower];
    "length": [TenthsIfAny LengthBase LengthMultiplier Metre];
    "technology": [Named MediaTechnologies Technology];
    "attenuation-at-5000-mhz": [StepsIfAny Attenuation 1000 Decibel] [Outside Technology 1 10 15];
    "attenuation-at-7000-mhz": [StepsIfAny Attenuation 1000 Decibel] (value 2) [Outside Technology 1 10 15];
    "attenuation-at-12900-mhz": [StepsIfAny Attenuation 1000 Decibel] (value 3) [Outside Technology 1 10 15];
    "attenuation-at-25800-mhz": [StepsIfAny Attenuation 1000 Decibel] (value 4) [Outside Technology 1 10 15];
    "firmware": [Version ActiveFirmware] [Cmis3];
};

/// What it is.
#[tactic(auto, unfolding(crate::specs::CmisDetails::identity_rows))]
pub fn identity() -> &'static [Line]
    ensures rows { rows_in result.now ≡ spec.identity_rows }
    ensures fit { IsTrue (list_all row_fits (rows_in result.now)) }
{
    IDENTITY
}

const CHARACTERISTICS: &[Line] = detail_table! {
    Cmis;
    "inactive-firmware": [Version InactiveFirmware] paged [Cmis3];
    "hardware": [Version Hardware] paged;
    "length-smf": [TenthsIfAny LengthSmf LengthSmfMultiplier Kilometre] paged [Outside LengthSmfMultiplier 1 0 1];
    "length-om5": [StepsIfAny Lengths 2000 Metre] paged;
    "length-om4": [StepsIfAny Lengths 2000 Metre] (value 2) paged;
    "length-om3": [StepsIfAny Lengths 2000 Metre] (value 3) paged;
    "length-om2": [StepsIfAny Lengths 1000 Metre] (value 4) paged;
    "wavelength": [StepsIfAny Wavelength 50 Nanometre] paged [Within Technology 1 10 15];
    "wavelength-tolerance": [StepsIfAny WavelengthTolerance 5 Nanometre] paged [Within Technology 1 10 15];
    "cooled": [Yes Cooled] paged;
    "detector": [Either DetectorIsApd "APD" "PIN"] paged;
    "rx-power-type": [Either RxPowerIsAverage "average" "OMA"] paged;
    "case-temperature-max": [Celsius TempRange] paged [Within TempRange 1 0 0];
    "case-temperature-min": [Celsius TempRange] (value 2) paged [Within TempRange 1 0 0];
    "max-duration-module-pwr-up": [Named Durations MaxDurationModulePwrUp] paged [Cmis3];
    "max-duration-module-pwr-dn": [Named Durations MaxDurationModulePwrDn] paged [Cmis3];
    "max-duration-dp-init": [Named Durations MaxDurationDPInit] paged;
    "max-duration-dp-deinit": [Named Durations MaxDurationDPDeinit] paged;
    "max-duration-dp-tx-turn-on": [Named Durations MaxDurationDPTxTurnOn] paged [Cmis3];
    "max-duration-dp-tx-turn-off": [Named Durations MaxDurationDPTxTurnOff] paged [Cmis3];
};

/// What it is like.
#[tactic(auto, unfolding(crate::specs::CmisDetails::characteristics_rows))]
pub fn characteristics() -> &'static [Line]
    ensures rows { rows_in result.now ≡ spec.characteristics_rows }
    ensures fit { IsTrue (list_all row_fits (rows_in result.now)) }
{
    CHARACTERISTICS
}

const CONTROLS: &[Line] = detail_table! {
    Cmis;
    "tunable": [Yes LaserControls] paged;
    "wavelength-control": [Yes LaserControls] (value 2) paged;
    "tx-squelch": [Named SquelchMethods TxSquelchMethod] paged;
    "tx-polarity-flip": [Yes TxControls] paged;
    "tx-disable-control": [Yes TxControls] (value 2) paged;
    "tx-squelch-disable": [Yes TxControls] (value 3) paged;
    "tx-forced-squelch": [Yes TxControls] (value 4) paged;
    "rx-polarity-flip": [Yes RxControls] paged;
    "rx-disable-control": [Yes RxControls] (value 2) paged;
    "rx-squelch-disable": [Yes RxControls] (value 3) paged;
    "tx-fault-flag": [Yes TxFlags] paged;
    "tx-los-flag": [Yes TxFlags] (value 2) paged;
    "tx-lol-flag": [Yes TxFlags] (value 3) paged;
    "tx-eq-fail-flag": [Yes TxFlags] (value 4) paged;
    "rx-los-flag": [Yes RxFlags] paged;
    "rx-lol-flag": [Yes RxFlags] (value 2) paged;
    "tx-cdr": [Yes TxSignalControls] paged;
    "tx-cdr-control": [Yes TxSignalControls] (value 2) paged;
    "tx-eq-fixed": [Yes TxSignalControls] (value 3) paged;
    "tx-eq-adaptive": [Yes TxSignalControls] (value 4) paged;
    "tx-eq-freeze": [Yes TxSignalControls] (value 5) paged;
    "rx-cdr": [Yes RxSignalControls] paged;
    "rx-cdr-control": [Yes RxSignalControls] (value 2) paged;
    "rx-amplitude-control": [Yes RxSignalControls] (value 3) paged;
    "rx-eq-control": [Named OutputEqualizers RxEqControl] paged;
};

/// Which controls and flags it has.
#[tactic(auto, unfolding(crate::specs::CmisDetails::controls_rows))]
pub fn controls() -> &'static [Line]
    ensures rows { rows_in result.now ≡ spec.controls_rows }
    ensures fit { IsTrue (list_all row_fits (rows_in result.now)) }
{
    CONTROLS
}

const STATUS: &[Line] = detail_table! {
    Cmis;
    "state": [ModuleState ModuleState];
    "fault-cause": [Named ModuleFaults FaultCause] [Outside ModuleState 1 5 5] [Cmis3];
    "low-power-allow-hw": [Yes LowPwrAllowHW];
    "low-power-request-sw": [Yes LowPwrRequestSW];
    "software-reset": [Yes SoftwareReset];
    "temperature": [Amount Temperature] paged [Within ModuleMonitors 1 0 0];
    "vcc": [Amount Vcc] paged [Within ModuleMonitors 2 0 0];
    "aux-1-tec-current": [Percent Aux1] paged [Within ModuleMonitors 3 0 0] [Within AuxKinds 1 0 0];
    "aux-2-tec-current": [Percent Aux2] paged [Within ModuleMonitors 4 0 0] [Within AuxKinds 2 0 0];
    "aux-2-laser-temperature": [Temperature Aux2] paged [Within ModuleMonitors 4 0 0] [Within AuxKinds 2 1 1];
    "aux-3-laser-temperature": [Temperature Aux3] paged [Within ModuleMonitors 5 0 0] [Within AuxKinds 3 1 1];
    "aux-3-vcc": [Steps Aux3 100 Millivolt] paged [Within ModuleMonitors 5 0 0] [Within AuxKinds 3 0 0];
};

/// How it is.
#[tactic(auto, unfolding(crate::specs::CmisDetails::status_rows))]
pub fn status() -> &'static [Line]
    ensures rows { rows_in result.now ≡ spec.status_rows }
    ensures fit { IsTrue (list_all row_fits (rows_in result.now)) }
{
    STATUS
}

const LANES: &[Line] = detail_table! {
    Cmis;
    "path-state": [PathState PathStates] (lanes 8) paged;
    "config-status": [ConfigStatus ConfigStatus] (lanes 8) paged;
    "application": [Number ActiveAppSel 0] (lanes 8) paged;
    "path-from": [FirstLane ActiveAppSel ActivePathId] (lanes 8) paged;
    "tx-output": [Yes TxOutputStatus] (lanes 8) paged [Cmis3];
    "rx-output": [Yes RxOutputStatus] (lanes 8) paged [Cmis3];
    "tx-power": [Level TxPower] (lanes 8) paged [Within TxPowerMonitor 1 0 0];
    "tx-power-mw": [Milliwatts TxPower] (lanes 8) paged [Within TxPowerMonitor 1 0 0];
    "tx-bias": [Amount TxBias BiasMultiplier] (lanes 8) paged [Within TxBiasMonitor 1 0 0] [Within BiasMultiplier 1 3 3];
    "rx-power": [Level RxPower] (lanes 8) paged [Within RxPowerMonitor 1 0 0];
    "rx-power-mw": [Milliwatts RxPower] (lanes 8) paged [Within RxPowerMonitor 1 0 0];
};

/// How its lanes are.
#[tactic(auto, unfolding(crate::specs::CmisDetails::lanes_rows))]
pub fn lanes() -> &'static [Line]
    ensures rows { rows_in result.now ≡ spec.lanes_rows }
    ensures fit { IsTrue (list_all row_fits (rows_in result.now)) }
{
    LANES
}
