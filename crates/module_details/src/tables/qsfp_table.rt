// What a module of SFF-8636 says of itself. The definition has the same rows; each contract says that the two are equal.
ghost use Rattle.std.specs.Prelude.{◌≡◌, IsTrue};
ghost use Rattle.std.specs.List.{list_all};
ghost use Rattle.module_details.specs.QsfpDetails as spec;
ghost use Rattle.module_details.specs.Fits.{row_fits};
ghost use Rattle.module_details.specs.RowTables.{rows_in};

use crate::item::{Case, Item, Line, Row, Values};
use code_names::Table;
use field_tables::{field, text_of};
use report_entries::PrintedUnit;

const IDENTITY: &[Line] = detail_table! {
    Sff8636;
    "family": [Word "SFF-8636"];
    "identifier": [Named Identifiers Identifier];
    "revision": [Named Sff8636Revisions Revision];
    "memory": [Either FlatMemory "flat" "paged"];
    "connector": [Named Connectors Connector];
    "vendor": [Text Vendor];
    "oui": [Oui Oui];
    "part": [Text Part];
    "part-revision": [Text PartRevision];
    "serial": [Text Serial];
    "date": [Text Date];
    "power-class": [PowerClass];
    "max-power": [ClassPower];
    "encoding": [Named Sff8636Encodings Encoding];
    "bit-rate": [BitRate BitRate BitRateMore];
    "rate-select-type": [Named Sff8636RateSelects RateSelectType];
    "length-smf": [StepsIfAny Lengths 1000 Kilometre];
    "length-om3": [StepsIfAny Lengths 2000 Metre] (value 2);
    "length-om2": [StepsIfAny Lengths 1000 Metre] (value 3);
    "length-om1": [StepsIfAny Lengths 1000 Metre] (value 4);
    "length": [StepsIfAny Lengths 1000 Metre] (value 5) [Within Technology 1 0 0];
    "length-om4": [StepsIfAny Lengths 2000 Metre] (value 5) [Outside Technology 1 0 0];
    "technology": [Named MediaTechnologies Technology];
    "wavelength": [PairIfAny WavelengthOrAttenuation 50 Nanometre] [Within Technology 1 10 15];
    "wavelength-tolerance": [PairIfAny WavelengthOrAttenuation 5 Nanometre] (value 3) [Within Technology 1 10 15];
    "attenuation-at-2500-mhz": [StepsIfAny WavelengthOrAttenuation 1000 Decibel] [Outside Technology 1 10 15];
    "attenuation-at-5000-mhz": [StepsIfAny WavelengthOrAttenuation 1000 Decibel] (value 2) [Outside Technology 1 10 15];
    "attenuation-at-7000-mhz": [StepsIfAny WavelengthOrAttenuation 1000 Decibel] (value 3) [Outside Technology 1 10 15];
    "attenuation-at-12900-mhz": [StepsIfAny WavelengthOrAttenuation 1000 Decibel] (value 4) [Outside Technology 1 10 15];
    "case-temperature-max": [StepsIfAny TempMax 1000 Celsius];
};

/// What it is.
#[tactic(auto, unfolding(crate::specs::QsfpDetails::identity_rows))]
pub fn identity() -> &'static [Line]
    ensures rows { rows_in result.now ≡ spec.identity_rows }
    ensures fit { IsTrue (list_all row_fits (rows_in result.now)) }
{
    IDENTITY
}

const COMPLIANCE: &[Line] = detail_table! {
    Sff8636;
    "ethernet": [Names Sff8636Compliance Ethernet 0];
    "sonet": [Names Sff8636Compliance Sonet 8];
    "sas": [Names Sff8636Compliance Sas 16];
    "gigabit-ethernet": [Names Sff8636Compliance GigabitEthernet 24];
    "fc-length": [Names Sff8636Compliance FcLength 32];
    "fc-technology": [Names Sff8636Compliance FcTechnology 40];
    "fc-media": [Names Sff8636Compliance FcMedia 48];
    "fc-speed": [Names Sff8636Compliance FcSpeed 56];
    "infiniband": [Names InfinibandSpeeds Infiniband 0];
    "extended-compliance": [Named ExtendedCompliance ExtendedCompliance];
};

/// Which specifications it complies with.
#[tactic(auto, unfolding(crate::specs::QsfpDetails::compliance_rows))]
pub fn compliance() -> &'static [Line]
    ensures rows { rows_in result.now ≡ spec.compliance_rows }
    ensures fit { IsTrue (list_all row_fits (rows_in result.now)) }
{
    COMPLIANCE
}

const OPTIONS: &[Line] = detail_table! {
    Sff8636;
    "tunable": [Yes Transmitter];
    "detector": [Either Transmitter "APD" "PIN"] (value 2);
    "cooled": [Yes Transmitter] (value 3);
    "wavelength-control": [Yes Transmitter] (value 4);
    "tx-cdr": [Yes TxCdr];
    "rx-cdr": [Yes RxCdr];
    "clei-present": [Yes CleiPresent];
    "rx-amplitude-control": [Yes Equalizers];
    "rx-emphasis-control": [Yes Equalizers] (value 2);
    "tx-eq-fixed": [Yes Equalizers] (value 3);
    "tx-eq-adaptive": [Yes Equalizers] (value 4);
    "tx-eq-freeze": [Yes Equalizers] (value 5);
    "tx-squelch-method": [Either OptionsMore "average power" "OMA"] (value 2) [Within Options 1 0 0];
    "tx-squelch-disable": [Yes Options] (value 2);
    "rx-disable-control": [Yes Options] (value 3);
    "rx-squelch-disable": [Yes Options] (value 4);
    "rx-lol-flag": [Yes Options] (value 5);
    "tx-lol-flag": [Yes Options] (value 6);
    "rx-cdr-control": [Yes Options] (value 7);
    "tx-cdr-control": [Yes Options] (value 8);
    "tx-los-flag": [Yes OptionsMore];
    "tx-fault-flag": [Yes OptionsMore] (value 3);
    "tx-disable-control": [Yes OptionsMore] (value 4);
    "rate-select": [Yes OptionsMore] (value 5);
    "page-01h": [Yes OptionsMore] (value 6);
    "page-02h": [Yes OptionsMore] (value 7);
    "application-select": [Yes EnhancedOptions];
    "rate-select-extended": [Yes EnhancedOptions] (value 2);
    "initialization-flag": [Yes EnhancedOptions] (value 3);
    "rx-power-type": [Either Monitors "average" "OMA"] (value 2);
};

/// Which controls and flags it has.
#[tactic(auto, unfolding(crate::specs::QsfpDetails::options_rows))]
pub fn options() -> &'static [Line]
    ensures rows { rows_in result.now ≡ spec.options_rows }
    ensures fit { IsTrue (list_all row_fits (rows_in result.now)) }
{
    OPTIONS
}

const STATUS: &[Line] = detail_table! {
    Sff8636;
    "data-not-ready": [Yes DataNotReady];
    "software-reset": [Yes SoftwareReset];
    "power-override": [Yes PowerControls];
    "power-set": [Yes PowerControls] (value 2);
    "power-classes-5-to-7-enabled": [Yes PowerControls] (value 3);
    "power-class-8-enabled": [Yes PowerControls] (value 4);
    "temperature": [Amount Temperature] [LacksSince Monitors 4 Revision 8] [Within Technology 1 10 11];
    "vcc": [Amount Vcc] [LacksSince Monitors 3 Revision 8] [Within Technology 1 10 11];
    "tx-disabled": [Yes TxDisable] (lanes 4);
    "tx-cdr-on": [Yes TxCdrOn] (lanes 4) [Within TxCdr 1 0 0];
    "rx-cdr-on": [Yes RxCdrOn] (lanes 4) [Within RxCdr 1 0 0];
    "tx-power": [Level TxPower] (lanes 4) [Within Monitors 1 0 0];
    "tx-power-mw": [Milliwatts TxPower] (lanes 4) [Within Monitors 1 0 0];
    "tx-bias": [Amount TxBias] (lanes 4) [Within Technology 1 10 11];
    "rx-power": [Level RxPower] (lanes 4) [Within Technology 1 10 11];
    "rx-power-mw": [Milliwatts RxPower] (lanes 4) [Within Technology 1 10 11];
};

/// How it is.
#[tactic(auto, unfolding(crate::specs::QsfpDetails::status_rows))]
pub fn status() -> &'static [Line]
    ensures rows { rows_in result.now ≡ spec.status_rows }
    ensures fit { IsTrue (list_all row_fits (rows_in result.now)) }
{
    STATUS
}
