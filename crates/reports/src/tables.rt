// The lines of reports. A row: its name, what it shows, of which modules, and what is said instead if a field has a number.
// The definitions have each table in their own words; each table's contract says that the two are equal.
ghost use Rattle.std.specs.Prelude.{◌≡◌, IsTrue};
ghost use Rattle.std.specs.List.{list_all};
ghost use Rattle.report_entries.specs.FlagRows.{flag_row_fits};
ghost use Rattle.report_entries.specs.RowTables.{rows_in};
ghost use Rattle.report_entries.specs.Rows.{row_fits};
ghost use Rattle.reports.specs.InventoryRows.{inventory_rows};
ghost use Rattle.reports.specs.Reports.{flag_rows_of, rows_of};

use field_tables::{field, sum_of, text_of};
use module_decoding::Report;
use paged_memory::Family;
use report_entries::{
    Condition, FlagName, FlagPlace, FlagRow, Instead, LimitKind, Line, Quantity, Row, Source,
};

/// The lines of a report of a module of this family; of flags, those before them.
#[tactic(auto, unfolding(crate::specs::MonitorRows::cmis_rows, crate::specs::MonitorRows::qsfp_rows, crate::specs::MonitorRows::sfp_rows, crate::specs::FlagRows::state_rows))]
pub fn rows(report: Report, family: Family) -> &'static [Line]
    ensures rows { rows_in result.now ≡ rows_of report family }
    ensures fit { IsTrue (list_all row_fits (rows_in result.now)) }
{
    match (report, family) {
        (Report::Inventory, _) => inventory_lines(family),
        (Report::Monitors, Family::Cmis) => CMIS_MONITORS,
        (Report::Monitors, Family::Sff8636) => QSFP_MONITORS,
        (Report::Monitors, Family::Sff8472) => SFP_MONITORS,
        (Report::Flags, Family::Cmis) => CMIS_STATES,
        _ => &[],
    }
}

macro_rules! source {
    ($of:ident Word $word:literal) => { Source::Word($word) };
    ($of:ident Either $field:ident $one:literal $other:literal) => { Source::Either(field!($of $field), $one, $other) };
    ($of:ident Text $text:ident) => { Source::Text(text_of!($of $text)) };
    ($of:ident Right $sum:ident) => { Source::Right(sum_of!($of $sum)) };
    ($of:ident Length $base:ident $power:ident) => { Source::Length(field!($of $base), field!($of $power)) };
    ($of:ident Lanes $field:ident) => { Source::Lanes(field!($of $field), None) };
    ($of:ident Lanes $field:ident $power:ident) => { Source::Lanes(field!($of $field), Some(field!($of $power))) };
    ($of:ident Limits $field:ident) => { Source::Limits(field!($of $field), None) };
    ($of:ident Limits $field:ident $power:ident) => { Source::Limits(field!($of $field), Some(field!($of $power))) };
    ($of:ident LaneStates $paths:ident $statuses:ident) => { Source::LaneStates(field!($of $paths), field!($of $statuses)) };
    ($of:ident $kind:ident $field:ident) => { Source::$kind(field!($of $field)) };
}

macro_rules! is_paged {
    () => { false };
    (paged) => { true };
}

macro_rules! instead_of {
    ($of:ident $field:ident $number:literal) => { Instead::Nothing(field!($of $field), $number) };
    ($of:ident $field:ident $number:literal $word:literal) => { Instead::Word(field!($of $field), $number, $word) };
}

macro_rules! line_table {
    ($of:ident; $($name:literal: [$($source:tt)*] $($paged:ident)? $([$($instead:tt)*])*;)*) => {
        &[$(Row {
            name: $name,
            source: source!($of $($source)*),
            paged: is_paged!($($paged)?),
            instead: &[$(instead_of!($of $($instead)*)),*],
        }),*]
    };
}

// What modules of SFF say of themselves, by the fields of each standard.
macro_rules! sff_inventories {
    ($($of:ident $standard:literal;)*) => {
        &[$(line_table! {
            $of;
            "family": [Word $standard];
            "identifier": [Code Identifier];
            "vendor": [Text Vendor];
            "oui": [Oui Oui];
            "part": [Text Part];
            "part-revision": [Text PartRevision];
            "serial": [Text Serial];
            "date": [Text Date];
            "connector": [Code Connector];
            "sum-base": [Right SumBase];
            "sum-ext": [Right SumExt];
        }),*]
    };
}

const CMIS_INVENTORY: &[Line] = line_table! {
    Cmis;
    "family": [Word "CMIS"];
    "identifier": [Code Identifier];
    "revision": [Revision Revision];
    "memory": [Either FlatMemory "flat" "paged"];
    "media-type": [Code MediaType];
    "vendor": [Text Vendor];
    "oui": [Oui Oui];
    "part": [Text Part];
    "part-revision": [Text PartRevision];
    "serial": [Text Serial];
    "date": [Text Date];
    "power-class": [Next PowerClass];
    "max-power": [Amount MaxPower];
    "length": [Length LengthBase LengthMultiplier];
    "connector": [Code Connector];
    "technology": [Code Technology];
    "sum-00h": [Right Sum00];
};

const SFF_INVENTORIES: &[&[Line]] = sff_inventories! {
    Sff8636 "SFF-8636";
    Sff8472 "SFF-8472";
};

/// What a module of this family is.
#[tactic(auto, unfolding(crate::specs::InventoryRows::inventory_rows))]
pub fn inventory_lines(family: Family) -> &'static [Line]
    ensures rows { rows_in result.now ≡ inventory_rows family }
    ensures fit { IsTrue (list_all row_fits (rows_in result.now)) }
{
    match family {
        Family::Cmis => CMIS_INVENTORY,
        Family::Sff8636 => SFF_INVENTORIES[0],
        Family::Sff8472 => SFF_INVENTORIES[1],
    }
}

// What a CMIS module measures.
const CMIS_MONITORS: &[Line] = line_table! {
    Cmis;
    "temperature": [Amount Temperature];
    "temperature-limits": [Limits TempLimits] paged;
    "vcc": [Amount Vcc];
    "vcc-limits": [Limits VccLimits] paged;
    "tx-power": [Lanes TxPower] paged [TxPowerMonitor 0 "unsupported"];
    "tx-power-limits": [Limits TxPowerLimits] paged [TxPowerMonitor 0];
    "tx-bias": [Lanes TxBias BiasMultiplier] paged [TxBiasMonitor 0 "unsupported"] [BiasMultiplier 3 "reserved"];
    "tx-bias-limits": [Limits TxBiasLimits BiasMultiplier] paged [TxBiasMonitor 0] [BiasMultiplier 3];
    "rx-power": [Lanes RxPower] paged [RxPowerMonitor 0 "unsupported"];
    "rx-power-limits": [Limits RxPowerLimits] paged [RxPowerMonitor 0];
    "sum-02h": [Right Sum02] paged;
};

// What a module of SFF-8636 measures.
const QSFP_MONITORS: &[Line] = line_table! {
    Sff8636;
    "temperature": [Amount Temperature];
    "temperature-limits": [Limits TempLimits] paged;
    "vcc": [Amount Vcc];
    "vcc-limits": [Limits VccLimits] paged;
    "tx-power": [Lanes TxPower];
    "tx-power-limits": [Limits TxPowerLimits] paged;
    "tx-bias": [Lanes TxBias];
    "tx-bias-limits": [Limits TxBiasLimits] paged;
    "rx-power": [Lanes RxPower];
    "rx-power-limits": [Limits RxPowerLimits] paged;
};

// What a module of SFF-8472 measures.
const SFP_MONITORS: &[Line] = line_table! {
    Sff8472;
    "temperature": [Amount Temperature];
    "temperature-limits": [Limits TempLimits];
    "vcc": [Amount Vcc];
    "vcc-limits": [Limits VccLimits];
    "tx-power": [Lanes TxPower];
    "tx-power-limits": [Limits TxPowerLimits];
    "tx-bias": [Lanes TxBias];
    "tx-bias-limits": [Limits TxBiasLimits];
    "rx-power": [Lanes RxPower];
    "rx-power-limits": [Limits RxPowerLimits];
    "sum-a2": [Right SumDmi];
};

// The states of a CMIS module and of its lanes.
const CMIS_STATES: &[Line] = line_table! {
    Cmis;
    "state": [State ModuleState];
    "lane": [LaneStates PathStates ConfigStatus] paged;
};

macro_rules! flag_name {
    ($condition:ident) => { FlagName::Holds(Condition::$condition) };
    ($quantity:ident $limit:ident) => { FlagName::Passed(Quantity::$quantity, LimitKind::$limit) };
}

macro_rules! flag_place {
    (lanes) => { FlagPlace::Lanes };
    ($index:literal) => { FlagPlace::Value(None, $index) };
    ($index:literal lane $lane:literal) => { FlagPlace::Value(Some($lane), $index) };
}

macro_rules! flag_table {
    ($of:ident; $($first:ident $($limit:ident)?: [$field:ident $($place:tt)*] $($paged:ident)?;)*) => {
        &[$(FlagRow {
            name: flag_name!($first $($limit)?),
            field: field!($of $field),
            place: flag_place!($($place)*),
            paged: is_paged!($($paged)?),
        }),*]
    };
}

/// The flags of a module of this family.
#[tactic(auto, unfolding(crate::specs::FlagRows::cmis_rows, crate::specs::FlagRows::qsfp_rows, crate::specs::FlagRows::sfp_rows))]
pub fn flag_rows(family: Family) -> &'static [FlagRow]
    ensures rows { result.now ≡ flag_rows_of family }
    ensures fit { IsTrue (list_all flag_row_fits result.now) }
{
    match family {
        Family::Cmis => flag_table! {
            Cmis;
            Temperature HighAlarm: [ModuleFlag 1];
            Temperature LowAlarm: [ModuleFlag 2];
            Temperature HighWarning: [ModuleFlag 3];
            Temperature LowWarning: [ModuleFlag 4];
            Vcc HighAlarm: [ModuleFlag 5];
            Vcc LowAlarm: [ModuleFlag 6];
            Vcc HighWarning: [ModuleFlag 7];
            Vcc LowWarning: [ModuleFlag 8];
            PathStateChanged: [PathStateChanged lanes] paged;
            TxFailure: [TxFailure lanes] paged;
            TxLos: [TxLos lanes] paged;
            TxLol: [TxLol lanes] paged;
            TxEqFail: [TxEqFail lanes] paged;
            TxPower HighAlarm: [TxPowerHighAlarm lanes] paged;
            TxPower LowAlarm: [TxPowerLowAlarm lanes] paged;
            TxPower HighWarning: [TxPowerHighWarning lanes] paged;
            TxPower LowWarning: [TxPowerLowWarning lanes] paged;
            TxBias HighAlarm: [TxBiasHighAlarm lanes] paged;
            TxBias LowAlarm: [TxBiasLowAlarm lanes] paged;
            TxBias HighWarning: [TxBiasHighWarning lanes] paged;
            TxBias LowWarning: [TxBiasLowWarning lanes] paged;
            RxLos: [RxLos lanes] paged;
            RxLol: [RxLol lanes] paged;
            RxPower HighAlarm: [RxPowerHighAlarm lanes] paged;
            RxPower LowAlarm: [RxPowerLowAlarm lanes] paged;
            RxPower HighWarning: [RxPowerHighWarning lanes] paged;
            RxPower LowWarning: [RxPowerLowWarning lanes] paged;
        },
        Family::Sff8636 => flag_table! {
            Sff8636;
            Temperature HighAlarm: [TempFlag 1];
            Temperature LowAlarm: [TempFlag 2];
            Temperature HighWarning: [TempFlag 3];
            Temperature LowWarning: [TempFlag 4];
            Vcc HighAlarm: [VccFlag 1];
            Vcc LowAlarm: [VccFlag 2];
            Vcc HighWarning: [VccFlag 3];
            Vcc LowWarning: [VccFlag 4];
            TxLos: [TxLos lanes];
            RxLos: [RxLos lanes];
            TxFault: [TxFault lanes];
            TxLol: [TxLol lanes];
            RxLol: [RxLol lanes];
            RxPower HighAlarm: [RxPowerHighAlarm lanes];
            RxPower LowAlarm: [RxPowerLowAlarm lanes];
            RxPower HighWarning: [RxPowerHighWarning lanes];
            RxPower LowWarning: [RxPowerLowWarning lanes];
            TxBias HighAlarm: [TxBiasHighAlarm lanes];
            TxBias LowAlarm: [TxBiasLowAlarm lanes];
            TxBias HighWarning: [TxBiasHighWarning lanes];
            TxBias LowWarning: [TxBiasLowWarning lanes];
            TxPower HighAlarm: [TxPowerHighAlarm lanes];
            TxPower LowAlarm: [TxPowerLowAlarm lanes];
            TxPower HighWarning: [TxPowerHighWarning lanes];
            TxPower LowWarning: [TxPowerLowWarning lanes];
        },
        Family::Sff8472 => flag_table! {
            Sff8472;
            Temperature HighAlarm: [Alarms 1];
            Temperature LowAlarm: [Alarms 2];
            Temperature HighWarning: [Warnings 1];
            Temperature LowWarning: [Warnings 2];
            Vcc HighAlarm: [Alarms 3];
            Vcc LowAlarm: [Alarms 4];
            Vcc HighWarning: [Warnings 3];
            Vcc LowWarning: [Warnings 4];
            TxBias HighAlarm: [Alarms 5 lane 1];
            TxBias LowAlarm: [Alarms 6 lane 1];
            TxBias HighWarning: [Warnings 5 lane 1];
            TxBias LowWarning: [Warnings 6 lane 1];
            TxPower HighAlarm: [Alarms 7 lane 1];
            TxPower LowAlarm: [Alarms 8 lane 1];
            TxPower HighWarning: [Warnings 7 lane 1];
            TxPower LowWarning: [Warnings 8 lane 1];
            RxPower HighAlarm: [RxAlarms 1 lane 1];
            RxPower LowAlarm: [RxAlarms 2 lane 1];
            RxPower HighWarning: [RxWarnings 1 lane 1];
            RxPower LowWarning: [RxWarnings 2 lane 1];
            TxFault: [TxFault 1 lane 1];
            RxLos: [RxLos 1 lane 1];
        },
    }
}
