ghost use Rattle.std.specs.Prelude.{◌≡◌, ◌≢◌, ◌+◌, ◌*◌, ◌≤◌, IsTrue};
ghost use Rattle.field_tables.specs.FieldRows.{row_of};
ghost use Rattle.field_tables.specs.Readings.{is_of_bytes};
ghost use Rattle.module_decoding.specs.declared.report.Report.TheVariants.{Flags};
ghost use Rattle.firmware_api.specs.Halves.{memory_of, report_refusal};
ghost use Rattle.firmware_api.specs.RaisedFlags as spec;
ghost use Rattle.firmware_api.specs.RaisedFlags.{flags_in};
ghost use Rattle.std.specs.Option.{option_or};
ghost use Rattle.firmware_api.specs.SimulatedModules.{half_refusal};
ghost use Rattle.firmware_api.specs.Statuses.{done, status_by};

use crate::half::{HalfBytes, half_status, image_of};
use crate::read_module::family_number;
use crate::status::{DONE, decode_status};
use field_tables::{Field, all_numbers, bit_at, field, number};
use module_decoding::{Report, family_with, is_flat};
use paged_memory::{Family, Image};

/// Which limits are passed: 0 or 1 for a value of the module, a byte of lanes for a value of its lanes.
#[repr(C)]
#[derive(Clone, Copy)]
pub struct LevelFlags {
    pub high_alarm: u8,
    pub low_alarm: u8,
    pub high_warning: u8,
    pub low_warning: u8,
}

/// The states of a module, and the flags that it raises, a byte of lanes each. What a family does not have is 0.
#[repr(C)]
#[derive(Clone, Copy)]
pub struct ModuleFlags {
    pub family: u8,
    /// How many lanes this speaks of.
    pub lanes: u8,
    pub state: u8,
    pub path_states: [u8; 8],
    pub statuses: [u8; 8],
    pub path_state_changed: u8,
    /// For CMIS its TxFailure.
    pub tx_fault: u8,
    pub tx_los: u8,
    pub tx_lol: u8,
    pub tx_eq_fail: u8,
    pub rx_los: u8,
    pub rx_lol: u8,
    pub temperature: LevelFlags,
    pub vcc: LevelFlags,
    pub tx_power: LevelFlags,
    pub tx_bias: LevelFlags,
    pub rx_power: LevelFlags,
}

/// Puts into `flags` the states and the flags of the module whose memory has these halves.
#[unsafe(no_mangle)]
pub extern "C" fn dovecounter_flags(halves: &[HalfBytes], flags: &mut ModuleFlags) -> u32
    ensures status { result ≡ status_by (option_or (half_refusal halves.now) (report_refusal Flags (memory_of halves.now))) }
    ensures done { result ≡ done → flags.new ≡ flags_in (memory_of halves.now) }
    ensures refused { result ≢ done → flags.new ≡ flags.old }
{
    let status = half_status(halves);
    if status != DONE {
        return status;
    }
    put_flags(&image_of(halves).view(), flags)
}

#[tactic(auto, unfolding(crate::specs::Halves::report_refusal, crate::specs::RaisedFlags::flags_in))]
fn put_flags(image: &Image, flags: &mut ModuleFlags) -> u32
    ensures status { result ≡ status_by (report_refusal Flags image.now) }
    ensures done { result ≡ done → flags.new ≡ flags_in image.now }
    ensures refused { result ≢ done → flags.new ≡ flags.old }
{
    match family_with(Report::Flags, image) {
        Ok(family) => {
            put_flags_of(family, image, flags);
            DONE
        }
        Err(fault) => decode_status(fault),
    }
}

fn put_flags_of(family: Family, image: &Image, flags: &mut ModuleFlags)
    ensures { flags.new ≡ spec.flags_of family image.now }
{
    match family {
        Family::Cmis => put_cmis_flags(image, flags),
        Family::Sff8636 => put_qsfp_flags(image, flags),
        Family::Sff8472 => put_sfp_flags(image, flags),
    }
}

const NO_LEVELS: LevelFlags = LevelFlags {
    high_alarm: 0,
    low_alarm: 0,
    high_warning: 0,
    low_warning: 0,
};

const NO_FLAGS: ModuleFlags = ModuleFlags {
    family: 0,
    lanes: 0,
    state: 0,
    path_states: [0; 8],
    statuses: [0; 8],
    path_state_changed: 0,
    tx_fault: 0,
    tx_los: 0,
    tx_lol: 0,
    tx_eq_fail: 0,
    rx_los: 0,
    rx_lol: 0,
    temperature: NO_LEVELS,
    vcc: NO_LEVELS,
    tx_power: NO_LEVELS,
    tx_bias: NO_LEVELS,
    rx_power: NO_LEVELS,
};

// A module with flat memory tells nothing of its lanes.
#[tactic(auto, unfolding(crate::specs::RaisedFlags::cmis_flags))]
fn put_cmis_flags(image: &Image, flags: &mut ModuleFlags)
    ensures { flags.new ≡ spec.cmis_flags image.now }
{
    *flags = NO_FLAGS;
    flags.family = family_number(Family::Cmis);
    flags.state = number(image, field!(Cmis ModuleState));
    put_past_limits(image, field!(Cmis ModuleFlag), 1, &mut flags.temperature);
    put_past_limits(image, field!(Cmis ModuleFlag), 5, &mut flags.vcc);
    if is_flat(image) {
        return;
    }
    flags.lanes = 8;
    flags.path_states = all_numbers(image, field!(Cmis PathStates));
    flags.statuses = all_numbers(image, field!(Cmis ConfigStatus));
    flags.path_state_changed = eight_lanes(image, field!(Cmis PathStateChanged));
    flags.tx_fault = eight_lanes(image, field!(Cmis TxFailure));
    flags.tx_los = eight_lanes(image, field!(Cmis TxLos));
    flags.tx_lol = eight_lanes(image, field!(Cmis TxLol));
    flags.tx_eq_fail = eight_lanes(image, field!(Cmis TxEqFail));
    flags.rx_los = eight_lanes(image, field!(Cmis RxLos));
    flags.rx_lol = eight_lanes(image, field!(Cmis RxLol));
    let tx_power = &mut flags.tx_power;
    tx_power.high_alarm = eight_lanes(image, field!(Cmis TxPowerHighAlarm));
    tx_power.low_alarm = eight_lanes(image, field!(Cmis TxPowerLowAlarm));
    tx_power.high_warning = eight_lanes(image, field!(Cmis TxPowerHighWarning));
    tx_power.low_warning = eight_lanes(image, field!(Cmis TxPowerLowWarning));
    let tx_bias = &mut flags.tx_bias;
    tx_bias.high_alarm = eight_lanes(image, field!(Cmis TxBiasHighAlarm));
    tx_bias.low_alarm = eight_lanes(image, field!(Cmis TxBiasLowAlarm));
    tx_bias.high_warning = eight_lanes(image, field!(Cmis TxBiasHighWarning));
    tx_bias.low_warning = eight_lanes(image, field!(Cmis TxBiasLowWarning));
    let rx_power = &mut flags.rx_power;
    rx_power.high_alarm = eight_lanes(image, field!(Cmis RxPowerHighAlarm));
    rx_power.low_alarm = eight_lanes(image, field!(Cmis RxPowerLowAlarm));
    rx_power.high_warning = eight_lanes(image, field!(Cmis RxPowerHighWarning));
    rx_power.low_warning = eight_lanes(image, field!(Cmis RxPowerLowWarning));
}

fn put_qsfp_flags(image: &Image, flags: &mut ModuleFlags)
    ensures { flags.new ≡ spec.qsfp_flags image.now }
{
    *flags = NO_FLAGS;
    flags.family = family_number(Family::Sff8636);
    flags.lanes = 4;
    flags.tx_fault = four_lanes(image, field!(Sff8636 TxFault));
    flags.tx_los = four_lanes(image, field!(Sff8636 TxLos));
    flags.tx_lol = four_lanes(image, field!(Sff8636 TxLol));
    flags.rx_los = four_lanes(image, field!(Sff8636 RxLos));
    flags.rx_lol = four_lanes(image, field!(Sff8636 RxLol));
    put_past_limits(image, field!(Sff8636 TempFlag), 1, &mut flags.temperature);
    put_past_limits(image, field!(Sff8636 VccFlag), 1, &mut flags.vcc);
    let tx_power = &mut flags.tx_power;
    tx_power.high_alarm = four_lanes(image, field!(Sff8636 TxPowerHighAlarm));
    tx_power.low_alarm = four_lanes(image, field!(Sff8636 TxPowerLowAlarm));
    tx_power.high_warning = four_lanes(image, field!(Sff8636 TxPowerHighWarning));
    tx_power.low_warning = four_lanes(image, field!(Sff8636 TxPowerLowWarning));
    let tx_bias = &mut flags.tx_bias;
    tx_bias.high_alarm = four_lanes(image, field!(Sff8636 TxBiasHighAlarm));
    tx_bias.low_alarm = four_lanes(image, field!(Sff8636 TxBiasLowAlarm));
    tx_bias.high_warning = four_lanes(image, field!(Sff8636 TxBiasHighWarning));
    tx_bias.low_warning = four_lanes(image, field!(Sff8636 TxBiasLowWarning));
    let rx_power = &mut flags.rx_power;
    rx_power.high_alarm = four_lanes(image, field!(Sff8636 RxPowerHighAlarm));
    rx_power.low_alarm = four_lanes(image, field!(Sff8636 RxPowerLowAlarm));
    rx_power.high_warning = four_lanes(image, field!(Sff8636 RxPowerHighWarning));
    rx_power.low_warning = four_lanes(image, field!(Sff8636 RxPowerLowWarning));
}

fn put_sfp_flags(image: &Image, flags: &mut ModuleFlags)
    ensures { flags.new ≡ spec.sfp_flags image.now }
{
    *flags = NO_FLAGS;
    flags.family = family_number(Family::Sff8472);
    flags.lanes = 1;
    flags.tx_fault = lane_bit(image, field!(Sff8472 TxFault), 1, 1);
    flags.rx_los = lane_bit(image, field!(Sff8472 RxLos), 1, 1);
    let pairs = (field!(Sff8472 Alarms), field!(Sff8472 Warnings));
    let rx_pairs = (field!(Sff8472 RxAlarms), field!(Sff8472 RxWarnings));
    put_past_pairs(image, pairs, 1, &mut flags.temperature);
    put_past_pairs(image, pairs, 3, &mut flags.vcc);
    put_past_pairs(image, pairs, 7, &mut flags.tx_power);
    put_past_pairs(image, pairs, 5, &mut flags.tx_bias);
    put_past_pairs(image, rx_pairs, 1, &mut flags.rx_power);
}

// Puts those of the module itself: four flags of a field from the first on.
fn put_past_limits(image: &Image, field: Field, first: u8, levels: &mut LevelFlags)
    requires bytes { IsTrue (is_of_bytes (row_of field)) }
    requires first { 1 ≤ first }
    requires last { first + 3 ≤ (row_of field).count }
    ensures { levels.new ≡ spec.past_limits image.now field first }
{
    levels.high_alarm = lane_bit(image, field, first, 1);
    levels.low_alarm = lane_bit(image, field, first + 1, 1);
    levels.high_warning = lane_bit(image, field, first + 2, 1);
    levels.low_warning = lane_bit(image, field, first + 3, 1);
}

// Puts those of the module, or of its one lane: two flags of a field of alarms and of one of warnings.
fn put_past_pairs(image: &Image, pairs: (Field, Field), first: u8, levels: &mut LevelFlags)
    requires alarms { IsTrue (is_of_bytes (row_of pairs.0)) }
    requires warnings { IsTrue (is_of_bytes (row_of pairs.1)) }
    requires first { 1 ≤ first }
    requires last_alarm { first + 1 ≤ (row_of pairs.0).count }
    requires last_warning { first + 1 ≤ (row_of pairs.1).count }
    ensures { levels.new ≡ spec.past_pairs image.now pairs.0 pairs.1 first }
{
    let (alarms, warnings) = pairs;
    levels.high_alarm = lane_bit(image, alarms, first, 1);
    levels.low_alarm = lane_bit(image, alarms, first + 1, 1);
    levels.high_warning = lane_bit(image, warnings, first, 1);
    levels.low_warning = lane_bit(image, warnings, first + 1, 1);
}

fn four_lanes(image: &Image, field: Field) -> u8
    requires bytes { IsTrue (is_of_bytes (row_of field)) }
    requires lanes { 4 ≤ (row_of field).count }
    ensures value { result ≡ spec.four_lanes image.now field }
    ensures low { result ≤ 15 }
{
    lane_bits(image, field, 1, 1)
}

fn eight_lanes(image: &Image, field: Field) -> u8
    requires bytes { IsTrue (is_of_bytes (row_of field)) }
    requires lanes { 8 ≤ (row_of field).count }
    ensures { result ≡ spec.eight_lanes image.now field }
{
    lane_bits(image, field, 1, 1) + lane_bits(image, field, 5, 16)
}

// Four lanes from the first on, of which that has this weight, and each other one twice that of the one before.
fn lane_bits(image: &Image, field: Field, first: u8, weight: u8) -> u8
    requires bytes { IsTrue (is_of_bytes (row_of field)) }
    requires first { 1 ≤ first }
    requires last { first + 3 ≤ (row_of field).count }
    requires weight { weight ≤ 16 }
    ensures value { result ≡ spec.lane_bit image.now field first weight + spec.lane_bit image.now field (first + 1) (2 * weight)
        + spec.lane_bit image.now field (first + 2) (4 * weight) + spec.lane_bit image.now field (first + 3) (8 * weight) }
    ensures low { result ≤ 15 * weight }
{
    lane_bit(image, field, first, weight)
        + lane_bit(image, field, first + 1, 2 * weight)
        + lane_bit(image, field, first + 2, 4 * weight)
        + lane_bit(image, field, first + 3, 8 * weight)
}

fn lane_bit(image: &Image, field: Field, index: u8, weight: u8) -> u8
    requires bytes { IsTrue (is_of_bytes (row_of field)) }
    requires first { 1 ≤ index }
    requires last { index ≤ (row_of field).count }
    ensures value { result ≡ spec.lane_bit image.now field index weight }
    ensures low { result ≤ weight }
{
    if bit_at(image, field, index) {
        weight
    } else {
        0
    }
}
