ghost use Rattle.std.specs.Prelude.{◌≡◌, ◌≢◌};
ghost use Rattle.field_tables.specs.FieldRows.{row_of};
ghost use Rattle.module_decoding.specs.declared.report.Report.TheVariants.{Monitors};
ghost use Rattle.firmware_api.specs.Halves.{memory_of, report_refusal};
ghost use Rattle.firmware_api.specs.Monitors as spec;
ghost use Rattle.firmware_api.specs.Monitors.{monitors_in};
ghost use Rattle.std.specs.Option.{option_or};
ghost use Rattle.firmware_api.specs.SimulatedModules.{half_refusal};
ghost use Rattle.firmware_api.specs.Statuses.{done, status_by};

use crate::half::{HalfBytes, half_status, image_of};
use crate::measured_values::{
    LaneValues, ModuleValue, NO_LIMITS, put_lanes, put_supported, put_value,
};
use crate::read_module::{family_number, number_of};
use crate::status::{DONE, decode_status};
use field_tables::{Field, bit, field, is_sum_right, sum_of};
use module_decoding::{Report, family_with, is_flat};
use paged_memory::{Family, Image};

/// What a module measures. What it does not have is 0.
#[repr(C)]
#[derive(Clone, Copy)]
pub struct ModuleMonitors {
    pub temperature: ModuleValue,
    pub vcc: ModuleValue,
    pub tx_power: LaneValues,
    pub tx_bias: LaneValues,
    pub rx_power: LaneValues,
    pub family: u8,
    /// How many lanes this speaks of.
    pub lanes: u8,
    pub has_limits: u8,
    /// Whether the sum over the limits is right.
    pub sum: u8,
}

// Where a family keeps what modules measure, and the limits of that.
#[derive(Clone, Copy)]
pub struct MeasuredFields {
    pub temperature: Field,
    pub temperature_limits: Field,
    pub vcc: Field,
    pub vcc_limits: Field,
    pub tx_power: Field,
    pub tx_power_limits: Field,
    pub tx_bias: Field,
    pub tx_bias_limits: Field,
    pub rx_power: Field,
    pub rx_power_limits: Field,
}

/// Puts into `monitors` what the module whose memory has these halves measures.
#[unsafe(no_mangle)]
pub extern "C" fn dovecounter_monitors(halves: &[HalfBytes], monitors: &mut ModuleMonitors) -> u32
    ensures status { result ≡ status_by (option_or (half_refusal halves.now) (report_refusal Monitors (memory_of halves.now))) }
    ensures done { result ≡ done → monitors.new ≡ monitors_in (memory_of halves.now) }
    ensures refused { result ≢ done → monitors.new ≡ monitors.old }
{
    let status = half_status(halves);
    if status != DONE {
        return status;
    }
    put_monitors(&image_of(halves).view(), monitors)
}

#[tactic(auto, unfolding(crate::specs::Halves::report_refusal, crate::specs::Monitors::monitors_in))]
fn put_monitors(image: &Image, monitors: &mut ModuleMonitors) -> u32
    ensures status { result ≡ status_by (report_refusal Monitors image.now) }
    ensures done { result ≡ done → monitors.new ≡ monitors_in image.now }
    ensures refused { result ≢ done → monitors.new ≡ monitors.old }
{
    match family_with(Report::Monitors, image) {
        Ok(family) => {
            put_monitors_of(family, image, monitors);
            DONE
        }
        Err(fault) => decode_status(fault),
    }
}

fn put_monitors_of(family: Family, image: &Image, monitors: &mut ModuleMonitors)
    ensures { monitors.new ≡ spec.monitors_of family image.now }
{
    match family {
        Family::Cmis => put_cmis_monitors(image, monitors),
        Family::Sff8636 => put_qsfp_monitors(image, monitors),
        Family::Sff8472 => put_sfp_monitors(image, monitors),
    }
}

// A module with flat memory tells nothing of its lanes, and has no limits.
#[tactic(auto, unfolding(crate::specs::Monitors::cmis_monitors))]
fn put_cmis_monitors(image: &Image, monitors: &mut ModuleMonitors)
    ensures { monitors.new ≡ spec.cmis_monitors image.now }
{
    let paged = !is_flat(image);
    *monitors = NO_MONITORS;
    put_value(
        image,
        paged,
        field!(Cmis Temperature),
        field!(Cmis TempLimits),
        &mut monitors.temperature,
    );
    put_value(
        image,
        paged,
        field!(Cmis Vcc),
        field!(Cmis VccLimits),
        &mut monitors.vcc,
    );
    monitors.family = family_number(Family::Cmis);
    if !paged {
        return;
    }
    put_supported(
        image,
        field!(Cmis TxPowerMonitor),
        field!(Cmis TxPower),
        None,
        field!(Cmis TxPowerLimits),
        &mut monitors.tx_power,
    );
    put_supported(
        image,
        field!(Cmis TxBiasMonitor),
        field!(Cmis TxBias),
        Some(field!(Cmis BiasMultiplier)),
        field!(Cmis TxBiasLimits),
        &mut monitors.tx_bias,
    );
    put_supported(
        image,
        field!(Cmis RxPowerMonitor),
        field!(Cmis RxPower),
        None,
        field!(Cmis RxPowerLimits),
        &mut monitors.rx_power,
    );
    monitors.lanes = 8;
    monitors.has_limits = 1;
    monitors.sum = number_of(is_sum_right(image, sum_of!(Cmis Sum02)));
}

fn put_qsfp_monitors(image: &Image, monitors: &mut ModuleMonitors)
    ensures { monitors.new ≡ spec.qsfp_monitors image.now }
{
    let limited = !bit(image, field!(Sff8636 FlatMemory));
    put_measured(image, limited, &QSFP, monitors);
    monitors.family = family_number(Family::Sff8636);
    monitors.lanes = 4;
    monitors.has_limits = number_of(limited);
}

fn put_sfp_monitors(image: &Image, monitors: &mut ModuleMonitors)
    ensures { monitors.new ≡ spec.sfp_monitors image.now }
{
    put_measured(image, true, &SFP, monitors);
    monitors.family = family_number(Family::Sff8472);
    monitors.lanes = 1;
    monitors.has_limits = 1;
    monitors.sum = number_of(is_sum_right(image, sum_of!(Sff8472 SumDmi)));
}

const QSFP: MeasuredFields = MeasuredFields {
    temperature: field!(Sff8636 Temperature),
    temperature_limits: field!(Sff8636 TempLimits),
    vcc: field!(Sff8636 Vcc),
    vcc_limits: field!(Sff8636 VccLimits),
    tx_power: field!(Sff8636 TxPower),
    tx_power_limits: field!(Sff8636 TxPowerLimits),
    tx_bias: field!(Sff8636 TxBias),
    tx_bias_limits: field!(Sff8636 TxBiasLimits),
    rx_power: field!(Sff8636 RxPower),
    rx_power_limits: field!(Sff8636 RxPowerLimits),
};

const SFP: MeasuredFields = MeasuredFields {
    temperature: field!(Sff8472 Temperature),
    temperature_limits: field!(Sff8472 TempLimits),
    vcc: field!(Sff8472 Vcc),
    vcc_limits: field!(Sff8472 VccLimits),
    tx_power: field!(Sff8472 TxPower),
    tx_power_limits: field!(Sff8472 TxPowerLimits),
    tx_bias: field!(Sff8472 TxBias),
    tx_bias_limits: field!(Sff8472 TxBiasLimits),
    rx_power: field!(Sff8472 RxPower),
    rx_power_limits: field!(Sff8472 RxPowerLimits),
};

const NO_LANES: LaneValues = LaneValues {
    values: [0; 8],
    limits: NO_LIMITS,
    support: 0,
};

const NO_VALUE: ModuleValue = ModuleValue {
    value: 0,
    limits: NO_LIMITS,
};

const NO_MONITORS: ModuleMonitors = ModuleMonitors {
    temperature: NO_VALUE,
    vcc: NO_VALUE,
    tx_power: NO_LANES,
    tx_bias: NO_LANES,
    rx_power: NO_LANES,
    family: 0,
    lanes: 0,
    has_limits: 0,
    sum: 0,
};

// What is measured in these fields, of a module that has limits or has none; all else is 0, also what stands between the members.
#[inline(never)]
fn put_measured(
    image: &Image,
    limited: bool,
    fields: &MeasuredFields,
    monitors: &mut ModuleMonitors,
)
    requires temperature { 1 ≡ (row_of fields.now.temperature).count }
    requires temperature_limits { 4 ≡ (row_of fields.now.temperature_limits).count }
    requires vcc { 1 ≡ (row_of fields.now.vcc).count }
    requires vcc_limits { 4 ≡ (row_of fields.now.vcc_limits).count }
    requires tx_power_limits { 4 ≡ (row_of fields.now.tx_power_limits).count }
    requires tx_bias_limits { 4 ≡ (row_of fields.now.tx_bias_limits).count }
    requires rx_power_limits { 4 ≡ (row_of fields.now.rx_power_limits).count }
    ensures { monitors.new ≡ spec.measured image.now limited fields.now }
{
    let at = fields;
    *monitors = NO_MONITORS;
    put_value(
        image,
        limited,
        at.temperature,
        at.temperature_limits,
        &mut monitors.temperature,
    );
    put_value(image, limited, at.vcc, at.vcc_limits, &mut monitors.vcc);
    put_lanes(
        image,
        limited,
        at.tx_power,
        None,
        at.tx_power_limits,
        &mut monitors.tx_power,
    );
    put_lanes(
        image,
        limited,
        at.tx_bias,
        None,
        at.tx_bias_limits,
        &mut monitors.tx_bias,
    );
    put_lanes(
        image,
        limited,
        at.rx_power,
        None,
        at.rx_power_limits,
        &mut monitors.rx_power,
    );
}
