ghost use Rattle.std.specs.Prelude.{◌≡◌, ◌≤◌, IsTrue};
ghost use Rattle.field_tables.specs.FieldRows.{row_of};
ghost use Rattle.field_tables.specs.Readings.{is_of_bytes};
ghost use Rattle.firmware_api.specs.MeasuredValues as spec;
ghost use Rattle.module_decoding.specs.Amounts.{power_fits};

use field_tables::{Field, number, row};
use module_decoding::amount_at;
use paged_memory::Image;

/// The limits of a value, in thousandths of its unit.
#[repr(C)]
#[derive(Clone, Copy)]
pub struct Limits {
    pub high_alarm: i64,
    pub low_alarm: i64,
    pub high_warning: i64,
    pub low_warning: i64,
}

/// What the module measures of itself, in thousandths of the unit that reports print.
#[repr(C)]
#[derive(Clone, Copy)]
pub struct ModuleValue {
    pub value: i64,
    pub limits: Limits,
}

/// What the module measures in each lane, lane 1 first, in thousandths of the unit that reports print.
#[repr(C)]
#[derive(Clone, Copy)]
pub struct LaneValues {
    pub values: [i64; 8],
    pub limits: Limits,
    /// 1 if it is measured, 0 if not, and 2 if bias has a reserved multiplier.
    pub support: u8,
}

/// Puts a value of the module itself, of a module that has limits or has none.
pub fn put_value(image: &Image, limited: bool, field: Field, limits: Field, value: &mut ModuleValue)
    requires one { 1 ≡ (row_of field).count }
    requires limits { 4 ≡ (row_of limits).count }
    ensures { value.new ≡ spec.module_value image.now limited field limits }
{
    value.value = amount_at(image, field, None, 1);
    put_limits(image, limited, limits, None, &mut value.limits);
}

/// Puts the values of lanes of a CMIS module, which says whether it measures them.
#[tactic(auto, unfolding(crate::specs::MeasuredValues::supported_values))]
pub fn put_supported(
    image: &Image,
    support: Field,
    field: Field,
    multiplier: Option<Field>,
    limits: Field,
    lanes: &mut LaneValues,
)
    requires bytes { IsTrue (is_of_bytes (row_of support)) }
    requires one { 1 ≡ (row_of support).count }
    requires multiplier { IsTrue (power_fits multiplier) }
    requires limits { 4 ≡ (row_of limits).count }
    ensures { lanes.new ≡ spec.supported_values image.now support field multiplier limits }
{
    if number(image, support) == 0 {
        put_no_lanes(0, lanes);
    } else if is_reserved(image, multiplier) {
        put_no_lanes(2, lanes);
    } else {
        put_lanes(image, true, field, multiplier, limits, lanes);
    }
}

fn is_reserved(image: &Image, multiplier: Option<Field>) -> bool
    requires { IsTrue (power_fits multiplier) }
    ensures { result ≡ spec.is_reserved image.now multiplier }
{
    match multiplier {
        None => false,
        Some(field) => number(image, field) == 3,
    }
}

/// Puts the values of lanes, of a module that has limits or has none.
pub fn put_lanes(
    image: &Image,
    limited: bool,
    field: Field,
    power: Option<Field>,
    limits: Field,
    lanes: &mut LaneValues,
)
    requires power { IsTrue (power_fits power) }
    requires limits { 4 ≡ (row_of limits).count }
    ensures { lanes.new ≡ spec.lane_values image.now limited field power limits }
{
    put_values(image, field, power, &mut lanes.values);
    put_limits(image, limited, limits, power, &mut lanes.limits);
    lanes.support = 1;
}

// No values, and why.
fn put_no_lanes(support: u8, lanes: &mut LaneValues)
    ensures { lanes.new ≡ spec.no_lane_values support }
{
    lanes.values = [0; 8];
    lanes.limits = NO_LIMITS;
    lanes.support = support;
}

#[tactic(auto, unfolding(crate::specs::MeasuredValues::eight_values))]
fn put_values(image: &Image, field: Field, power: Option<Field>, values: &mut [i64; 8])
    requires { IsTrue (power_fits power) }
    ensures { values.new ≡ spec.eight_values image.now field power }
{
    for (before, value) in values.iter_mut().enumerate() {
        *value = value_at(image, field, power, before as u8 + 1);
    }
}

// 0 in a lane that the module doesn't have.
fn value_at(image: &Image, field: Field, power: Option<Field>, lane: u8) -> i64
    requires first { 1 ≤ lane }
    requires power { IsTrue (power_fits power) }
    ensures { result ≡ spec.value_at image.now field power lane }
{
    if lane <= row(field).count {
        amount_at(image, field, power, lane)
    } else {
        0
    }
}

fn put_limits(image: &Image, limited: bool, field: Field, power: Option<Field>, limits: &mut Limits)
    requires count { 4 ≡ (row_of field).count }
    requires power { IsTrue (power_fits power) }
    ensures { limits.new ≡ spec.limits_in image.now limited field power }
{
    if limited {
        limits.high_alarm = amount_at(image, field, power, 1);
        limits.low_alarm = amount_at(image, field, power, 2);
        limits.high_warning = amount_at(image, field, power, 3);
        limits.low_warning = amount_at(image, field, power, 4);
    } else {
        *limits = NO_LIMITS;
    }
}

/// No limits.
pub const NO_LIMITS: Limits = Limits {
    high_alarm: 0,
    low_alarm: 0,
    high_warning: 0,
    low_warning: 0,
};
