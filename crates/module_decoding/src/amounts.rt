// Values of fields in thousandths of the unit that they print in.
ghost use Rattle.std.specs.Prelude.{◌≡◌, ◌≤◌, ◌<◌, ◌^◌, ◌≤ℤ◌, FitsSigned, IsTrue, neg_ℤ, pos};
ghost use Rattle.std.specs.Int.{w64};
ghost use Rattle.module_decoding.specs.Amounts as spec;
ghost use Rattle.module_decoding.specs.Amounts.{is_power, power_fits};
ghost use Rattle.field_tables.specs.FieldRows.{row_of};
ghost use Rattle.field_tables.specs.Readings.{IsWord, is_of_bytes};

use field_tables::{Field, PerLimit, Unit, millis, number, reading_at, row};
use paged_memory::Image;

/// Value `index` of a field in thousandths of its unit, doubled as often as another field says.
#[tactic(auto, unfolding(crate::specs::Amounts::amount_at))]
pub fn amount_at(image: &Image, field: Field, power: Option<Field>, index: u8) -> i64
    requires first { 1 ≤ index }
    requires last { index ≤ (row_of field).count }
    requires power { IsTrue (power_fits power) }
    ensures value { result ≡ spec.amount_at image.now field power index }
    ensures fits { FitsSigned w64 result }
{
    let steps = times(image, reading_at(image, field, index), power);
    millis(i64::from(steps), unit_of(field))
}

fn times(image: &Image, steps: i32, power: Option<Field>) -> i32
    requires steps { IsWord steps }
    requires power { IsTrue (power_fits power) }
    ensures value { result ≡ spec.times image.now steps power }
    ensures low { neg_ℤ (pos 262144) ≤ℤ result }
    ensures high { result ≤ℤ pos 524280 }
{
    match power {
        None => steps,
        Some(field) => doubled(steps, number(image, field)),
    }
}

// As often as the number says.
fn doubled(steps: i32, power: u8) -> i32
    requires steps { IsWord steps }
    requires power { power < 4 }
    ensures value { result ≡ spec.doubled steps power }
    ensures low { neg_ℤ (pos 262144) ≤ℤ result }
    ensures high { result ≤ℤ pos 524280 }
{
    steps * two_to(power)
}

fn two_to(power: u8) -> i32
    requires { power < 4 }
    ensures value { result ≡ pos (2 ^ power) }
    ensures range { (pos 1 ≤ℤ result) × (result ≤ℤ pos 8) }
{
    match power {
        0 => 1,
        1 => 2,
        2 => 4,
        _ => 8,
    }
}

/// The four limits that a field has, in thousandths of its unit, doubled as often as another field says.
pub fn limit_amounts(image: &Image, field: Field, power: Option<Field>) -> PerLimit<i64>
    requires count { 4 ≡ (row_of field).count }
    requires power { IsTrue (power_fits power) }
    ensures { result ≡ spec.limit_amounts image.now field power }
{
    PerLimit {
        high_alarm: amount_at(image, field, power, 1),
        low_alarm: amount_at(image, field, power, 2),
        high_warning: amount_at(image, field, power, 3),
        low_warning: amount_at(image, field, power, 4),
    }
}

/// Tenths of a metre, times ten to the power of the second field, in thousandths of a metre.
pub fn length_in(image: &Image, base: Field, power: Field) -> i64
    requires base { IsTrue (is_of_bytes (row_of base)) }
    requires one { 1 ≡ (row_of base).count }
    requires power { IsTrue (is_power power) }
    ensures value { result ≡ spec.length_in image.now base power }
    ensures fits { FitsSigned w64 result }
{
    i64::from(number(image, base)) * 100 * ten_to(number(image, power))
}

fn ten_to(power: u8) -> i64
    requires { power < 4 }
    ensures value { result ≡ pos (10 ^ power) }
    ensures small { result ≤ℤ pos 1000 }
{
    match power {
        0 => 1,
        1 => 10,
        2 => 100,
        _ => 1000,
    }
}

/// The unit of a field that has one.
pub fn unit_of(field: Field) -> Unit
    ensures { result ≡ spec.unit_of field }
{
    row(field).unit.unwrap_or(Unit::ModulePower)
}
