// Values of a module's memory, once the pages that are needed are known to be there.
ghost use Rattle.std.specs.Prelude.{◌≡◌, ◌^◌, ◌<◌, ◌≤◌, All, IsTrue};
ghost use Rattle.field_tables.specs.FieldRows.{row_of};
ghost use Rattle.field_tables.specs.RowPlaces.{width_by};
ghost use Rattle.field_tables.specs.Readings as spec;
ghost use Rattle.field_tables.specs.Readings.{LimitsAreWords, IsWord, is_of_bytes};

use crate::field::{Field, Sum, TextField};
use crate::values::value_of;
use crate::{sums, texts};
use arrayvec::ArrayVec;
use paged_memory::Image;

/// What there is for each limit of a monitored value: the limits themselves, or flags that tell whether they are passed.
#[derive(Clone, Copy, Debug, PartialEq, Eq)]
pub struct PerLimit<T> {
    pub high_alarm: T,
    pub low_alarm: T,
    pub high_warning: T,
    pub low_warning: T,
}

/// A value of a field, counted from 1, or 0 if its page is absent.
#[tactic(auto, unfolding(crate::specs::Readings::reading_at))]
pub fn reading_at(image: &Image, field: Field, index: u8) -> i32
    requires first { 1 ≤ index }
    requires last { index ≤ (row_of field).count }
    ensures value { result ≡ spec.reading_at image.now field index }
    ensures word { IsWord result }
{
    value_of(image, field, index).unwrap_or(0) as i32
}

/// The value of a field of one value, or 0 if its page is absent.
pub fn reading(image: &Image, field: Field) -> i32
    requires { 1 ≡ (row_of field).count }
    ensures value { result ≡ spec.reading image.now field }
    ensures word { IsWord result }
{
    reading_at(image, field, 1)
}

/// The values of a field, the first first, or zeros if its page is absent. `N` is how many it has.
pub fn all_readings<const N: usize>(image: &Image, field: Field) -> [i32; N]
    requires { N ≡ (row_of field).count }
    ensures values { result ≡ spec.all_readings image.now field }
    ensures words { All IsWord result }
{
    let mut values = [0; N];
    for (index, value) in values.iter_mut().enumerate() {
        *value = reading_at(image, field, index as u8 + 1);
    }
    values
}

/// The four limits that a field has, in steps of its unit, or zeros if its page is absent.
pub fn limits_of(image: &Image, field: Field) -> PerLimit<i32>
    requires { 4 ≡ (row_of field).count }
    ensures value { result ≡ spec.limits_of image.now field }
    ensures words { LimitsAreWords result }
{
    PerLimit {
        high_alarm: reading_at(image, field, 1),
        low_alarm: reading_at(image, field, 2),
        high_warning: reading_at(image, field, 3),
        low_warning: reading_at(image, field, 4),
    }
}

/// A number in a field of numbers of at most one byte, counted from 1, or 0 if its page is absent.
#[tactic(auto, unfolding(crate::specs::Readings::reading_at))]
pub fn number_at(image: &Image, field: Field, index: u8) -> u8
    requires bytes { IsTrue (is_of_bytes (row_of field)) }
    requires first { 1 ≤ index }
    requires last { index ≤ (row_of field).count }
    ensures value { result ≡ spec.number_at image.now field index }
    ensures fits { result < 2 ^ width_by (row_of field).layout (row_of field).bits }
{
    match value_of(image, field, index) {
        Ok(value) => value.unsigned_abs() as u8,
        Err(_) => 0,
    }
}

/// The number in a field of one number of at most one byte, or 0 if its page is absent.
pub fn number(image: &Image, field: Field) -> u8
    requires bytes { IsTrue (is_of_bytes (row_of field)) }
    requires one { 1 ≡ (row_of field).count }
    ensures value { result ≡ spec.number image.now field }
    ensures fits { result < 2 ^ width_by (row_of field).layout (row_of field).bits }
{
    number_at(image, field, 1)
}

/// The numbers in a field, the first first, or zeros if its page is absent. `N` is how many it has.
pub fn all_numbers<const N: usize>(image: &Image, field: Field) -> [u8; N]
    requires bytes { IsTrue (is_of_bytes (row_of field)) }
    requires count { N ≡ (row_of field).count }
    ensures { result ≡ spec.all_numbers image.now field }
{
    let mut numbers = [0; N];
    for (index, number) in numbers.iter_mut().enumerate() {
        *number = number_at(image, field, index as u8 + 1);
    }
    numbers
}

/// Whether a value of a field is 1, counted from 1; it isn't if its page is absent.
pub fn bit_at(image: &Image, field: Field, index: u8) -> bool
    requires bytes { IsTrue (is_of_bytes (row_of field)) }
    requires first { 1 ≤ index }
    requires last { index ≤ (row_of field).count }
    ensures { result ≡ spec.bit_at image.now field index }
{
    number_at(image, field, index) == 1
}

/// Whether the value of a field of one value is 1; it isn't if its page is absent.
pub fn bit(image: &Image, field: Field) -> bool
    requires bytes { IsTrue (is_of_bytes (row_of field)) }
    requires one { 1 ≡ (row_of field).count }
    ensures { result ≡ spec.bit image.now field }
{
    bit_at(image, field, 1)
}

/// Whether each value of a field is 1, the first first; none is if its page is absent. `N` is how many it has.
pub fn all_bits<const N: usize>(image: &Image, field: Field) -> [bool; N]
    requires bytes { IsTrue (is_of_bytes (row_of field)) }
    requires count { N ≡ (row_of field).count }
    ensures { result ≡ spec.all_bits image.now field }
{
    let mut values = [false; N];
    for (index, value) in values.iter_mut().enumerate() {
        *value = bit_at(image, field, index as u8 + 1);
    }
    values
}

/// The four flags that a field has; none is raised if its page is absent.
pub fn limit_bits(image: &Image, field: Field) -> PerLimit<bool>
    requires bytes { IsTrue (is_of_bytes (row_of field)) }
    requires count { 4 ≡ (row_of field).count }
    ensures { result ≡ spec.limit_bits image.now field }
{
    PerLimit {
        high_alarm: bit_at(image, field, 1),
        low_alarm: bit_at(image, field, 2),
        high_warning: bit_at(image, field, 3),
        low_warning: bit_at(image, field, 4),
    }
}

/// The bytes of a text as they stand, its padding too, or none if its page is absent.
pub fn text(image: &Image, field: TextField) -> ArrayVec<u8, 16>
    ensures { result.items ≡ spec.text image.now field }
{
    match texts::text_field(image, field) {
        Ok(bytes) => bytes,
        Err(_) => ArrayVec::new(),
    }
}

/// Whether a sum is right, which it isn't if its page is absent.
pub fn is_sum_right(image: &Image, sum: Sum) -> bool
    ensures { result ≡ spec.is_sum_right image.now sum }
{
    sums::sum_right(image, sum).unwrap_or(false)
}
