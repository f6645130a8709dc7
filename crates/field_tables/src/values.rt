ghost use Rattle.std.specs.Prelude.{◌≡◌, ◌≤◌, All, IfOk, IsTrue, ok_or};
ghost use Rattle.field_tables.specs.Halves.{absent, byte_in};
ghost use Rattle.field_tables.specs.FieldRows.{row_of};
ghost use Rattle.field_tables.specs.FieldValues as spec;
ghost use Rattle.field_tables.specs.FieldValues.{field_key, row_value, values_of};
ghost use Rattle.field_tables.specs.Layouts as layouts;
ghost use Rattle.field_tables.specs.Parts as parts;
ghost use Rattle.field_tables.specs.Numbers.{number_in};
ghost use Rattle.field_tables.specs.RowPlaces.{IsInRange, place_of};
ghost use Rattle.field_tables.specs.RowFits.{part_inside, row_fits};

use crate::bits::{bits_at, word_at};
use crate::fault::FieldFault;
use crate::field::Field;
use crate::halves::{half_of, key_of};
use crate::layout::{Layout, Part, Row, Sign};
use crate::table::row;
use paged_memory::{Image, PAGE_LEN};

/// The values of a field, the first first. `N` is how many it has.
pub fn value<const N: usize>(image: &Image, field: Field) -> Result<[i64; N], FieldFault>
    requires { N ≡ (row_of field).count }
    ensures values { result ≡ ok_or (values_of image.now field) (absent (field_key field)) }
    ensures range { IfOk result (λ values. All (IsInRange (row_of field)) values) }
{
    let row = row(field);
    let page = half_of(image, key_of(row.dev, row.half, row.page))?;
    let mut values = [0; N];
    for (index, value) in values.iter_mut().enumerate() {
        *value = value_at(page.bytes(), row, index + 1);
    }
    Ok(values)
}

/// The value of a field that is given a number, from 1 to `N`. `N` is how many the field has.
pub fn lane<const N: usize>(image: &Image, field: Field, lane: u8) -> Result<i64, FieldFault>
    requires count { N ≡ (row_of field).count }
    requires first { 1 ≤ lane }
    requires last { lane ≤ N }
    ensures value { result ≡ ok_or (spec.value_of image.now field lane) (absent (field_key field)) }
    ensures range { IfOk result (IsInRange (row_of field)) }
{
    value_of(image, field, lane)
}

/// The value of a field that is given a number, from 1 to how many the field has.
pub fn value_of(image: &Image, field: Field, index: u8) -> Result<i64, FieldFault>
    requires first { 1 ≤ index }
    requires last { index ≤ (row_of field).count }
    ensures value { result ≡ ok_or (spec.value_of image.now field index) (absent (field_key field)) }
    ensures range { IfOk result (IsInRange (row_of field)) }
{
    let row = row(field);
    let page = half_of(image, key_of(row.dev, row.half, row.page))?;
    Ok(value_at(page.bytes(), row, usize::from(index)))
}

/// The number of a field that is some bits of one byte, in that byte.
pub fn number_in_byte(field: Field, byte: u8) -> u8
    requires { IsTrue (part_inside (row_of field).bits 0) }
    ensures { result ≡ spec.number_in_byte field byte }
{
    match row(field).bits {
        Part::Byte | Part::Word => byte,
        Part::Range { high, low } => {
            let width = high + 1 - low;
            ((u16::from(byte) >> low) % (1 << width)) as u8
        }
    }
}

/// Whether a field of one bit is 1 in its byte.
pub fn is_set(field: Field, byte: u8) -> bool
    requires { IsTrue (part_inside (row_of field).bits 0) }
    ensures { result ≡ spec.is_set field byte }
{
    number_in_byte(field, byte) == 1
}

fn value_at(bytes: &[u8; PAGE_LEN], row: Row, lane: usize) -> i64
    requires fits { IsTrue (row_fits row) }
    requires first { 1 ≤ lane }
    requires last { lane ≤ row.count }
    ensures value { result ≡ row_value bytes.now row lane }
    ensures range { IsInRange row result }
{
    let number = number_at(bytes, row, lane);
    match row.sign {
        Sign::Unsigned => i64::from(number),
        Sign::Signed => i64::from(number.cast_signed()),
    }
}

fn number_at(bytes: &[u8; PAGE_LEN], row: Row, lane: usize) -> u16
    requires fits { IsTrue (row_fits row) }
    requires first { 1 ≤ lane }
    requires last { lane ≤ row.count }
    ensures { result ≡ number_in (byte_in bytes.now) (place_of row lane) }
{
    let address = usize::from(row.offset);
    let before = lane - 1;
    match row.layout {
        Layout::Single => part_at(bytes, row.bits, address),
        Layout::Every(step) => part_at(bytes, row.bits, address + usize::from(step) * before),
        Layout::Bits => bits_at(bytes, address, row.bits.low() + before, 1),
        Layout::Down => bits_at(bytes, address, row.bits.high() - before, 1),
        Layout::Nibbles => bits_at(bytes, address + before / 2, in_turn(lane, 0, 4), 4),
        Layout::Quad(bit) => {
            let bit = usize::from(bit);
            bits_at(bytes, address + before / 2, in_turn(lane, 4 + bit, bit), 1)
        }
    }
}

/// The first for odd lanes, the second for even ones.
fn in_turn(lane: usize, odd: usize, even: usize) -> usize
    ensures { result ≡ layouts.in_turn lane odd even }
{
    if lane % 2 == 1 { odd } else { even }
}

/// The bits of a value that begins at an address.
fn part_at(bytes: &[u8; PAGE_LEN], part: Part, address: usize) -> u16
    requires { IsTrue (part_inside part address) }
    ensures { result ≡ number_in (byte_in bytes.now) (parts.part_at part address) }
{
    match part {
        Part::Byte => bits_at(bytes, address, 0, 8),
        Part::Word => word_at(bytes, address),
        Part::Range { high, low } => {
            let low = usize::from(low);
            bits_at(bytes, address, low, usize::from(high) + 1 - low)
        }
    }
}
