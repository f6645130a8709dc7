ghost use Rattle.std.specs.Prelude.{◌≡◌, ◌+◌, ◌≤◌};
ghost use Rattle.field_tables.specs.RowLines as spec;
ghost use Rattle.field_tables.specs.Registers.{first_byte};
ghost use Rattle.field_tables.specs.FieldRows.{row_of};

use crate::field::{Field, Register};
use crate::layout::{Layout, Part, Row, Sign};
use crate::registers::register;

macro_rules! part {
    (byte) => { $crate::layout::Part::Byte };
    (word) => { $crate::layout::Part::Word };
    ($high:literal - $low:literal) => { $crate::layout::Part::Range { high: $high, low: $low } };
}

macro_rules! unit {
    () => { None };
    ($unit:ident) => { Some($crate::units::Unit::$unit) };
}

// Each arm borrows a constant: if it built its row member by member, the proof would take minutes.
macro_rules! rows {
    ($fields:ident $field:ident;
        parts { $($part:ident: $register:ident $byte:literal [$($part_bits:tt)*], $part_layout:ident $(($part_number:literal))?, $part_count:literal;)* }
        $($name:ident: $dev:ident $half:ident $page:literal, $offset:literal [$($bits:tt)*], $layout:ident $(($number:literal))?, $count:literal, $sign:ident $($unit:ident)?;)*) => {
        match $field {
            $($fields::$part => {
                return $crate::table::row_in(
                    $crate::field::Register::$register,
                    $byte,
                    part!($($part_bits)*),
                    $crate::layout::Layout::$part_layout $(($part_number))?,
                    $part_count,
                );
            })*
            $($fields::$name => &$crate::layout::Row {
                dev: bus_model::Dev::$dev,
                half: paged_memory::Half::$half,
                page: $page,
                offset: $offset,
                bits: part!($($bits)*),
                layout: $crate::layout::Layout::$layout $(($number))?,
                count: $count,
                sign: $crate::layout::Sign::$sign,
                unit: unit!($($unit)?),
            },)*
        }
    };
}

pub mod cmis;
pub mod sff8472;
pub mod sff8636;

/// The row of a field in the memory map of its standard.
pub fn row(field: Field) -> Row
    ensures { result ≡ row_of field }
{
    match field {
        Field::Cmis(field) => cmis::row(field),
        Field::Sff8636(field) => sff8636::row(field),
        Field::Sff8472(field) => sff8472::row(field),
    }
}

/// The row of numbers that stand in a register, from one of its bytes on.
pub fn row_in(within: Register, byte: u8, bits: Part, layout: Layout, count: u8) -> Row
    requires { first_byte within + byte ≤ 255 }
    ensures { result ≡ spec.part within byte bits layout count }
{
    let span = register(within);
    Row {
        dev: span.dev,
        half: span.half,
        page: span.page,
        offset: span.first + byte,
        bits,
        layout,
        count,
        sign: Sign::Unsigned,
        unit: None,
    }
}
