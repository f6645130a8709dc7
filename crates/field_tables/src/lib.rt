//! What the bytes of a module's memory mean: fields, text fields and sums.
#![tactic(auto)]

mod bits;
mod fault;
mod field;
pub mod fields;
mod halves;
mod lane_number;
mod lane_set;
mod laws;
mod layout;
mod readings;
mod registers;
mod sff_fault;
mod spans;
mod sums;
mod table;
mod texts;
mod units;
mod values;

pub use fault::FieldFault;
pub use field::{
    CmisSum, CmisText, Field, Register, Sff8472Sum, Sff8636Sum, SffText, Sum, TextField,
};
pub use lane_number::LaneNumber;
pub use lane_set::LaneSet;
pub use laws::{each_entry_is_within_its_half, no_bit_means_two_things};
pub use layout::{Layout, Part, Row, Sign};
pub use readings::{
    PerLimit, all_bits, all_numbers, all_readings, bit, bit_at, is_sum_right, limit_bits,
    limits_of, number, number_at, reading, reading_at, text,
};
pub use registers::register;
pub use sff_fault::SffFault;
pub use spans::Span;
pub use sums::sum_right;
pub use table::cmis::CmisField;
pub use table::row;
pub use texts::text_field;
pub use units::{Unit, millis};
pub use values::{is_set, lane, number_in_byte, value};
