//! The constants, as they stand in a module's memory.
ghost use Rattle.std.specs.Prelude.{◌≡◌, ◌≤◌, unsigned_abs};
ghost use Rattle.field_tables.specs.Readings.{IsWord, reading_at};
ghost use Rattle.field_tables.specs.declared.field.Field.TheVariants as fields;
ghost use Rattle.field_tables.specs.declared.table.sff8472.Sff8472Field.TheVariants as sff8472;
ghost use Rattle.external_calibration.specs.Constants as spec;

use field_tables::{field, lane, reading_at};
use paged_memory::Image;

/// What makes a reading an amount of so many steps: it is multiplied by the slope, and the offset is added.
#[derive(Clone, Copy, Debug, PartialEq, Eq)]
pub struct Line {
    /// In 256ths.
    pub slope: u16,
    pub offset: i16,
}

/// The constants of received power, floats of 32 bits: each is multiplied by the power of the reading that it is named after, and
/// these are added.
#[derive(Clone, Copy, Debug, PartialEq, Eq)]
pub struct Polynomial {
    pub fourth: u32,
    pub third: u32,
    pub second: u32,
    pub first: u32,
    pub zeroth: u32,
}

/// The constants of a module.
#[derive(Clone, Copy, Debug, PartialEq, Eq)]
pub struct Constants {
    pub rx_power: Polynomial,
    pub tx_bias: Line,
    pub tx_power: Line,
    pub temperature: Line,
    pub vcc: Line,
}

impl Constants {
    /// Those of a module of SFF-8472, or zeros if the half that they stand in is absent.
    #[tactic(auto, unfolding(crate::specs::Constants::constants_of))]
    pub fn of(image: &Image) -> Constants
        ensures { result ≡ spec.constants_of image.now }
    {
        Constants {
            rx_power: polynomial_of(image),
            tx_bias: line_of(image, 1),
            tx_power: line_of(image, 2),
            temperature: line_of(image, 3),
            vcc: line_of(image, 4),
        }
    }
}

fn polynomial_of(image: &Image) -> Polynomial
    ensures { result ≡ spec.polynomial_of image.now }
{
    Polynomial {
        fourth: coefficient(image, 1),
        third: coefficient(image, 3),
        second: coefficient(image, 5),
        first: coefficient(image, 7),
        zeroth: coefficient(image, 9),
    }
}

// The float whose higher word is the value of this number, and whose lower word is the next value.
fn coefficient(image: &Image, index: u8) -> u32
    requires first { 1 ≤ index }
    requires last { index ≤ 9 }
    ensures { result ≡ spec.coefficient image.now index }
{
    let high = word(reading_at(image, field!(Sff8472 RxPowerCoefficients), index));
    let low = word(reading_at(image, field!(Sff8472 RxPowerCoefficients), index + 1));
    u32::from(high) * 65_536 + u32::from(low)
}

fn word(reading: i32) -> u16
    requires { IsWord reading }
    ensures { result ≡ unsigned_abs reading }
{
    reading.unsigned_abs() as u16
}

fn line_of(image: &Image, index: u8) -> Line
    requires first { 1 ≤ index }
    requires last { index ≤ 4 }
    ensures { result ≡ spec.line_of image.now index }
{
    Line {
        slope: word(reading_at(image, field!(Sff8472 Slopes), index)),
        offset: offset(image, index),
    }
}

#[tactic(auto, unfolding(field_tables::specs::Readings::reading_at))]
fn offset(image: &Image, index: u8) -> i16
    requires first { 1 ≤ index }
    requires last { index ≤ 4 }
    ensures { result ≡ reading_at image.now (fields.Sff8472 sff8472.Offsets) index }
{
    match lane::<4>(image, field!(Sff8472 Offsets), index) {
        Ok(offset) => offset as i16,
        Err(_) => 0,
    }
}
