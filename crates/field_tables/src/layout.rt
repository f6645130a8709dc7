use crate::units::Unit;
use bus_model::Dev;
use paged_memory::Half;

/// Which bits a value takes, from the byte where it begins.
#[derive(Clone, Copy, Debug, PartialEq, Eq)]
pub enum Part {
    /// The whole byte.
    Byte,
    /// This byte and the next one, the most significant byte first.
    Word,
    /// Some bits of the byte, bit 7 the most significant.
    Range { high: u8, low: u8 },
}

impl Part {
    ghost use Rattle.std.specs.Prelude.{◌≡◌};
    ghost use Rattle.field_tables.specs.Parts.{high_of, low_of};

    /// The number of the lowest bit.
    pub(crate) fn low(self) -> usize
        ensures { result ≡ low_of self }
    {
        match self {
            Part::Byte | Part::Word => 0,
            Part::Range { low, .. } => usize::from(low),
        }
    }

    /// The number of the highest bit.
    pub(crate) fn high(self) -> usize
        ensures { result ≡ high_of self }
    {
        match self {
            Part::Byte => 7,
            Part::Word => 15,
            Part::Range { high, .. } => usize::from(high),
        }
    }
}

/// Where the values of a field stand, counted from 1.
#[derive(Clone, Copy, Debug, PartialEq, Eq)]
pub enum Layout {
    /// There is one value.
    Single,
    /// Each value stands so many bytes after the one before.
    Every(u8),
    /// Each value is one bit, the next one up from the value before.
    Bits,
    /// Each value is one bit, the next one down from the value before.
    Down,
    /// Two values to a byte, the first in its lower nibble.
    Nibbles,
    /// Two values to a byte: the first in bit 4 and this number, the second in the bit of this number.
    Quad(u8),
}

/// How the bits of a value count.
#[derive(Clone, Copy, Debug, PartialEq, Eq)]
pub enum Sign {
    Unsigned,
    /// 16 bits in two's complement.
    Signed,
}

/// A field's row of the memory map.
#[derive(Clone, Copy, Debug, PartialEq, Eq)]
pub struct Row {
    pub dev: Dev,
    pub half: Half,
    /// 0 in a lower half.
    pub page: u8,
    /// The address of the first value: 0 to 127 in a lower half, 128 to 255 in an upper half.
    pub offset: u8,
    pub bits: Part,
    pub layout: Layout,
    /// How many values the field has.
    pub count: u8,
    pub sign: Sign,
    pub unit: Option<Unit>,
}
