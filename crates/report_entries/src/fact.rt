// Single facts, each under a key of its own.
use crate::printed_unit::PrintedUnit;
use arrayvec::ArrayVec;
use field_tables::LaneSet;

/// What a fact is about, which its key says.
#[derive(Clone, Copy)]
pub enum Place {
    Module,
    Lane(u8),
    App(u8),
}

/// What is said about it.
#[derive(Drop)]
pub enum Fact {
    /// A word of the report's own.
    Word(&'static str),
    Yes(bool),
    Number(u16),
    /// A code of the standard and its name.
    Named(u8, &'static str),
    /// The names that apply.
    Names(ArrayVec<&'static str, 8>),
    Revision(u8),
    /// A major and a minor number.
    Version(u8, u8),
    /// The bytes of a text field.
    Text(ArrayVec<u8, 16>),
    Oui([u8; 3]),
    /// Thousandths of a unit.
    Amount(i64, PrintedUnit),
    /// Tenths of a microwatt, to be said in dBm.
    Level(u16),
    /// The same, to be said in milliwatts.
    Milliwatts(u16),
    LaneSet(LaneSet),
    /// The state of the module, by its code.
    ModuleState(u8),
    /// The state of a data path, by its code.
    PathState(u8),
    /// The status of a configuration, by its code.
    ConfigStatus(u8),
}
