// A line of details as a row: its name, how its fact is had of a field, of which value or of which lanes, and when.
use code_names::Table;
use external_calibration::Monitor;
use field_tables::{Field, TextField};
use report_entries::PrintedUnit;

/// How a fact is had of value i of a field.
#[derive(Clone, Copy)]
pub enum Item<T> {
    /// Whatever memory has.
    Word(T),
    /// The first word if the value is 1, else the second.
    Either(Field, T, T),
    /// Whether the value is 1.
    Yes(Field),
    /// The value as a code, with its name in a table.
    Named(Table, Field),
    /// The names of the bits that are 1; the code of value 1 is given. None says nothing.
    Names(Table, Field, u8),
    /// The value and this number.
    Number(Field, u8),
    Revision(Field),
    /// A major number, and the value after it as the minor one.
    Version(Field),
    /// A text; a blank one says nothing.
    Text(TextField),
    Oui(Field),
    /// In the unit of the field, doubled as often as the second field says.
    Amount(Field, Option<Field>),
    /// So many thousandths of a unit for each step.
    Steps(Field, u16, PrintedUnit),
    /// The same; 0 says nothing.
    StepsIfAny(Field, u16, PrintedUnit),
    /// The same of the value and the next one, which are the higher and the lower byte of a number.
    PairIfAny(Field, u16, PrintedUnit),
    /// Tenths of a unit, times ten to the power of the second field; 0 says nothing.
    TenthsIfAny(Field, Field, PrintedUnit),
    /// Degrees Celsius, in two's complement of eight bits.
    Celsius(Field),
    /// Parts of 32,767 of a whole, in percent.
    Percent(Field),
    /// 1/256 degree Celsius, in two's complement of 16 bits.
    Temperature(Field),
    /// Tenths of a microwatt, in dBm.
    Level(Field),
    /// The same in milliwatts.
    Milliwatts(Field),
    /// What a module of SFF-8472 measures, or a limit of that, calibrated by the host if it asks for that. Nothing if the constants
    /// are refused.
    Measured(Monitor, Field),
    /// The same of a power, in dBm and in milliwatts. Nothing if it isn't a number of 16 bits in tenths of a microwatt.
    MeasuredLevel(Monitor, Field),
    MeasuredMilliwatts(Monitor, Field),
    /// Whether the constants by which the host calibrates it aren't refused.
    Calibrates(Monitor),
    ModuleState(Field),
    PathState(Field),
    ConfigStatus(Field),
    /// The first lane of a data path, if the lane is in one: its Application, and that lane less one.
    FirstLane(Field, Field),
    /// Hundreds of megabaud, or if there are 255 of them, 250 megabaud times the first value of the second field; 0 says nothing.
    BitRate(Field, Field),
    /// The power class of a module of SFF-8636, and its power.
    PowerClass,
    ClassPower,
}

/// Which values of its field a row speaks of.
#[derive(Clone, Copy)]
pub enum Values {
    /// This value, of the module.
    One(u8),
    /// So many, each of a lane.
    Lanes(u8),
}

/// When a row says nothing.
#[derive(Clone, Copy)]
pub enum Case {
    /// If this value of the field is from the first number to the second.
    Within(Field, u8, u8, u8),
    /// If it isn't.
    Outside(Field, u8, u8, u8),
    /// If neither of two values of the field is 1.
    Neither(Field, u8, u8),
    /// If the value isn't 1 and the second field has at least this number.
    LacksSince(Field, u8, Field, u8),
}

/// A row. Words and lists are parameters, so that tables have names in definitions.
#[derive(Clone, Copy)]
pub struct Row<T, I> {
    pub name: T,
    pub item: Item<T>,
    pub values: Values,
    /// Whether only for a module with paged memory, or of SFF-8472 with diagnostics that are read.
    pub paged: bool,
    /// If one of these applies, nothing is said.
    pub cases: I,
}

/// A row of a table of this crate.
pub type Line = Row<&'static str, &'static [Case]>;
