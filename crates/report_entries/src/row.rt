// A line of a report as a row: its name, what it shows of a module's memory, and when.
use field_tables::{Field, Sum, TextField};

/// What is shown of a module's memory, and how.
#[derive(Clone, Copy)]
pub enum Source<T> {
    Word(T),
    /// The first word if the bit is 1, else the second.
    Either(Field, T, T),
    /// A code of the standard.
    Code(Field),
    Revision(Field),
    /// The number plus one.
    Next(Field),
    Text(TextField),
    Oui(Field),
    /// Whether a sum is right.
    Right(Sum),
    /// In the unit of the field.
    Amount(Field),
    /// Tenths of a metre, times ten to the power of the second field.
    Length(Field, Field),
    /// Of each lane, times two to the power of the second field if there is one.
    Lanes(Field, Option<Field>),
    /// Of each limit, counted as those of lanes are.
    Limits(Field, Option<Field>),
    /// The state of the module.
    State(Field),
    /// For each of eight lanes: the state of its data path, and by the second field the status of its configuration.
    LaneStates(Field, Field),
}

/// What stands in place of the source if a field has this number: nothing, or this word.
#[derive(Clone, Copy)]
pub enum Instead<T> {
    Nothing(Field, u8),
    Word(Field, u8, T),
}

/// A line of a report. Words and lists are parameters, so that tables have names in definitions.
#[derive(Clone, Copy)]
pub struct Row<T, I> {
    pub name: T,
    pub source: Source<T>,
    /// Whether only for a module with paged memory.
    pub paged: bool,
    /// The first that applies stands in place of the source.
    pub instead: I,
}

/// A row of a table of this crate.
pub type Line = Row<&'static str, &'static [Instead<&'static str>]>;
