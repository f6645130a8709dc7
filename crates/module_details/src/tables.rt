// How tables of rows are written: a name, how the fact is had of a field, of which value or of which lanes, if only for paged
// memory, and when nothing is said.
macro_rules! item {
    ($of:ident Word $word:literal) => { Item::Word($word) };
    ($of:ident Either $field:ident $one:literal $other:literal) => { Item::Either(field!($of $field), $one, $other) };
    ($of:ident Named $table:ident $field:ident) => { Item::Named(Table::$table, field!($of $field)) };
    ($of:ident Names $table:ident $field:ident $first:literal) => { Item::Names(Table::$table, field!($of $field), $first) };
    ($of:ident Number $field:ident $more:literal) => { Item::Number(field!($of $field), $more) };
    ($of:ident Text $text:ident) => { Item::Text(text_of!($of $text)) };
    ($of:ident Amount $field:ident) => { Item::Amount(field!($of $field), None) };
    ($of:ident Amount $field:ident $power:ident) => { Item::Amount(field!($of $field), Some(field!($of $power))) };
    ($of:ident TenthsIfAny $base:ident $power:ident $unit:ident) => { Item::TenthsIfAny(field!($of $base), field!($of $power), PrintedUnit::$unit) };
    ($of:ident Calibrates $monitor:ident) => { Item::Calibrates(Monitor::$monitor) };
    ($of:ident Measured $monitor:ident $field:ident) => { Item::Measured(Monitor::$monitor, field!($of $field)) };
    ($of:ident MeasuredLevel $monitor:ident $field:ident) => { Item::MeasuredLevel(Monitor::$monitor, field!($of $field)) };
    ($of:ident MeasuredMilliwatts $monitor:ident $field:ident) => { Item::MeasuredMilliwatts(Monitor::$monitor, field!($of $field)) };
    ($of:ident $kind:ident $field:ident $step:literal $unit:ident) => { Item::$kind(field!($of $field), $step, PrintedUnit::$unit) };
    ($of:ident $kind:ident $field:ident $other:ident) => { Item::$kind(field!($of $field), field!($of $other)) };
    ($of:ident $kind:ident $field:ident) => { Item::$kind(field!($of $field)) };
    ($of:ident $kind:ident) => { Item::$kind };
}

macro_rules! values {
    () => { Values::One(1) };
    (value $index:literal) => { Values::One($index) };
    (lanes $count:literal) => { Values::Lanes($count) };
}

macro_rules! is_paged {
    () => { false };
    (paged) => { true };
}

macro_rules! case {
    ($of:ident Cmis3) => { Case::Within(field!($of Revision), 1, 0x30, 0x3F) };
    ($of:ident LacksSince $field:ident $index:literal $since:ident $first:literal) => { Case::LacksSince(field!($of $field), $index, field!($of $since), $first) };
    ($of:ident $kind:ident $field:ident $($number:literal)*) => { Case::$kind(field!($of $field), $($number),*) };
}

macro_rules! detail_table {
    ($of:ident; $($name:literal: [$($item:tt)*] $(($($values:tt)*))? $($paged:ident)? $([$($case:tt)*])*;)*) => {
        &[$(Row {
            name: $name,
            item: item!($of $($item)*),
            values: values!($($($values)*)?),
            paged: is_paged!($($paged)?),
            cases: &[$(case!($of $($case)*)),*],
        }),*]
    };
}

pub mod cmis_table;
pub mod qsfp_table;
pub mod sfp_table;
