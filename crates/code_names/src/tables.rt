// The tables, each in a file. A row is a code with its name, or codes that have none and why.
macro_rules! last {
    ($first:literal) => { $first };
    ($first:literal $last:literal) => { $last };
}

macro_rules! name {
    ($text:literal) => { Name::Known($text) };
    ($why:ident) => { Name::$why };
}

macro_rules! rows {
    ($($first:literal $($text:literal)? $(to $last:literal $why:ident)?;)*) => {
        &[$(Row { first: $first, last: last!($first $($last)?), name: name!($($text)? $($why)?) }),*]
    };
}

pub mod active_cables;
pub mod base_t_media;
pub mod connectors;
pub mod durations;
pub mod extended_compliance;
pub mod host_interfaces;
pub mod identifiers;
pub mod infiniband_speeds;
pub mod media_technologies;
pub mod media_types;
pub mod module_faults;
pub mod multi_mode_media;
pub mod output_equalizers;
pub mod passive_copper;
pub mod sff8472_compliance;
pub mod sff8472_encodings;
pub mod sff8472_extended_identifiers;
pub mod sff8472_rate_selects;
pub mod sff8472_revisions;
pub mod sff8636_compliance;
pub mod sff8636_encodings;
pub mod sff8636_rate_selects;
pub mod sff8636_revisions;
pub mod sfp_active_cables;
pub mod sfp_passive_cables;
pub mod single_mode_media;
pub mod squelch_methods;
