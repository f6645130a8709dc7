// The tables, each in a file. A row is an ID and its count; a comment has the name that code_names gives the ID.
macro_rules! rows {
    ($($id:literal $count:literal;)*) => {
        &[$(Row { id: $id, count: $count }),*]
    };
}

pub mod host_interfaces;
pub mod multi_mode_media;
pub mod single_mode_media;
