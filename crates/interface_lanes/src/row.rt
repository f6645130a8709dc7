//! The rows of tables.

/// How many lanes the interface with an ID has.
#[derive(Clone, Copy)]
pub struct Row {
    pub id: u8,
    pub count: u8,
}
