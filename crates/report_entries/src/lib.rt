//! The entries of a report, and how they are shown as text and as JSON. The reports are in the crate above.
#![tactic(auto)]

mod banks;
mod entry;
mod entry_json;
mod entry_text;
mod fact;
mod fact_json;
mod fact_text;
mod flag;
mod flag_rows;
pub mod json_document;
mod json_writer;
mod monitor;
mod printed_unit;
mod quantity;
mod read_rows;
mod report_text;
mod row;
mod shown;
mod shown_app;
mod shown_fact;
mod shown_state;

pub use banks::further_banks;
pub use entry::{Content, Entry, LaneState, add_entry};
pub use entry_json::{json, put_count, put_entries, put_shown};
pub use entry_text::{push_entries, text};
pub use fact::{Fact, Place};
pub use flag::{Condition, Flag, FlagName, LimitKind};
pub use flag_rows::{FlagPlace, FlagRow, all_flags, raised_flags};
pub use json_writer::JsonWriter;
pub use printed_unit::PrintedUnit;
pub use quantity::Quantity;
pub use read_rows::entries_of_rows;
pub use report_text::ReportText;
pub use row::{Instead, Line, Row, Source};
pub use shown::{Code, Revision, TextIn};
pub use shown_state::{ModuleStateCode, PathStateCode, StatusCode};
