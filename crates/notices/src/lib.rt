//! What a person is told besides the answers: a sentence for each fault, a text for each status of the library for C, and the version.
#![tactic(auto)]

mod laws;
mod numbers;
mod table;
mod version;

pub use laws::each_number_has_a_text;
pub use numbers::{
    Numbered, procedure_fault_text, procedure_faults, reason_text, reasons, status_text, statuses,
};
pub use table::{Sentence, sentence_by_code, sentences};
pub use version::{VERSION, VERSION_WITH_TEXTS, version_text};
