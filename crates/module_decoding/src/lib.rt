//! What decoders of modules of all families share: which family a module is of, the pages that they need, the fields that each
//! family has, amounts in thousandths, and what is shown of texts.
#![tactic(auto)]

mod amounts;
mod cmis_pages;
mod module_family;
mod padded_texts;
mod report;
mod shared;

pub use amounts::{amount_at, length_in, limit_amounts, unit_of};
pub use cmis_pages::{absent_detail_page, is_flat};
pub use module_family::{ModuleFault, detail_family_of, family_of};
pub use padded_texts::{shown_byte, trimmed};
pub use report::{DecodeFault, Report, family_with};
pub use shared::{SharedFields, shared_fields};
