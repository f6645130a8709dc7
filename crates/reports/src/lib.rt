//! What the program reports of a module, as text and as JSON.
#![tactic(auto)]

mod cmis_apps;
mod detail_report;
mod family;
mod fault;
mod fetching;
pub mod laws;
mod report;
mod tables;

pub use cmis_apps::{apps, apps_json};
pub use detail_report::details_entries;
pub use family::detail_family_of;
pub use fault::ReportFault;
pub use fetching::{fetch_image, put_page};
pub use report::{
    all_lanes_flag_states, all_lanes_flags, all_lanes_monitors, flags, flags_json, inventory,
    inventory_entries, inventory_json, is_flat_in, monitors, monitors_json,
};
pub use tables::inventory_lines;
