//! Modules for tests: three images as texts, how to change their bytes, and a device that lies. No program uses this crate.
#![tactic(auto)]

mod changes;
mod lying_device;
mod texts;

pub use changes::{only, with, with_run};
pub use lying_device::LyingDevice;
pub use texts::{QSFP_DD, QSFP28, SFP};
