//! What an SFF-8472 module measures, if the host has to calibrate it: the module gives bare readings, and the constants by which
//! they become amounts. Exact until the last step, which rounds down to a thousandth of the printed unit.
#![tactic(auto)]

mod binary32;
mod calibration;
mod constants;
mod exact_sum;
mod fault;
mod laws;
mod line;
mod monitor;

pub use constants::{Constants, Line, Polynomial};
pub use fault::CalibrationFault;
pub use laws::{neutral_constants_change_nothing, thousandths_are_the_greatest};
pub use monitor::Monitor;
