//! What a command answers.

use crate::remark::Warnings;
use crate::reported_fault::ReportedFault;

/// A text, the fault that it reports, if there is one, and what is odd about its plan.
#[derive(Drop)]
pub struct CommandOutput {
    pub text: Vec<u8>,
    pub fault: Option<ReportedFault>,
    pub warnings: Warnings,
}
