//! The fault that a text reports.
ghost use Rattle.std.specs.Prelude.{◌≡◌};
ghost use Rattle.command_line.specs.Faults.{fault_of_reported};

use crate::fault::Fault;
use control_sets::ProvisionFault;
use plan_certificate::Path;
use reports::ReportFault;

/// A fault that comes beside a text.
#[derive(Clone, Copy, Debug, PartialEq, Eq)]
pub enum ReportedFault {
    /// The procedure that the text reports ended with it; and the first kept path that was not active before it.
    Procedure(ProvisionFault, Option<Path>),
    /// A report can't be made, which is among the metrics.
    Metrics(ReportFault),
}

impl ReportedFault {
    /// The same as an answer alone.
    pub fn fault(self) -> Fault
        ensures { result ≡ fault_of_reported self }
    {
        match self {
            ReportedFault::Procedure(fault, _) => Fault::Provision(fault),
            ReportedFault::Metrics(fault) => Fault::from(fault),
        }
    }
}
