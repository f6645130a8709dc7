// Why there is no report.
ghost use Rattle.std.specs.Prelude.{◌≡◌};
ghost use Rattle.report_api.specs.Answers.{fault_of_report, fault_words};
ghost use Rattle.report_api.specs.declared.fault.Fault.TheVariants as fault;

use paged_memory::ImageFault;
use reports::ReportFault;
use text_lines::{PrintedWords, ToWords};

/// Why there is no report.
#[derive(Clone, Copy, Debug, PartialEq, Eq, Drop)]
pub enum Fault {
    /// An allocation was refused.
    Memory,
    /// The image is no image.
    Image(ImageFault),
    /// There is no such report of it.
    Report(ReportFault),
}

impl ToWords for Fault {
    ghost words = { fault_words };

    ghost most = { 5 };

    fn to_words(&self) -> PrintedWords {
        match self {
            Fault::Memory => PrintedWords::of("memory"),
            Fault::Image(fault) => fault.to_words(),
            Fault::Report(fault) => fault.to_words(),
        }
    }
}

impl From<ImageFault> for Fault {
    ghost from_gives = { λ refused given. given ≡ fault.Image refused };

    fn from(fault: ImageFault) -> Fault {
        Fault::Image(fault)
    }
}

impl From<ReportFault> for Fault {
    ghost from_gives = { λ refused given. given ≡ fault_of_report refused };

    fn from(fault: ReportFault) -> Fault {
        match fault {
            ReportFault::Memory => Fault::Memory,
            _ => Fault::Report(fault),
        }
    }
}
