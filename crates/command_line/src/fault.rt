//! What the program answers in place of a text: why it refuses its input, or that a certificate is bad.
ghost use Rattle.std.specs.Prelude.{◌≡◌};
ghost use Rattle.command_line.specs.Faults.{fault_of_report, fault_of_weights, fault_words, status_of, word_of};
ghost use Rattle.command_line.specs.FaultTexts.{is_of_reading};
ghost use Rattle.command_line.specs.declared.fault.Fault.TheVariants as fault;

use crate::status::Status;
use applications::{AdvertFault, WeightsFault};
use bus_model::ScriptFault;
use control_sets::ProvisionFault;
use paged_memory::ImageFault;
use plan_certificate::{CertificateFault, KeptFault, Reason};
use reports::ReportFault;
use sim_module::SimFault;
use std::alloc::AllocError;
use text_lines::{PrintedWords, ToWords};

/// Why no text, or no more of it, is the answer to the input.
#[derive(Clone, Copy, Debug, PartialEq, Eq)]
pub enum Fault {
    /// An allocation was refused.
    Memory,
    /// A read failed.
    Io,
    /// The input has more bytes than the limit.
    TooLong,
    /// The input has another number of parts than the command takes.
    Parts(usize),
    /// The image is no image.
    Image(ImageFault),
    /// There is no report of the image.
    Report(ReportFault),
    /// The module does not say what it advertises.
    Advert(AdvertFault),
    /// The weights are none.
    Weights(WeightsFault),
    /// The text names no kept paths, or the module can't carry them.
    Kept(KeptFault),
    /// The certificate is none.
    Certificate(CertificateFault),
    /// The certificate is bad: the reason, and the number of the path or the entry, or else 0.
    Bad(Reason, usize),
    /// The script is none.
    Script(ScriptFault),
    /// The image is no simulated module.
    Module(SimFault),
    /// The plan was not provisioned, or not activated.
    Provision(ProvisionFault),
}

impl Fault {
    /// How the program ends.
    pub fn status(self) -> Status
        ensures { result ≡ status_of self }
    {
        match self {
            Fault::Memory => Status::Memory,
            Fault::Io => Status::ReadOrWrite,
            Fault::Bad(..) => Status::BadCertificate,
            Fault::Provision(_) => Status::NotProvisioned,
            _ => Status::Refused,
        }
    }

    /// Whether it is a fault of reading an input, or out of memory.
    pub fn is_of_reading(self) -> bool
        ensures { result ≡ is_of_reading self }
    {
        match self {
            Fault::Io | Fault::TooLong | Fault::Memory => true,
            _ => false,
        }
    }

    /// The word that begins the fault's line.
    pub fn word(self) -> &'static str
        ensures { result.now ≡ word_of self }
    {
        match self {
            Fault::Bad(..) => "bad",
            _ => "fault",
        }
    }
}

impl ToWords for Fault {
    ghost words = { fault_words };

    ghost most = { 6 };

    fn to_words(&self) -> PrintedWords {
        match self {
            Fault::Memory => PrintedWords::of("memory"),
            Fault::Io => PrintedWords::of("IO"),
            Fault::TooLong => PrintedWords::of("PT2"),
            Fault::Parts(count) => PrintedWords::of("PT1").and(count),
            Fault::Image(fault) => fault.to_words(),
            Fault::Report(fault) => fault.to_words(),
            Fault::Advert(fault) => fault.to_words(),
            Fault::Weights(fault) => fault.to_words(),
            Fault::Kept(fault) => fault.to_words(),
            Fault::Certificate(fault) => fault.to_words(),
            Fault::Bad(reason, number) => reason.to_words().and(number),
            Fault::Script(fault) => fault.to_words(),
            Fault::Module(fault) => fault.to_words(),
            Fault::Provision(fault) => fault.to_words(),
        }
    }
}

impl From<AllocError> for Fault {
    ghost from_gives = { λ _ given. given ≡ fault.Memory };

    fn from(_error: AllocError) -> Fault {
        Fault::Memory
    }
}

impl From<ImageFault> for Fault {
    ghost from_gives = { λ refused given. given ≡ fault.Image refused };

    fn from(fault: ImageFault) -> Fault {
        Fault::Image(fault)
    }
}

impl From<ReportFault> for Fault {
    ghost from_gives = { λ refused given. given ≡ fault_of_report refused };

    fn from(fault: ReportFault) -> Fault {
        match fault {
            ReportFault::Memory => Fault::Memory,
            _ => Fault::Report(fault),
        }
    }
}

impl From<AdvertFault> for Fault {
    ghost from_gives = { λ refused given. given ≡ fault.Advert refused };

    fn from(fault: AdvertFault) -> Fault {
        Fault::Advert(fault)
    }
}

impl From<WeightsFault> for Fault {
    ghost from_gives = { λ refused given. given ≡ fault_of_weights refused };

    fn from(fault: WeightsFault) -> Fault {
        match fault {
            WeightsFault::Memory => Fault::Memory,
            _ => Fault::Weights(fault),
        }
    }
}

impl From<KeptFault> for Fault {
    ghost from_gives = { λ refused given. given ≡ fault.Kept refused };

    fn from(fault: KeptFault) -> Fault {
        Fault::Kept(fault)
    }
}

impl From<ScriptFault> for Fault {
    ghost from_gives = { λ refused given. given ≡ fault.Script refused };

    fn from(fault: ScriptFault) -> Fault {
        Fault::Script(fault)
    }
}

impl From<SimFault> for Fault {
    ghost from_gives = { λ refused given. given ≡ fault.Module refused };

    fn from(fault: SimFault) -> Fault {
        Fault::Module(fault)
    }
}
