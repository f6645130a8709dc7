use text_lines::{PrintedWords, ToWords};

/// Why a certificate is bad.
#[derive(Clone, Copy, Debug, PartialEq, Eq)]
pub enum Reason {
    /// A path of the plan that the module can't carry.
    PathNotAllowed,
    /// A path that shares a host lane or a media lane with an earlier one.
    LaneTwice,
    /// The weight isn't the plan's.
    WeightWrong,
    /// No entry for the state without decided lanes.
    NoStart,
    /// A decision from an entry's state leads to a state without an entry.
    NotClosed,
    /// An entry's potential is below what a decision weighs and the potential of where it leads.
    TooLow,
    /// The potential of the state without decided lanes isn't the weight.
    StartNotWeight,
    /// A kept path that the module can't carry, or that shares a lane with an earlier kept one.
    KeptNotAdmissible,
    /// A kept path that isn't in the plan.
    KeptMissing,
    /// The certificate is for modules that pair first lanes, and this one does not, or the other way round.
    PairingDiffers,
}

impl ToWords for Reason {
    ghost use Rattle.plan_certificate.specs.FaultWords.{reason_words};

    ghost words = { reason_words };

    ghost most = { 1 };

    fn to_words(&self) -> PrintedWords {
        PrintedWords::of(match self {
            Reason::PathNotAllowed => "VR1",
            Reason::LaneTwice => "VR2",
            Reason::WeightWrong => "VR3",
            Reason::NoStart => "VR4",
            Reason::NotClosed => "VR5",
            Reason::TooLow => "VR6",
            Reason::StartNotWeight => "VR7",
            Reason::KeptNotAdmissible => "VR8",
            Reason::KeptMissing => "VR9",
            Reason::PairingDiffers => "VR10",
        })
    }
}

/// What is wrong with a certificate.
#[derive(Clone, Copy, Debug, PartialEq, Eq)]
pub struct Flaw {
    pub reason: Reason,
    /// The number from 1 of the path, the kept path or the entry, or else 0.
    pub number: usize,
}

/// What a certificate is worth.
#[derive(Clone, Copy, Debug, PartialEq, Eq)]
pub enum Verdict {
    /// The plan is admissible and holds the kept paths, and no admissible plan that does weighs more.
    Good,
    /// The first reason against it, and the number from 1 of the path, the kept path or the entry, or else 0.
    Bad(Reason, usize),
}
