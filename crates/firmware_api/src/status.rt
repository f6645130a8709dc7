ghost use Rattle.std.specs.Prelude.{◌≡◌, ◌≢◌};
ghost use Rattle.firmware_api.specs.Statuses.{advert_status, certificate_status, decode_status, done, module_status, settings_status, sff_status, start_status, status_of, weights_status};

use applications::{AdvertFault, WeightLinesFault};
use field_tables::SffFault;
use lane_controls::SettingFault;
use module_decoding::{DecodeFault, ModuleFault};
use plan_certificate::CertificateFault;
use saved_lanes::settings::SettingsRefusal;
use sim_module::SimFault;

/// What a call answers if it did what it is for.
pub const DONE: u32 = 0;

// The numbers of refusals that no fault is the cause of.
pub const TOO_MANY_HALVES: u32 = 1;

pub const NO_PLACE: u32 = 2;

pub const NO_TEXT: u32 = 3;

pub const TOO_SMALL: u32 = 4;

pub const NO_CONVERSATION: u32 = 31;

pub const ENDED: u32 = 32;

pub const NOT_ENDED: u32 = 33;

pub const NO_REPLY: u32 = 34;

pub const TOO_FEW_BYTES: u32 = 36;

pub const TOO_MANY_KEPT: u32 = 42;

pub const KEPT_NOT_ADMISSIBLE: u32 = 43;

pub const NO_MODULE: u32 = 61;

pub const NO_RANGE: u32 = 62;

pub const NOT_TAKEN: u32 = 63;

/// Why a call does nothing.
#[derive(Clone, Copy)]
pub enum Refusal {
    /// There are more halves than an image holds.
    TooManyHalves,
    /// The numbers of a half don't say where it stands.
    NoPlace,
    /// There is no text for this number.
    NoText,
    /// The buffer is too small for the text.
    TooSmall,
    /// The module doesn't say what it advertises.
    Advert(AdvertFault),
    /// The text is no certificate.
    Certificate(CertificateFault),
    /// There are more kept paths than a plan has.
    TooManyKept,
    /// A kept path isn't allowed, or shares a lane with an earlier one.
    KeptNotAdmissible,
    /// The numbers are not those of a conversation.
    NoConversation,
    /// The conversation has ended.
    Ended,
    /// The conversation has not ended.
    NotEnded,
    /// The operation that is to be made has no such reply.
    NoReply,
    /// The bus fetches too few bytes at once.
    TooFewBytes,
    /// The halves and the delays make no simulated module.
    NoStart(SimFault),
    /// The numbers are not those of a simulated module.
    NoModule,
    /// There is no such device, or there are no bytes, too many of them, or they are not in one half.
    NoRange,
    /// The simulated module refuses.
    NotTaken,
    /// The module is not decoded, or lacks a half that is needed.
    Decode(DecodeFault),
    /// The lines say no weights.
    Weights(WeightLinesFault),
    /// A change of settings isn't allowed.
    Settings(SettingsRefusal),
}

impl Refusal {
    /// The number by which C knows it.
    pub fn status(self) -> u32
        ensures status { result ≡ status_of self }
        ensures refused { result ≢ done }
    {
        match self {
            Refusal::TooManyHalves => TOO_MANY_HALVES,
            Refusal::NoPlace => NO_PLACE,
            Refusal::NoText => NO_TEXT,
            Refusal::TooSmall => TOO_SMALL,
            Refusal::Advert(fault) => advert_status(fault),
            Refusal::Certificate(fault) => certificate_status(fault),
            Refusal::NoConversation => NO_CONVERSATION,
            Refusal::Ended => ENDED,
            Refusal::NotEnded => NOT_ENDED,
            Refusal::NoReply => NO_REPLY,
            Refusal::TooFewBytes => TOO_FEW_BYTES,
            Refusal::TooManyKept => TOO_MANY_KEPT,
            Refusal::KeptNotAdmissible => KEPT_NOT_ADMISSIBLE,
            Refusal::NoStart(fault) => start_status(fault),
            Refusal::NoModule => NO_MODULE,
            Refusal::NoRange => NO_RANGE,
            Refusal::NotTaken => NOT_TAKEN,
            Refusal::Decode(fault) => decode_status(fault),
            Refusal::Weights(fault) => weights_status(fault),
            Refusal::Settings(refusal) => settings_status(refusal),
        }
    }
}

/// The number by which C knows it.
pub fn advert_status(fault: AdvertFault) -> u32
    ensures status { result ≡ advert_status fault }
    ensures refused { result ≢ done }
{
    match fault {
        AdvertFault::NotCmis(_) => 11,
        AdvertFault::Revision(_) => 12,
        AdvertFault::NotEightLanes(_) => 16,
        AdvertFault::FlatMemory => 13,
        AdvertFault::Absent(_) => 14,
        AdvertFault::BadSum(_) => 15,
    }
}

/// The number by which C knows it.
pub fn certificate_status(fault: CertificateFault) -> u32
    ensures status { result ≡ certificate_status fault }
    ensures refused { result ≢ done }
{
    match fault {
        CertificateFault::BadLine(_) => 21,
        CertificateFault::OutOfOrder(_) => 22,
        CertificateFault::TooMany => 23,
        CertificateFault::NoEnd => 24,
    }
}

/// The number by which C knows it.
pub fn start_status(fault: SimFault) -> u32
    ensures status { result ≡ start_status fault }
    ensures refused { result ≢ done }
{
    match fault {
        SimFault::Absent(_) => 51,
        SimFault::Advert(fault) => advert_status(fault),
        SimFault::BadDelay => 53,
        SimFault::ActiveNotPaths(_) => 54,
    }
}

/// The number by which C knows it.
pub fn decode_status(fault: DecodeFault) -> u32
    ensures status { result ≡ decode_status fault }
    ensures refused { result ≢ done }
{
    match fault {
        DecodeFault::Module(fault) => module_status(fault),
        DecodeFault::Sff(fault) => sff_status(fault),
    }
}

/// Why a module can't be decoded at all.
pub fn module_status(fault: ModuleFault) -> u32
    ensures status { result ≡ module_status fault }
    ensures refused { result ≢ done }
{
    match fault {
        ModuleFault::Unknown(_) => 71,
        ModuleFault::Revision(_) => 74,
        ModuleFault::Absent(_) => 76,
    }
}

fn sff_status(fault: SffFault) -> u32
    ensures status { result ≡ sff_status fault }
    ensures refused { result ≢ done }
{
    match fault {
        SffFault::WrongIdentifier(_) => 81,
        SffFault::FlatMemory => 82,
        SffFault::Absent(_) => 83,
        SffFault::NoDiagnostics => 84,
        SffFault::ExternalCalibration => 85,
        SffFault::AddressChange => 86,
    }
}

/// The number by which C knows it.
pub fn weights_status(fault: WeightLinesFault) -> u32
    ensures status { result ≡ weights_status fault }
    ensures refused { result ≢ done }
{
    match fault {
        WeightLinesFault::BadLine(_) => 91,
        WeightLinesFault::NoHost => 92,
        WeightLinesFault::SameIdTwice(_) => 94,
    }
}

/// The number by which C knows it.
pub fn settings_status(refusal: SettingsRefusal) -> u32
    ensures status { result ≡ settings_status refusal }
    ensures refused { result ≢ done }
{
    match refusal {
        SettingsRefusal::NotAdvertised(SettingFault::Recall) => 101,
        SettingsRefusal::NotAdvertised(SettingFault::FixedInput) => 102,
        SettingsRefusal::NotAdvertised(SettingFault::PreCursor) => 103,
        SettingsRefusal::NotAdvertised(SettingFault::PostCursor) => 104,
        SettingsRefusal::NotAdvertised(SettingFault::Amplitude) => 105,
        SettingsRefusal::NotPermitted => 106,
    }
}
