ghost use Rattle.std.specs.Prelude.{◌≡◌};
ghost use Rattle.applications.specs.FaultWords.{advert_fault_words};
ghost use Rattle.command_line.specs.Faults.{fault_words};
ghost use Rattle.command_line.specs.Places.{first_word, place_of};
ghost use Rattle.command_line.specs.Places as spec;

use super::place::Place;
use crate::fault::Fault;
use applications::{AdvertFault, WeightsFault};
use bus_model::ScriptFault;
use control_sets::ProvisionFault;
use field_tables::SffFault;
use paged_memory::ImageFault;
use plan_certificate::{CertificateFault, KeptFault, Reason};
use reports::ReportFault;
use sim_module::SimFault;

/// A fault by its code, and where it is by its values.
#[derive(Clone, Copy)]
pub struct Named {
    pub code: &'static str,
    pub place: Place,
}

impl Named {
    /// A fault, if this line of the weights is the first odd one.
    pub fn of(fault: Fault, weights_line: Option<usize>) -> Named
        ensures code { result.code.now ≡ first_word (fault_words fault) }
        ensures place { result.place ≡ place_of fault weights_line }
    {
        match fault {
            Fault::Memory => nowhere("memory"),
            Fault::Io => nowhere("IO"),
            Fault::TooLong => nowhere("PT2"),
            Fault::Parts(count) => at("PT1", Place::Parts(count)),
            Fault::Image(fault) => match fault {
                ImageFault::BadHeader => nowhere("IM1"),
                ImageFault::BadLine(line) => at("IM2", Place::ImageLine(line)),
                ImageFault::OutOfOrder(line) => at("IM3", Place::ImageLine(line)),
                ImageFault::TooManyPages => nowhere("IM4"),
                ImageFault::NoEnd => nowhere("IM5"),
                ImageFault::AfterEnd => nowhere("IM6"),
                ImageFault::SixtyFifthPage => nowhere("IM7"),
            },
            Fault::Report(fault) => match fault {
                ReportFault::Memory => nowhere("memory"),
                ReportFault::Unknown(identifier) => at("RP1", Place::Identifier(identifier)),
                ReportFault::Bus(_) => nowhere("RP2"),
                ReportFault::GaveUp => nowhere("RP3"),
                ReportFault::Revision(revision) => at("RP4", Place::Revision(revision)),
                ReportFault::Absent(key) => at("RP6", Place::Half(key)),
                ReportFault::Sff(fault) => match fault {
                    SffFault::WrongIdentifier(identifier) => at(
                        "SF1",
                        Place::Identifier(identifier),
                    ),
                    SffFault::FlatMemory => nowhere("SF2"),
                    SffFault::Absent(key) => at("SF3", Place::Half(key)),
                    SffFault::NoDiagnostics => nowhere("SF4"),
                    SffFault::ExternalCalibration => nowhere("SF5"),
                    SffFault::AddressChange => nowhere("SF6"),
                },
                ReportFault::Advert(fault) => of_advert(fault),
            },
            Fault::Advert(fault) => of_advert(fault),
            Fault::Weights(fault) => match fault {
                WeightsFault::NotToml => at("WT1", Place::WeightsLine(weights_line)),
                WeightsFault::NoHostTable => at("WT2", Place::WeightsLine(weights_line)),
                WeightsFault::BadKey(_) => at("WT3", Place::WeightsLine(weights_line)),
                WeightsFault::SameKeyTwice(table, number) => at(
                    "WT4",
                    Place::WeightsKey(table, number),
                ),
                WeightsFault::BadWeight(table, number) => at(
                    "WT5",
                    Place::WeightsKey(table, number),
                ),
                WeightsFault::OtherKey => at("WT6", Place::WeightsLine(weights_line)),
                WeightsFault::Memory => nowhere("memory"),
            },
            Fault::Kept(fault) => match fault {
                KeptFault::BadLine(line) => at("KP1", Place::KeptLine(line)),
                KeptFault::TooMany => nowhere("KP2"),
                KeptFault::NotAdmissible(number) => at("KP3", Place::KeptPath(usize::from(number))),
            },
            Fault::Certificate(fault) => match fault {
                CertificateFault::BadLine(line) => at("CT1", Place::CertificateLine(line)),
                CertificateFault::OutOfOrder(line) => at("CT2", Place::CertificateLine(line)),
                CertificateFault::TooMany => nowhere("CT3"),
                CertificateFault::NoEnd => nowhere("CT4"),
            },
            Fault::Bad(reason, number) => match reason {
                Reason::PathNotAllowed => at("VR1", Place::Path(number)),
                Reason::LaneTwice => at("VR2", Place::Path(number)),
                Reason::WeightWrong => nowhere("VR3"),
                Reason::NoStart => nowhere("VR4"),
                Reason::NotClosed => at("VR5", Place::Entry(number)),
                Reason::TooLow => at("VR6", Place::Entry(number)),
                Reason::StartNotWeight => nowhere("VR7"),
                Reason::KeptNotAdmissible => at("VR8", Place::KeptPath(number)),
                Reason::KeptMissing => at("VR9", Place::KeptPath(number)),
                Reason::PairingDiffers => nowhere("VR10"),
            },
            Fault::Script(fault) => match fault {
                ScriptFault::BadLine(line) => at("BU3", Place::ScriptLine(line)),
                ScriptFault::TooLong => nowhere("BU4"),
            },
            Fault::Module(fault) => match fault {
                SimFault::Absent(key) => at("SM1", Place::Half(key)),
                SimFault::Advert(_) => nowhere("SM2"),
                SimFault::BadDelay => nowhere("SM3"),
                SimFault::ActiveNotPaths(lane) => at("SM4", Place::Lane(lane)),
            },
            Fault::Provision(fault) => match fault {
                ProvisionFault::Rejected(lane, status) => at(
                    "PV1",
                    Place::LaneStatus(lane, status),
                ),
                ProvisionFault::StagedDiffers(lane) => at("PV2", Place::Lane(lane)),
                ProvisionFault::ActiveDiffers(lane) => at("PV3", Place::Lane(lane)),
                ProvisionFault::GaveUp => nowhere("PV4"),
                ProvisionFault::Bus(_) => nowhere("PV5"),
                ProvisionFault::ModuleState(code) => at("PV6", Place::State(code)),
                ProvisionFault::Reserved(code) => at("PV7", Place::Code(code)),
            },
        }
    }
}

fn at(code: &'static str, place: Place) -> Named
    ensures code { result.code.now ≡ code.now }
    ensures place { result.place ≡ place }
{
    Named { code, place }
}

fn nowhere(code: &'static str) -> Named
    ensures code { result.code.now ≡ code.now }
    ensures place { result.place ≡ Place.Nowhere }
{
    at(code, Place::Nowhere)
}

// One that comes alone and in reports.
fn of_advert(fault: AdvertFault) -> Named
    ensures code { result.code.now ≡ first_word (advert_fault_words fault) }
    ensures place { result.place ≡ spec.place_of_advert fault }
{
    match fault {
        AdvertFault::NotCmis(identifier) => at("AD1", Place::Identifier(identifier)),
        AdvertFault::Revision(revision) => at("AD2", Place::Revision(revision)),
        AdvertFault::FlatMemory => nowhere("AD3"),
        AdvertFault::Absent(key) => at("AD4", Place::Half(key)),
        AdvertFault::BadSum(page) => at("AD5", Place::Page(page)),
        AdvertFault::NotEightLanes(identifier) => at("AD6", Place::Identifier(identifier)),
    }
}
