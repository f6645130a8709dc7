// Words for what is measured, where, and in what unit.
ghost use Rattle.std.specs.Prelude.{◌≡◌};
ghost use Rattle.observables.specs.Names as spec;

use crate::observable::{Figure, Side};
use crate::observation::Subject;
use crate::quantity::{Quantity, Unit};

/// The name of a quantity.
#[tactic(auto, unfolding(crate::specs::Names::quantity_name))]
pub fn quantity_name(quantity: Quantity) -> &'static str
    ensures { result.now ≡ spec.quantity_name quantity }
{
    match quantity {
        Quantity::LaserAge => "laser-age",
        Quantity::TecCurrentShare => "tec-current-share",
        Quantity::LaserFrequencyError => "laser-frequency-error",
        Quantity::LaserTemperature => "laser-temperature",
        Quantity::SignalToNoise => "snr",
        Quantity::LevelTransition => "level-transition",
        Quantity::PreFecBer => "pre-fec-ber",
        Quantity::ErroredFrames => "errored-frames",
        Quantity::ModulatorBiasXI => "modulator-bias-xi",
        Quantity::ModulatorBiasXQ => "modulator-bias-xq",
        Quantity::ModulatorBiasYI => "modulator-bias-yi",
        Quantity::ModulatorBiasYQ => "modulator-bias-yq",
        Quantity::ModulatorBiasXPhase => "modulator-bias-x-phase",
        Quantity::ModulatorBiasYPhase => "modulator-bias-y-phase",
        Quantity::DispersionShortLink => "dispersion-short-link",
        Quantity::DispersionLongLink => "dispersion-long-link",
        Quantity::GroupDelay => "differential-group-delay",
        Quantity::SecondOrderPmd => "second-order-pmd",
        Quantity::PolarizationLoss => "polarization-dependent-loss",
        Quantity::OpticalSignalToNoise => "osnr",
        Quantity::ElectricalSignalToNoise => "electrical-snr",
        Quantity::CarrierFrequencyOffset => "carrier-frequency-offset",
        Quantity::ErrorVector => "error-vector-magnitude",
        Quantity::TransmittedLevel => "tx-level",
        Quantity::ReceivedTotalLevel => "rx-total-level",
        Quantity::ReceivedSignalLevel => "rx-signal-level",
        Quantity::PolarizationChange => "polarization-change-rate",
        Quantity::ModulationErrorRatio => "modulation-error-ratio",
        Quantity::Temperature => "temperature",
        Quantity::SupplyVoltage => "vcc",
        Quantity::SecondSupplyVoltage => "vcc-2",
        Quantity::TransmittedPower => "tx-power",
        Quantity::ReceivedPower => "rx-power",
        Quantity::LaserBias => "tx-bias",
        Quantity::TecCurrent => "tec-current",
    }
}

/// The word for a figure.
#[tactic(auto, unfolding(crate::specs::Names::figure_name))]
pub fn figure_name(figure: Figure) -> &'static str
    ensures { result.now ≡ spec.figure_name figure }
{
    match figure {
        Figure::Now => "now",
        Figure::Minimum => "minimum",
        Figure::Maximum => "maximum",
        Figure::Average => "average",
        Figure::Current => "last",
    }
}

/// The name of a unit.
#[tactic(auto, unfolding(crate::specs::Names::unit_name))]
pub fn unit_name(unit: Unit) -> &'static str
    ensures { result.now ≡ spec.unit_name unit }
{
    match unit {
        Unit::Percent => "%",
        Unit::Ratio => "ratio",
        Unit::Frames => "frames",
        Unit::Celsius => "C",
        Unit::Volts => "V",
        Unit::Milliamperes => "mA",
        Unit::Milliwatts => "mW",
        Unit::DecibelMilliwatts => "dBm",
        Unit::Decibel => "dB",
        Unit::Megahertz => "MHz",
        Unit::Picoseconds => "ps",
        Unit::SquarePicoseconds => "ps^2",
        Unit::PicosecondsPerNanometre => "ps/nm",
        Unit::KiloradiansPerSecond => "krad/s",
    }
}

/// What something is measured of.
#[tactic(auto, unfolding(crate::specs::Names::scope_name))]
pub fn scope_name(subject: Subject, side: Side) -> &'static str
    ensures { result.now ≡ spec.scope_name subject side }
{
    match subject {
        Subject::Module => "module",
        Subject::HostLane(_) => "host-lane",
        Subject::MediaLane(_) => "media-lane",
        Subject::DataPath(_) => path_name(side),
    }
}

#[tactic(auto, unfolding(crate::specs::Names::path_name))]
fn path_name(side: Side) -> &'static str
    ensures { result.now ≡ spec.path_name side }
{
    match side {
        Side::Media => "media-path",
        Side::Host => "host-path",
    }
}

/// The number of the lane, or of the first lane of the data path.
pub fn lane_of(subject: Subject) -> Option<u8>
    ensures { result ≡ spec.lane_of subject }
{
    match subject {
        Subject::Module => None,
        Subject::HostLane(lane) | Subject::MediaLane(lane) | Subject::DataPath(lane) => Some(lane),
    }
}
