// Names of the metrics of VDM, and what is said of them.
ghost use Rattle.std.specs.Prelude.{◌≡◌, Some};
ghost use Rattle.module_metrics.specs.VdmNames.{figure_part, figure_words, limits_part, limits_words, measures, stem, vdm_help, vdm_name};
ghost use Rattle.module_metrics.specs.VdmUnits as spec;

use crate::name::Words;
use observables::{Figure, Quantity, Unit, quantity_row};
use std::fmt;

/// What a metric of VDM measures.
#[derive(Clone, Copy, Drop)]
pub struct Measure {
    pub quantity: Quantity,
    pub figure: Figure,
}

/// The name of the metric of the values, or of their limits.
#[derive(Clone, Copy)]
pub struct VdmName {
    pub measure: Measure,
    pub limits: bool,
}

impl fmt::Display for VdmName {
    ghost output = { λ of. Some (vdm_name of.limits of.measure) };

    #[tactic(auto, unfolding(crate::specs::VdmNames::vdm_name))]
    fn fmt<W: fmt::Write>(&self, f: &mut fmt::Formatter<W>) -> fmt::Result {
        let measure = self.measure;
        let (figure, stem) = (figure_part(measure.figure), stem(measure.quantity));
        let limits = limits_part(self.limits);
        let unit = base_unit(quantity_row(measure.quantity).unit);
        write!(f, "dovecounter_vdm_{figure}{stem}_{limits}{unit}")
    }
}

/// What is said of it.
#[derive(Clone, Copy)]
pub struct VdmHelp(pub VdmName);

impl fmt::Display for VdmHelp {
    ghost output = { λ shown. Some (vdm_help shown.0.limits shown.0.measure) };

    #[tactic(auto, unfolding(crate::specs::VdmNames::vdm_help))]
    fn fmt<W: fmt::Write>(&self, f: &mut fmt::Formatter<W>) -> fmt::Result {
        let measure = self.0.measure;
        let (figure, name) = (figure_words(measure.figure), Words(stem(measure.quantity)));
        let limits = limits_words(self.0.limits);
        let unit = Words(base_unit(quantity_row(measure.quantity).unit));
        write!(f, "{limits}{figure}{name} of VDM in {unit}")
    }
}

#[tactic(auto, unfolding(crate::specs::VdmNames::figure_part))]
fn figure_part(figure: Figure) -> &'static str
    ensures { result.now ≡ figure_part figure }
{
    match figure {
        Figure::Now => "",
        Figure::Minimum => "minimum_",
        Figure::Maximum => "maximum_",
        Figure::Average => "average_",
        Figure::Current => "last_",
    }
}

#[tactic(auto, unfolding(crate::specs::VdmNames::figure_words))]
fn figure_words(figure: Figure) -> &'static str
    ensures { result.now ≡ figure_words figure }
{
    match figure {
        Figure::Now => "",
        Figure::Minimum => "minimum ",
        Figure::Maximum => "maximum ",
        Figure::Average => "average ",
        Figure::Current => "last ",
    }
}

#[tactic(auto, unfolding(crate::specs::VdmNames::limits_part))]
fn limits_part(limits: bool) -> &'static str
    ensures { result.now ≡ limits_part limits }
{
    if limits { "limits_" } else { "" }
}

#[tactic(auto, unfolding(crate::specs::VdmNames::limits_words))]
fn limits_words(limits: bool) -> &'static str
    ensures { result.now ≡ limits_words limits }
{
    if limits { "limits of " } else { "" }
}

// What stands between the figure and the unit.
#[tactic(auto, unfolding(crate::specs::VdmNames::stem))]
fn stem(quantity: Quantity) -> &'static str
    ensures { result.now ≡ stem quantity }
{
    match quantity {
        Quantity::LaserAge => "laser_age",
        Quantity::TecCurrentShare => "tec_current_share",
        Quantity::LaserFrequencyError => "laser_frequency_error",
        Quantity::LaserTemperature => "laser_temperature",
        Quantity::SignalToNoise => "snr",
        Quantity::LevelTransition => "level_transition",
        Quantity::PreFecBer => "pre_fec_ber",
        Quantity::ErroredFrames => "errored",
        Quantity::ModulatorBiasXI => "modulator_bias_xi",
        Quantity::ModulatorBiasXQ => "modulator_bias_xq",
        Quantity::ModulatorBiasYI => "modulator_bias_yi",
        Quantity::ModulatorBiasYQ => "modulator_bias_yq",
        Quantity::ModulatorBiasXPhase => "modulator_bias_x_phase",
        Quantity::ModulatorBiasYPhase => "modulator_bias_y_phase",
        Quantity::DispersionShortLink => "dispersion_short_link",
        Quantity::DispersionLongLink => "dispersion_long_link",
        Quantity::GroupDelay => "differential_group_delay",
        Quantity::SecondOrderPmd => "second_order_pmd",
        Quantity::PolarizationLoss => "polarization_dependent_loss",
        Quantity::OpticalSignalToNoise => "osnr",
        Quantity::ElectricalSignalToNoise => "electrical_snr",
        Quantity::CarrierFrequencyOffset => "carrier_frequency_offset",
        Quantity::ErrorVector => "error_vector_magnitude",
        Quantity::TransmittedLevel => "tx_level",
        Quantity::ReceivedTotalLevel => "rx_total_level",
        Quantity::ReceivedSignalLevel => "rx_signal_level",
        Quantity::PolarizationChange => "polarization_change_rate",
        Quantity::ModulationErrorRatio => "modulation_error_ratio",
        Quantity::Temperature => "temperature",
        Quantity::SupplyVoltage => "vcc",
        Quantity::SecondSupplyVoltage => "vcc_2",
        Quantity::TransmittedPower => "tx_power",
        Quantity::ReceivedPower => "rx_power",
        Quantity::LaserBias => "tx_bias",
        Quantity::TecCurrent => "tec_current",
    }
}

/// The unit of a metric: without a prefix, and a share of one in place of a percentage.
#[tactic(auto, unfolding(crate::specs::VdmUnits::base_unit))]
fn base_unit(unit: Unit) -> &'static str
    ensures { result.now ≡ spec.base_unit unit }
{
    match unit {
        Unit::Percent | Unit::Ratio => "ratio",
        Unit::Frames => "frames",
        Unit::Celsius => "celsius",
        Unit::Volts => "volts",
        Unit::Milliamperes => "amperes",
        Unit::Milliwatts => "watts",
        Unit::DecibelMilliwatts => "dbm",
        Unit::Decibel => "decibels",
        Unit::Megahertz => "hertz",
        Unit::Picoseconds => "seconds",
        Unit::SquarePicoseconds => "square_seconds",
        Unit::PicosecondsPerNanometre => "seconds_per_meter",
        Unit::KiloradiansPerSecond => "radians_per_second",
    }
}

/// The power of ten that the unit of an amount is in the metric's unit.
pub fn power_of(unit: Unit) -> i16
    ensures { result ≡ spec.power_of unit }
{
    match unit {
        Unit::Percent => -2,
        Unit::Milliamperes | Unit::Milliwatts | Unit::PicosecondsPerNanometre => -3,
        Unit::Picoseconds => -12,
        Unit::SquarePicoseconds => -24,
        Unit::KiloradiansPerSecond => 3,
        Unit::Megahertz => 6,
        Unit::Ratio
        | Unit::Frames
        | Unit::Celsius
        | Unit::Volts
        | Unit::DecibelMilliwatts
        | Unit::Decibel => 0,
    }
}

macro_rules! measures {
    ($($figure:ident $quantity:ident;)*) => {
        &[$(Measure {
            quantity: Quantity::$quantity,
            figure: Figure::$figure,
        },)*]
    };
}

/// What has a metric, in their order.
#[tactic(auto, unfolding(crate::specs::VdmNames::measures))]
pub fn measures() -> &'static [Measure]
    ensures { result.now ≡ measures }
{
    measures! {
        Now LaserAge;
        Now TecCurrentShare;
        Now LaserFrequencyError;
        Now LaserTemperature;
        Now SignalToNoise;
        Now LevelTransition;
        Minimum PreFecBer;
        Maximum PreFecBer;
        Average PreFecBer;
        Current PreFecBer;
        Minimum ErroredFrames;
        Maximum ErroredFrames;
        Average ErroredFrames;
        Current ErroredFrames;
        Now ModulatorBiasXI;
        Now ModulatorBiasXQ;
        Now ModulatorBiasYI;
        Now ModulatorBiasYQ;
        Now ModulatorBiasXPhase;
        Now ModulatorBiasYPhase;
        Now DispersionShortLink;
        Now DispersionLongLink;
        Now GroupDelay;
        Now SecondOrderPmd;
        Now PolarizationLoss;
        Now OpticalSignalToNoise;
        Now ElectricalSignalToNoise;
        Now CarrierFrequencyOffset;
        Now ErrorVector;
        Now TransmittedLevel;
        Now ReceivedTotalLevel;
        Now ReceivedSignalLevel;
        Now PolarizationChange;
        Now ModulationErrorRatio;
    }
}
