ghost use Rattle.std.specs.Prelude.{◌≡◌};
ghost use Rattle.observables.specs.Quantities as spec;

/// What is measured.
#[derive(Clone, Copy, Debug, PartialEq, Eq)]
pub enum Quantity {
    /// Of its life; 0 is its beginning.
    LaserAge = 1,
    /// The current of the thermoelectric cooler, of its greatest.
    TecCurrentShare = 2,
    LaserFrequencyError = 3,
    LaserTemperature = 4,
    /// The effective ratio at the decision of a symbol.
    SignalToNoise = 5,
    /// The level transition parameter of PAM4.
    LevelTransition = 6,
    /// Bit errors to bits, before forward error correction.
    PreFecBer = 7,
    /// Frames that forward error correction could not correct.
    ErroredFrames = 8,
    ModulatorBiasXI = 9,
    ModulatorBiasXQ = 10,
    ModulatorBiasYI = 11,
    ModulatorBiasYQ = 12,
    ModulatorBiasXPhase = 13,
    ModulatorBiasYPhase = 14,
    /// Chromatic dispersion, in fine steps.
    DispersionShortLink = 15,
    /// Chromatic dispersion, in coarse steps.
    DispersionLongLink = 16,
    /// Differential group delay.
    GroupDelay = 17,
    /// Polarization mode dispersion of second order.
    SecondOrderPmd = 18,
    /// Polarization dependent loss.
    PolarizationLoss = 19,
    OpticalSignalToNoise = 20,
    ElectricalSignalToNoise = 21,
    CarrierFrequencyOffset = 22,
    /// The magnitude of the error vector.
    ErrorVector = 23,
    TransmittedLevel = 24,
    ReceivedTotalLevel = 25,
    ReceivedSignalLevel = 26,
    /// How fast the state of polarization changes.
    PolarizationChange = 27,
    ModulationErrorRatio = 28,
    /// Of the module.
    Temperature = 29,
    SupplyVoltage = 30,
    SecondSupplyVoltage = 31,
    TransmittedPower = 32,
    ReceivedPower = 33,
    /// The bias current of the laser.
    LaserBias = 34,
    /// The current of the thermoelectric cooler.
    TecCurrent = 35,
}

/// What amounts are counted in.
#[derive(Clone, Copy, Debug, PartialEq, Eq)]
pub enum Unit {
    Percent = 1,
    /// A number without a unit.
    Ratio = 2,
    /// So many frames.
    Frames = 3,
    /// Degrees Celsius.
    Celsius = 4,
    Volts = 5,
    Milliamperes = 6,
    Milliwatts = 7,
    /// Decibels above a milliwatt.
    DecibelMilliwatts = 8,
    Decibel = 9,
    Megahertz = 10,
    Picoseconds = 11,
    SquarePicoseconds = 12,
    PicosecondsPerNanometre = 13,
    KiloradiansPerSecond = 14,
}

/// How the words of values and limits count.
#[derive(Clone, Copy, Debug, PartialEq, Eq)]
pub enum Format {
    Unsigned,
    /// In two's complement.
    Signed,
    /// Eleven bits, and five bits of a power of ten.
    Float,
}

/// What a value is about.
#[derive(Clone, Copy, Debug, PartialEq, Eq)]
pub enum Scope {
    Module,
    Lane,
    DataPath,
}

/// How a quantity is counted.
#[derive(Clone, Copy, Debug, PartialEq, Eq)]
pub struct QuantityRow {
    /// If it is an observable of pages 20h to 2Fh.
    pub scope: Scope,
    pub format: Format,
    pub unit: Unit,
    /// A step of the words is so many units,
    pub numerator: u32,
    /// times ten to this power, which is at most 0,
    pub exponent: i8,
    /// shared by so many.
    pub divisor: u16,
}

macro_rules! rows {
    ($quantity:ident; $($name:ident: $scope:ident $format:ident $unit:ident $numerator:literal $places:literal $divisor:literal;)*) => {
        match $quantity {
            $(Quantity::$name => QuantityRow {
                scope: Scope::$scope,
                format: Format::$format,
                unit: Unit::$unit,
                numerator: $numerator,
                exponent: -$places,
                divisor: $divisor,
            },)*
        }
    };
}

/// How a quantity is counted.
pub fn quantity_row(quantity: Quantity) -> QuantityRow
    ensures { result ≡ spec.quantity_row quantity }
{
    // what it is about, format, unit; step: numerator, digits after the point, divisor
    rows! { quantity;
        LaserAge: Lane Unsigned Percent 1 0 1;
        TecCurrentShare: Module Signed Percent 100 0 32767;
        LaserFrequencyError: Lane Signed Megahertz 10 0 1;
        LaserTemperature: Lane Signed Celsius 390625 8 1;
        SignalToNoise: Lane Unsigned Decibel 390625 8 1;
        LevelTransition: Lane Unsigned Decibel 390625 8 1;
        PreFecBer: DataPath Float Ratio 1 0 1;
        ErroredFrames: DataPath Float Frames 1 0 1;
        ModulatorBiasXI: Lane Unsigned Percent 100 0 65535;
        ModulatorBiasXQ: Lane Unsigned Percent 100 0 65535;
        ModulatorBiasYI: Lane Unsigned Percent 100 0 65535;
        ModulatorBiasYQ: Lane Unsigned Percent 100 0 65535;
        ModulatorBiasXPhase: Lane Unsigned Percent 100 0 65535;
        ModulatorBiasYPhase: Lane Unsigned Percent 100 0 65535;
        DispersionShortLink: Lane Signed PicosecondsPerNanometre 1 0 1;
        DispersionLongLink: Lane Signed PicosecondsPerNanometre 20 0 1;
        GroupDelay: Lane Unsigned Picoseconds 1 2 1;
        SecondOrderPmd: Lane Unsigned SquarePicoseconds 1 2 1;
        PolarizationLoss: Lane Unsigned Decibel 1 1 1;
        OpticalSignalToNoise: Lane Unsigned Decibel 1 1 1;
        ElectricalSignalToNoise: Lane Unsigned Decibel 1 1 1;
        CarrierFrequencyOffset: Lane Signed Megahertz 1 0 1;
        ErrorVector: Lane Unsigned Percent 100 0 65535;
        TransmittedLevel: Lane Signed DecibelMilliwatts 1 2 1;
        ReceivedTotalLevel: Lane Signed DecibelMilliwatts 1 2 1;
        ReceivedSignalLevel: Lane Signed DecibelMilliwatts 1 2 1;
        PolarizationChange: Lane Unsigned KiloradiansPerSecond 1 0 1;
        ModulationErrorRatio: Lane Unsigned Decibel 1 1 1;
        Temperature: Module Signed Celsius 390625 8 1;
        SupplyVoltage: Module Unsigned Volts 1 4 1;
        SecondSupplyVoltage: Module Unsigned Volts 1 4 1;
        TransmittedPower: Lane Unsigned Milliwatts 1 4 1;
        ReceivedPower: Lane Unsigned Milliwatts 1 4 1;
        LaserBias: Lane Unsigned Milliamperes 2 3 1;
        TecCurrent: Module Signed Milliamperes 1 1 1;
    }
}
