ghost use Rattle.std.specs.Prelude.{◌≡◌};
ghost use Rattle.field_tables.specs.Sff8472Rows as spec;

use crate::layout::Row;

/// A field of the memory map of SFF-8472.
#[derive(Clone, Copy, Debug, PartialEq, Eq)]
pub enum Sff8472Field {
    // Device A0
    Identifier,
    ExtendedIdentifier,
    Connector,
    /// Each bit stands for a specification, as in the seven fields that follow.
    TenGigabitEthernet,
    Sonet,
    SonetMore,
    Ethernet,
    /// Its bits 2 to 0 are of the technology.
    FcLength,
    /// Its bits 3 and 2: an active cable, a passive cable.
    FcTechnology,
    FcMedia,
    FcSpeed,
    Encoding,
    /// In 100 MBd; FFh: as in value 1 of `BitRateMargins`.
    BitRate,
    RateSelectType,
    /// Of single-mode fibre in kilometres and in 100 m, of OM2 and of OM1 in 10 m, of a cable in metres or of OM4 in 10 m, of OM3
    /// in 10 m.
    Lengths,
    ExtendedCompliance,
    Oui,
    /// The wavelength in nanometres, the higher byte first; of a cable: its specification in the first byte.
    WavelengthOrCable,
    FcSpeedMore,
    /// A linear receiver, power level 2, a cooled transmitter, a CDR or retimer, paging, power level 3.
    Options,
    /// Which there are: Rx loss of signal, the same inverted, Tx fault, Tx disable, rate select, a tunable transmitter, a
    /// decision threshold of the receiver.
    OptionsMore,
    /// Above and below `BitRate`, in percent; if that is FFh: the bit rate in 250 MBd, and its margin above and below.
    BitRateMargins,
    /// 1 if device A2 has diagnostics.
    DiagPresent,
    /// 1 if the module calibrates the measured values.
    Internal,
    /// 1 if the host has to calibrate the measured values.
    External,
    /// 0: OMA.
    RxPowerIsAverage,
    /// 1 if device A2 answers only once the module has been told to change its address.
    AddressChange,
    /// Which there are: rate select by SFF-8431, a table of applications, and in device A2 rate select, Rx loss of signal, Tx
    /// fault, Tx disable, alarms and warnings.
    EnhancedOptions,
    Revision,

    // Device A2
    /// Limits are high alarm, low alarm, high warning, low warning.
    TempLimits,
    VccLimits,
    TxBiasLimits,
    TxPowerLimits,
    RxPowerLimits,
    /// Five numbers of single precision, that of the fourth power first, each in two words, the higher first.
    RxPowerCoefficients,
    /// In 1/256: of bias, transmitted power, temperature and supply voltage, as in `Offsets`.
    Slopes,
    Offsets,
    Temperature,
    Vcc,
    TxBias,
    TxPower,
    RxPower,
    LaserTemperature,
    /// In 0.1 mA.
    TecCurrent,
    /// Rate select 0 as the host set it, rate select 0, rate select 1, Tx disable as the host set it, Tx disable.
    Status,
    TxFault,
    RxLos,
    DataNotReady,
    /// Of temperature, supply voltage, bias and transmitted power in turn, each high, low.
    Alarms,
    /// Of received power: high, low.
    RxAlarms,
    /// As `Alarms`.
    Warnings,
    /// As `RxAlarms`.
    RxWarnings,
    RateSelect1Set,
    /// The higher power level as the host set it, and as it is.
    PowerLevel,
}

/// The row of a field in the memory map of SFF-8472.
pub fn row(field: Sff8472Field) -> Row
    ensures { result ≡ spec.row_of field }
{
    // device, half and page, offset and bits, layout, number of values, sign and unit
    *rows! { Sff8472Field field;
        parts {}
        Identifier: A0 Lower 0x00, 0 [byte], Single, 1, Unsigned;
        ExtendedIdentifier: A0 Lower 0x00, 1 [byte], Single, 1, Unsigned;
        Connector: A0 Lower 0x00, 2 [byte], Single, 1, Unsigned;
        TenGigabitEthernet: A0 Lower 0x00, 3 [0-0], Bits, 8, Unsigned;
        Sonet: A0 Lower 0x00, 4 [0-0], Bits, 8, Unsigned;
        SonetMore: A0 Lower 0x00, 5 [0-0], Bits, 8, Unsigned;
        Ethernet: A0 Lower 0x00, 6 [0-0], Bits, 8, Unsigned;
        FcLength: A0 Lower 0x00, 7 [0-0], Bits, 8, Unsigned;
        FcTechnology: A0 Lower 0x00, 8 [0-0], Bits, 8, Unsigned;
        FcMedia: A0 Lower 0x00, 9 [0-0], Bits, 8, Unsigned;
        FcSpeed: A0 Lower 0x00, 10 [0-0], Bits, 8, Unsigned;
        Encoding: A0 Lower 0x00, 11 [byte], Single, 1, Unsigned;
        BitRate: A0 Lower 0x00, 12 [byte], Single, 1, Unsigned;
        RateSelectType: A0 Lower 0x00, 13 [byte], Single, 1, Unsigned;
        Lengths: A0 Lower 0x00, 14 [byte], Every(1), 6, Unsigned;
        ExtendedCompliance: A0 Lower 0x00, 36 [byte], Single, 1, Unsigned;
        Oui: A0 Lower 0x00, 37 [byte], Every(1), 3, Unsigned;
        WavelengthOrCable: A0 Lower 0x00, 60 [byte], Every(1), 2, Unsigned;
        FcSpeedMore: A0 Lower 0x00, 62 [0-0], Bits, 8, Unsigned;
        Options: A0 Lower 0x00, 64 [0-0], Bits, 6, Unsigned;
        OptionsMore: A0 Lower 0x00, 65 [1-1], Bits, 7, Unsigned;
        BitRateMargins: A0 Lower 0x00, 66 [byte], Every(1), 2, Unsigned;
        DiagPresent: A0 Lower 0x00, 92 [6-6], Single, 1, Unsigned;
        Internal: A0 Lower 0x00, 92 [5-5], Single, 1, Unsigned;
        External: A0 Lower 0x00, 92 [4-4], Single, 1, Unsigned;
        RxPowerIsAverage: A0 Lower 0x00, 92 [3-3], Single, 1, Unsigned;
        AddressChange: A0 Lower 0x00, 92 [2-2], Single, 1, Unsigned;
        EnhancedOptions: A0 Lower 0x00, 93 [1-1], Bits, 7, Unsigned;
        Revision: A0 Lower 0x00, 94 [byte], Single, 1, Unsigned;
        TempLimits: A2 Lower 0x00, 0 [word], Every(2), 4, Signed Temperature;
        VccLimits: A2 Lower 0x00, 8 [word], Every(2), 4, Unsigned Voltage;
        TxBiasLimits: A2 Lower 0x00, 16 [word], Every(2), 4, Unsigned Bias;
        TxPowerLimits: A2 Lower 0x00, 24 [word], Every(2), 4, Unsigned OpticalPower;
        RxPowerLimits: A2 Lower 0x00, 32 [word], Every(2), 4, Unsigned OpticalPower;
        RxPowerCoefficients: A2 Lower 0x00, 56 [word], Every(2), 10, Unsigned;
        Slopes: A2 Lower 0x00, 76 [word], Every(4), 4, Unsigned;
        Offsets: A2 Lower 0x00, 78 [word], Every(4), 4, Signed;
        Temperature: A2 Lower 0x00, 96 [word], Single, 1, Signed Temperature;
        Vcc: A2 Lower 0x00, 98 [word], Single, 1, Unsigned Voltage;
        TxBias: A2 Lower 0x00, 100 [word], Single, 1, Unsigned Bias;
        TxPower: A2 Lower 0x00, 102 [word], Single, 1, Unsigned OpticalPower;
        RxPower: A2 Lower 0x00, 104 [word], Single, 1, Unsigned OpticalPower;
        LaserTemperature: A2 Lower 0x00, 106 [word], Single, 1, Signed Temperature;
        TecCurrent: A2 Lower 0x00, 108 [word], Single, 1, Signed;
        Status: A2 Lower 0x00, 110 [3-3], Bits, 5, Unsigned;
        TxFault: A2 Lower 0x00, 110 [2-2], Single, 1, Unsigned;
        RxLos: A2 Lower 0x00, 110 [1-1], Single, 1, Unsigned;
        DataNotReady: A2 Lower 0x00, 110 [0-0], Single, 1, Unsigned;
        Alarms: A2 Lower 0x00, 112 [7-7], Down, 8, Unsigned;
        RxAlarms: A2 Lower 0x00, 113 [7-7], Down, 2, Unsigned;
        Warnings: A2 Lower 0x00, 116 [7-7], Down, 8, Unsigned;
        RxWarnings: A2 Lower 0x00, 117 [7-7], Down, 2, Unsigned;
        RateSelect1Set: A2 Lower 0x00, 118 [3-3], Single, 1, Unsigned;
        PowerLevel: A2 Lower 0x00, 118 [0-0], Bits, 2, Unsigned;
    }
}
