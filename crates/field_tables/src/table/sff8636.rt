ghost use Rattle.std.specs.Prelude.{◌≡◌};
ghost use Rattle.field_tables.specs.Sff8636Rows as spec;

use crate::layout::Row;

/// A field of the memory map of SFF-8636.
#[derive(Clone, Copy, Debug, PartialEq, Eq)]
pub enum Sff8636Field {
    // Lower memory
    Identifier,
    Revision,
    /// 1 if the module has no pages but 00h.
    FlatMemory,
    DataNotReady,
    TxLos,
    RxLos,
    TxFault,
    TxLol,
    RxLol,
    /// Flags of levels are high alarm, low alarm, high warning, low warning.
    TempFlag,
    VccFlag,
    RxPowerHighAlarm,
    RxPowerLowAlarm,
    RxPowerHighWarning,
    RxPowerLowWarning,
    TxBiasHighAlarm,
    TxBiasLowAlarm,
    TxBiasHighWarning,
    TxBiasLowWarning,
    TxPowerHighAlarm,
    TxPowerLowAlarm,
    TxPowerHighWarning,
    TxPowerLowWarning,
    Temperature,
    Vcc,
    RxPower,
    TxBias,
    TxPower,
    TxDisable,
    SoftwareReset,
    /// Power override, power set, that classes 5 to 7 are enabled, that class 8 is.
    PowerControls,
    TxCdrOn,
    RxCdrOn,
    /// Of power class 8, in tenths of a watt.
    MaxPower,
    PageSelect,

    // Page 00h
    /// The class less one, unless `PowerClass8` or `PowerClassHigh` isn't 0.
    PowerClass,
    PowerClass8,
    CleiPresent,
    TxCdr,
    RxCdr,
    /// 1, 2 and 3: classes 5, 6 and 7.
    PowerClassHigh,
    Connector,
    /// Each bit stands for a specification, as in the seven fields that follow.
    Ethernet,
    Sonet,
    Sas,
    GigabitEthernet,
    /// Its bits 1 and 0 are of the technology.
    FcLength,
    FcTechnology,
    FcMedia,
    FcSpeed,
    Encoding,
    /// In 100 MBd; FFh: as in `BitRateMore`.
    BitRate,
    RateSelectType,
    /// Of single-mode fibre in kilometres, of OM3 in 2 m, of OM2, of OM1 and of a cable in metres; the last of OM4 in 2 m if the
    /// technology is an 850 nm VCSEL.
    Lengths,
    Technology,
    /// That it is tunable, that the detector is an APD, that it is cooled, that its wavelength is controlled.
    Transmitter,
    Infiniband,
    Oui,
    /// Two bytes of wavelength in 0.05 nm, two of its tolerance in 0.005 nm, each time the higher first. Of copper: attenuation
    /// at 2.5, 5, 7 and 12.9 GHz, in dB.
    WavelengthOrAttenuation,
    /// In degrees Celsius; 0 stands for 70.
    TempMax,
    ExtendedCompliance,
    /// Which there are: amplitude and emphasis of the output, fixed, adaptive and frozen equalizers of the input.
    Equalizers,
    /// Which there are: Tx squelch, its disable, Rx output disable, Rx squelch disable, loss of lock of Rx and of Tx, control of
    /// the CDRs of Rx and of Tx.
    Options,
    /// Which there are: Tx loss of signal, squelch of average power and not OMA, Tx fault, Tx disable, rate select, page 01h,
    /// page 02h.
    OptionsMore,
    /// That transmitted power is measured, that received power is average power and not OMA, that supply voltage is measured,
    /// that temperature is.
    Monitors,
    /// Which there are: a table of applications, extended rate selection, the flag of initialization.
    EnhancedOptions,
    /// In 250 MBd.
    BitRateMore,

    // Page 03h
    /// Limits are high alarm, low alarm, high warning, low warning.
    TempLimits,
    VccLimits,
    RxPowerLimits,
    TxBiasLimits,
    TxPowerLimits,
}

/// The row of a field in the memory map of SFF-8636.
pub fn row(field: Sff8636Field) -> Row
    ensures { result ≡ spec.row_of field }
{
    // device, half and page, offset and bits, layout, number of values, sign and unit
    *rows! { Sff8636Field field;
        parts {}
        Identifier: A0 Lower 0x00, 0 [byte], Single, 1, Unsigned;
        Revision: A0 Lower 0x00, 1 [byte], Single, 1, Unsigned;
        FlatMemory: A0 Lower 0x00, 2 [2-2], Single, 1, Unsigned;
        DataNotReady: A0 Lower 0x00, 2 [0-0], Single, 1, Unsigned;
        TxLos: A0 Lower 0x00, 3 [4-4], Bits, 4, Unsigned;
        RxLos: A0 Lower 0x00, 3 [0-0], Bits, 4, Unsigned;
        TxFault: A0 Lower 0x00, 4 [0-0], Bits, 4, Unsigned;
        TxLol: A0 Lower 0x00, 5 [4-4], Bits, 4, Unsigned;
        RxLol: A0 Lower 0x00, 5 [0-0], Bits, 4, Unsigned;
        TempFlag: A0 Lower 0x00, 6 [7-7], Down, 4, Unsigned;
        VccFlag: A0 Lower 0x00, 7 [7-7], Down, 4, Unsigned;
        RxPowerHighAlarm: A0 Lower 0x00, 9 [7-7], Quad(3), 4, Unsigned;
        RxPowerLowAlarm: A0 Lower 0x00, 9 [6-6], Quad(2), 4, Unsigned;
        RxPowerHighWarning: A0 Lower 0x00, 9 [5-5], Quad(1), 4, Unsigned;
        RxPowerLowWarning: A0 Lower 0x00, 9 [4-4], Quad(0), 4, Unsigned;
        TxBiasHighAlarm: A0 Lower 0x00, 11 [7-7], Quad(3), 4, Unsigned;
        TxBiasLowAlarm: A0 Lower 0x00, 11 [6-6], Quad(2), 4, Unsigned;
        TxBiasHighWarning: A0 Lower 0x00, 11 [5-5], Quad(1), 4, Unsigned;
        TxBiasLowWarning: A0 Lower 0x00, 11 [4-4], Quad(0), 4, Unsigned;
        TxPowerHighAlarm: A0 Lower 0x00, 13 [7-7], Quad(3), 4, Unsigned;
        TxPowerLowAlarm: A0 Lower 0x00, 13 [6-6], Quad(2), 4, Unsigned;
        TxPowerHighWarning: A0 Lower 0x00, 13 [5-5], Quad(1), 4, Unsigned;
        TxPowerLowWarning: A0 Lower 0x00, 13 [4-4], Quad(0), 4, Unsigned;
        Temperature: A0 Lower 0x00, 22 [word], Single, 1, Signed Temperature;
        Vcc: A0 Lower 0x00, 26 [word], Single, 1, Unsigned Voltage;
        RxPower: A0 Lower 0x00, 34 [word], Every(2), 4, Unsigned OpticalPower;
        TxBias: A0 Lower 0x00, 42 [word], Every(2), 4, Unsigned Bias;
        TxPower: A0 Lower 0x00, 50 [word], Every(2), 4, Unsigned OpticalPower;
        TxDisable: A0 Lower 0x00, 86 [0-0], Bits, 4, Unsigned;
        SoftwareReset: A0 Lower 0x00, 93 [7-7], Single, 1, Unsigned;
        PowerControls: A0 Lower 0x00, 93 [0-0], Bits, 4, Unsigned;
        TxCdrOn: A0 Lower 0x00, 98 [4-4], Bits, 4, Unsigned;
        RxCdrOn: A0 Lower 0x00, 98 [0-0], Bits, 4, Unsigned;
        MaxPower: A0 Lower 0x00, 107 [byte], Single, 1, Unsigned;
        PageSelect: A0 Lower 0x00, 127 [byte], Single, 1, Unsigned;
        PowerClass: A0 Upper 0x00, 129 [7-6], Single, 1, Unsigned;
        PowerClass8: A0 Upper 0x00, 129 [5-5], Single, 1, Unsigned;
        CleiPresent: A0 Upper 0x00, 129 [4-4], Single, 1, Unsigned;
        TxCdr: A0 Upper 0x00, 129 [3-3], Single, 1, Unsigned;
        RxCdr: A0 Upper 0x00, 129 [2-2], Single, 1, Unsigned;
        PowerClassHigh: A0 Upper 0x00, 129 [1-0], Single, 1, Unsigned;
        Connector: A0 Upper 0x00, 130 [byte], Single, 1, Unsigned;
        Ethernet: A0 Upper 0x00, 131 [0-0], Bits, 8, Unsigned;
        Sonet: A0 Upper 0x00, 132 [0-0], Bits, 8, Unsigned;
        Sas: A0 Upper 0x00, 133 [0-0], Bits, 8, Unsigned;
        GigabitEthernet: A0 Upper 0x00, 134 [0-0], Bits, 8, Unsigned;
        FcLength: A0 Upper 0x00, 135 [0-0], Bits, 8, Unsigned;
        FcTechnology: A0 Upper 0x00, 136 [0-0], Bits, 8, Unsigned;
        FcMedia: A0 Upper 0x00, 137 [0-0], Bits, 8, Unsigned;
        FcSpeed: A0 Upper 0x00, 138 [0-0], Bits, 8, Unsigned;
        Encoding: A0 Upper 0x00, 139 [byte], Single, 1, Unsigned;
        BitRate: A0 Upper 0x00, 140 [byte], Single, 1, Unsigned;
        RateSelectType: A0 Upper 0x00, 141 [byte], Single, 1, Unsigned;
        Lengths: A0 Upper 0x00, 142 [byte], Every(1), 5, Unsigned;
        Technology: A0 Upper 0x00, 147 [7-4], Single, 1, Unsigned;
        Transmitter: A0 Upper 0x00, 147 [0-0], Bits, 4, Unsigned;
        Infiniband: A0 Upper 0x00, 164 [0-0], Bits, 6, Unsigned;
        Oui: A0 Upper 0x00, 165 [byte], Every(1), 3, Unsigned;
        WavelengthOrAttenuation: A0 Upper 0x00, 186 [byte], Every(1), 4, Unsigned;
        TempMax: A0 Upper 0x00, 190 [byte], Single, 1, Unsigned;
        ExtendedCompliance: A0 Upper 0x00, 192 [byte], Single, 1, Unsigned;
        Equalizers: A0 Upper 0x00, 193 [0-0], Bits, 5, Unsigned;
        Options: A0 Upper 0x00, 194 [0-0], Bits, 8, Unsigned;
        OptionsMore: A0 Upper 0x00, 195 [1-1], Bits, 7, Unsigned;
        Monitors: A0 Upper 0x00, 220 [2-2], Bits, 4, Unsigned;
        EnhancedOptions: A0 Upper 0x00, 221 [2-2], Bits, 3, Unsigned;
        BitRateMore: A0 Upper 0x00, 222 [byte], Single, 1, Unsigned;
        TempLimits: A0 Upper 0x03, 128 [word], Every(2), 4, Signed Temperature;
        VccLimits: A0 Upper 0x03, 144 [word], Every(2), 4, Unsigned Voltage;
        RxPowerLimits: A0 Upper 0x03, 176 [word], Every(2), 4, Unsigned OpticalPower;
        TxBiasLimits: A0 Upper 0x03, 184 [word], Every(2), 4, Unsigned Bias;
        TxPowerLimits: A0 Upper 0x03, 192 [word], Every(2), 4, Unsigned OpticalPower;
    }
}
