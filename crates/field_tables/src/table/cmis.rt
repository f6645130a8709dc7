ghost use Rattle.std.specs.Prelude.{◌≡◌};
ghost use Rattle.field_tables.specs.CmisRows as spec;

use crate::layout::Row;

/// A field of the memory map of CMIS.
#[derive(Clone, Copy, Debug, PartialEq, Eq)]
pub enum CmisField {
    // Lower memory
    Identifier,
    /// Upper nibble major, lower nibble minor.
    Revision,
    /// 1 if the module has no pages but 00h.
    FlatMemory,
    ModuleState,
    /// Bits 0 to 7: temperature, then supply voltage, each high alarm, low alarm, high warning, low warning.
    ModuleFlag,
    Temperature,
    Vcc,
    /// TEC current, if value 1 of `AuxKinds` is 1.
    Aux1,
    /// TEC current if value 2 of `AuxKinds` is 1, else the laser's temperature.
    Aux2,
    /// A second supply voltage if value 3 of `AuxKinds` is 1, else the laser's temperature, in two's complement.
    Aux3,
    LowPwrAllowHW,
    LowPwrRequestSW,
    SoftwareReset,
    /// Major revision, minor revision.
    ActiveFirmware,
    FaultCause,
    MediaType,
    /// The HostInterfaceID of Applications 1 to 8; FFh ends the list.
    AppHost,
    AppMedia,
    AppHostLanes,
    AppMediaLanes,
    /// Bit i-1 is 1 if the Application may begin at host lane i.
    AppHostStarts,
    BankSelect,
    PageSelect,

    // Page 00h
    IdCopy,
    Oui,
    /// The class less one.
    PowerClass,
    MaxPower,
    LengthMultiplier,
    LengthBase,
    Connector,
    /// Of copper, at 5, 7, 12.9 and 25.8 GHz, in dB.
    Attenuation,
    /// Bit i-1 is 1 if media lane i is not supported.
    UnsupportedMedia,
    Technology,

    // Page 01h
    /// Major revision, minor revision.
    InactiveFirmware,
    /// Major revision, minor revision.
    Hardware,
    /// 0 and 1: `LengthSmf` counts tenths of a kilometre, kilometres.
    LengthSmfMultiplier,
    LengthSmf,
    /// Of OM5, OM4 and OM3 in 2 m, of OM2 in metres.
    Lengths,
    /// In 0.05 nm.
    Wavelength,
    /// In 0.005 nm.
    WavelengthTolerance,
    /// The code of the longest time that a state lasts, as in the other five `CMaxDuration` fields.
    MaxDurationDPDeinit,
    MaxDurationDPInit,
    Cooled,
    /// Of `Aux1`, `Aux2` and `Aux3`: 1 if it is TEC current, TEC current, a second supply voltage.
    AuxKinds,
    /// The highest and the lowest temperature of the case in degrees Celsius, in two's complement.
    TempRange,
    DetectorIsApd,
    /// 0: OMA.
    RxPowerIsAverage,
    /// That the transmitter is tunable, and that its wavelength is controlled.
    LaserControls,
    /// 0 to 3: none, it reduces OMA, it reduces average power, the host chooses.
    TxSquelchMethod,
    /// Which there are: polarity flip, output disable, squelch disable, forced squelch.
    TxControls,
    /// Which there are: polarity flip, output disable, squelch disable.
    RxControls,
    /// Which there are: failure, loss of signal, loss of lock, failure of the adaptive equalizer.
    TxFlags,
    /// Which there are: loss of signal, loss of lock.
    RxFlags,
    /// Which there are: temperature, supply voltage, `Aux1`, `Aux2`, `Aux3`.
    ModuleMonitors,
    /// 0, 1 and 2: bias values count once, twice and four times.
    BiasMultiplier,
    RxPowerMonitor,
    TxPowerMonitor,
    TxBiasMonitor,
    /// Which there are: CDR, its bypass, fixed equalizer, adaptive equalizer, its freeze.
    TxSignalControls,
    /// 0 to 3: none, of the pre-cursor, of the post-cursor, of both.
    RxEqControl,
    /// Which there are: CDR, its bypass, amplitude.
    RxSignalControls,
    MaxDurationModulePwrDn,
    MaxDurationModulePwrUp,
    MaxDurationDPTxTurnOff,
    MaxDurationDPTxTurnOn,
    /// Of Applications 1 to 15: bit i-1 is 1 if the Application may begin at media lane i.
    MediaStarts,
    /// The HostInterfaceID of Applications 9 to 15; FFh ends the list.
    AppHostMore,
    AppMediaMore,
    AppHostLanesMore,
    AppMediaLanesMore,
    /// As `AppHostStarts`.
    AppHostStartsMore,

    // Page 02h
    /// Limits are high alarm, low alarm, high warning, low warning.
    TempLimits,
    VccLimits,
    TxPowerLimits,
    TxBiasLimits,
    RxPowerLimits,

    // Page 10h
    DPDeinit,
    ApplyDPInit,
    StagedAppSel,
    /// The first host lane of the data path, less one.
    StagedPathId,
    StagedExplicit,

    // Page 11h
    PathStates,
    /// 1: the lane's output is valid, as in `TxOutputStatus`.
    RxOutputStatus,
    TxOutputStatus,
    PathStateChanged,
    TxFailure,
    TxLos,
    TxLol,
    TxEqFail,
    TxPowerHighAlarm,
    TxPowerLowAlarm,
    TxPowerHighWarning,
    TxPowerLowWarning,
    TxBiasHighAlarm,
    TxBiasLowAlarm,
    TxBiasHighWarning,
    TxBiasLowWarning,
    RxLos,
    RxLol,
    RxPowerHighAlarm,
    RxPowerLowAlarm,
    RxPowerHighWarning,
    RxPowerLowWarning,
    TxPower,
    TxBias,
    RxPower,
    ConfigStatus,
    ActiveAppSel,
    /// The first host lane of the data path, less one.
    ActivePathId,
    ActiveExplicit,
}

/// The row of a field in the memory map of CMIS.
pub fn row(field: CmisField) -> Row
    ensures { result ≡ spec.row_of field }
{
    // of a part of a register: which of its bytes, bits, layout, number of values;
    // of another: device, half and page, offset and bits, layout, number of values, sign and unit
    *rows! { CmisField field;
        parts {
            ModuleState: GlobalStatus 0 [3-1], Single, 1;
            ModuleFlag: ModuleFlags 0 [0-0], Bits, 8;
            LowPwrAllowHW: GlobalControls 0 [6-6], Single, 1;
            LowPwrRequestSW: GlobalControls 0 [4-4], Single, 1;
            SoftwareReset: GlobalControls 0 [3-3], Single, 1;
            BankSelect: PageMapping 0 [byte], Single, 1;
            PageSelect: PageMapping 1 [byte], Single, 1;
            DPDeinit: DPDeinit 0 [0-0], Bits, 8;
            ApplyDPInit: ApplyDPInit 0 [0-0], Bits, 8;
            StagedAppSel: StagedControl 0 [7-4], Every(1), 8;
            StagedPathId: StagedControl 0 [3-1], Every(1), 8;
            StagedExplicit: StagedControl 0 [0-0], Every(1), 8;
            PathStates: PathStates 0 [3-0], Nibbles, 8;
            PathStateChanged: LaneFlags 0 [0-0], Bits, 8;
            TxFailure: LaneFlags 1 [0-0], Bits, 8;
            TxLos: LaneFlags 2 [0-0], Bits, 8;
            TxLol: LaneFlags 3 [0-0], Bits, 8;
            TxEqFail: LaneFlags 4 [0-0], Bits, 8;
            TxPowerHighAlarm: LaneFlags 5 [0-0], Bits, 8;
            TxPowerLowAlarm: LaneFlags 6 [0-0], Bits, 8;
            TxPowerHighWarning: LaneFlags 7 [0-0], Bits, 8;
            TxPowerLowWarning: LaneFlags 8 [0-0], Bits, 8;
            TxBiasHighAlarm: LaneFlags 9 [0-0], Bits, 8;
            TxBiasLowAlarm: LaneFlags 10 [0-0], Bits, 8;
            TxBiasHighWarning: LaneFlags 11 [0-0], Bits, 8;
            TxBiasLowWarning: LaneFlags 12 [0-0], Bits, 8;
            RxLos: LaneFlags 13 [0-0], Bits, 8;
            RxLol: LaneFlags 14 [0-0], Bits, 8;
            RxPowerHighAlarm: LaneFlags 15 [0-0], Bits, 8;
            RxPowerLowAlarm: LaneFlags 16 [0-0], Bits, 8;
            RxPowerHighWarning: LaneFlags 17 [0-0], Bits, 8;
            RxPowerLowWarning: LaneFlags 18 [0-0], Bits, 8;
            ConfigStatus: ConfigStatus 0 [3-0], Nibbles, 8;
            ActiveAppSel: ActiveControl 0 [7-4], Every(1), 8;
            ActivePathId: ActiveControl 0 [3-1], Every(1), 8;
            ActiveExplicit: ActiveControl 0 [0-0], Every(1), 8;
        }
        Identifier: A0 Lower 0x00, 0 [byte], Single, 1, Unsigned;
        Revision: A0 Lower 0x00, 1 [byte], Single, 1, Unsigned;
        FlatMemory: A0 Lower 0x00, 2 [7-7], Single, 1, Unsigned;
        Temperature: A0 Lower 0x00, 14 [word], Single, 1, Signed Temperature;
        Vcc: A0 Lower 0x00, 16 [word], Single, 1, Unsigned Voltage;
        Aux1: A0 Lower 0x00, 18 [word], Single, 1, Signed;
        Aux2: A0 Lower 0x00, 20 [word], Single, 1, Signed;
        Aux3: A0 Lower 0x00, 22 [word], Single, 1, Unsigned;
        ActiveFirmware: A0 Lower 0x00, 39 [byte], Every(1), 2, Unsigned;
        FaultCause: A0 Lower 0x00, 41 [byte], Single, 1, Unsigned;
        MediaType: A0 Lower 0x00, 85 [byte], Single, 1, Unsigned;
        AppHost: A0 Lower 0x00, 86 [byte], Every(4), 8, Unsigned;
        AppMedia: A0 Lower 0x00, 87 [byte], Every(4), 8, Unsigned;
        AppHostLanes: A0 Lower 0x00, 88 [7-4], Every(4), 8, Unsigned;
        AppMediaLanes: A0 Lower 0x00, 88 [3-0], Every(4), 8, Unsigned;
        AppHostStarts: A0 Lower 0x00, 89 [byte], Every(4), 8, Unsigned;
        IdCopy: A0 Upper 0x00, 128 [byte], Single, 1, Unsigned;
        Oui: A0 Upper 0x00, 145 [byte], Every(1), 3, Unsigned;
        PowerClass: A0 Upper 0x00, 200 [7-5], Single, 1, Unsigned;
        MaxPower: A0 Upper 0x00, 201 [byte], Single, 1, Unsigned ModulePower;
        LengthMultiplier: A0 Upper 0x00, 202 [7-6], Single, 1, Unsigned;
        LengthBase: A0 Upper 0x00, 202 [5-0], Single, 1, Unsigned;
        Connector: A0 Upper 0x00, 203 [byte], Single, 1, Unsigned;
        Attenuation: A0 Upper 0x00, 204 [byte], Every(1), 4, Unsigned;
        UnsupportedMedia: A0 Upper 0x00, 210 [byte], Single, 1, Unsigned;
        Technology: A0 Upper 0x00, 212 [byte], Single, 1, Unsigned;
        InactiveFirmware: A0 Upper 0x01, 128 [byte], Every(1), 2, Unsigned;
        Hardware: A0 Upper 0x01, 130 [byte], Every(1), 2, Unsigned;
        LengthSmfMultiplier: A0 Upper 0x01, 132 [7-6], Single, 1, Unsigned;
        LengthSmf: A0 Upper 0x01, 132 [5-0], Single, 1, Unsigned;
        Lengths: A0 Upper 0x01, 133 [byte], Every(1), 4, Unsigned;
        Wavelength: A0 Upper 0x01, 138 [word], Single, 1, Unsigned;
        WavelengthTolerance: A0 Upper 0x01, 140 [word], Single, 1, Unsigned;
        MaxDurationDPDeinit: A0 Upper 0x01, 144 [7-4], Single, 1, Unsigned;
        MaxDurationDPInit: A0 Upper 0x01, 144 [3-0], Single, 1, Unsigned;
        Cooled: A0 Upper 0x01, 145 [7-7], Single, 1, Unsigned;
        AuxKinds: A0 Upper 0x01, 145 [0-0], Bits, 3, Unsigned;
        TempRange: A0 Upper 0x01, 146 [byte], Every(1), 2, Unsigned;
        DetectorIsApd: A0 Upper 0x01, 151 [7-7], Single, 1, Unsigned;
        RxPowerIsAverage: A0 Upper 0x01, 151 [4-4], Single, 1, Unsigned;
        LaserControls: A0 Upper 0x01, 155 [6-6], Bits, 2, Unsigned;
        TxSquelchMethod: A0 Upper 0x01, 155 [5-4], Single, 1, Unsigned;
        TxControls: A0 Upper 0x01, 155 [0-0], Bits, 4, Unsigned;
        RxControls: A0 Upper 0x01, 156 [0-0], Bits, 3, Unsigned;
        TxFlags: A0 Upper 0x01, 157 [0-0], Bits, 4, Unsigned;
        RxFlags: A0 Upper 0x01, 158 [1-1], Bits, 2, Unsigned;
        ModuleMonitors: A0 Upper 0x01, 159 [0-0], Bits, 5, Unsigned;
        BiasMultiplier: A0 Upper 0x01, 160 [4-3], Single, 1, Unsigned;
        RxPowerMonitor: A0 Upper 0x01, 160 [2-2], Single, 1, Unsigned;
        TxPowerMonitor: A0 Upper 0x01, 160 [1-1], Single, 1, Unsigned;
        TxBiasMonitor: A0 Upper 0x01, 160 [0-0], Single, 1, Unsigned;
        TxSignalControls: A0 Upper 0x01, 161 [0-0], Bits, 5, Unsigned;
        RxEqControl: A0 Upper 0x01, 162 [4-3], Single, 1, Unsigned;
        RxSignalControls: A0 Upper 0x01, 162 [0-0], Bits, 3, Unsigned;
        MaxDurationModulePwrDn: A0 Upper 0x01, 167 [7-4], Single, 1, Unsigned;
        MaxDurationModulePwrUp: A0 Upper 0x01, 167 [3-0], Single, 1, Unsigned;
        MaxDurationDPTxTurnOff: A0 Upper 0x01, 168 [7-4], Single, 1, Unsigned;
        MaxDurationDPTxTurnOn: A0 Upper 0x01, 168 [3-0], Single, 1, Unsigned;
        MediaStarts: A0 Upper 0x01, 176 [byte], Every(1), 15, Unsigned;
        AppHostMore: A0 Upper 0x01, 223 [byte], Every(4), 7, Unsigned;
        AppMediaMore: A0 Upper 0x01, 224 [byte], Every(4), 7, Unsigned;
        AppHostLanesMore: A0 Upper 0x01, 225 [7-4], Every(4), 7, Unsigned;
        AppMediaLanesMore: A0 Upper 0x01, 225 [3-0], Every(4), 7, Unsigned;
        AppHostStartsMore: A0 Upper 0x01, 226 [byte], Every(4), 7, Unsigned;
        TempLimits: A0 Upper 0x02, 128 [word], Every(2), 4, Signed Temperature;
        VccLimits: A0 Upper 0x02, 136 [word], Every(2), 4, Unsigned Voltage;
        TxPowerLimits: A0 Upper 0x02, 176 [word], Every(2), 4, Unsigned OpticalPower;
        TxBiasLimits: A0 Upper 0x02, 184 [word], Every(2), 4, Unsigned Bias;
        RxPowerLimits: A0 Upper 0x02, 192 [word], Every(2), 4, Unsigned OpticalPower;
        RxOutputStatus: A0 Upper 0x11, 132 [0-0], Bits, 8, Unsigned;
        TxOutputStatus: A0 Upper 0x11, 133 [0-0], Bits, 8, Unsigned;
        TxPower: A0 Upper 0x11, 154 [word], Every(2), 8, Unsigned OpticalPower;
        TxBias: A0 Upper 0x11, 170 [word], Every(2), 8, Unsigned Bias;
        RxPower: A0 Upper 0x11, 186 [word], Every(2), 8, Unsigned OpticalPower;
    }
}
