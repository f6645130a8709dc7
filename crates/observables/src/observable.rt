ghost use Rattle.std.specs.Prelude.{◌≡◌};
ghost use Rattle.observables.specs.Observables as spec;

use crate::quantity::Quantity;

/// Which figure of a quantity is meant: its value now, or one of the statistics of an interval.
#[derive(Clone, Copy, Debug, PartialEq, Eq)]
pub enum Figure {
    Now = 1,
    Minimum = 2,
    Maximum = 3,
    Average = 4,
    /// The sample that came last.
    Current = 5,
}

/// Whose signal is observed.
#[derive(Clone, Copy, Debug, PartialEq, Eq)]
pub enum Side {
    Media = 1,
    Host = 2,
}

/// What is observed.
#[derive(Clone, Copy, Debug, PartialEq, Eq)]
pub struct Observable {
    pub quantity: Quantity,
    pub figure: Figure,
    pub side: Side,
}

macro_rules! types {
    ($kind:ident; $($number:literal: $quantity:ident $figure:ident $side:ident;)*) => {
        match $kind {
            $($number => Some(Observable {
                quantity: Quantity::$quantity,
                figure: Figure::$figure,
                side: Side::$side,
            }),)*
            _ => None,
        }
    };
}

/// The observable that a type of pages 20h to 23h stands for, if it is one of those that are decoded.
pub fn observable_of(kind: u8) -> Option<Observable>
    ensures { result ≡ spec.observable_of kind }
{
    types! { kind;
        1: LaserAge Now Media;
        2: TecCurrentShare Now Media;
        3: LaserFrequencyError Now Media;
        4: LaserTemperature Now Media;
        5: SignalToNoise Now Media;
        6: SignalToNoise Now Host;
        7: LevelTransition Now Media;
        8: LevelTransition Now Host;
        9: PreFecBer Minimum Media;
        10: PreFecBer Minimum Host;
        11: PreFecBer Maximum Media;
        12: PreFecBer Maximum Host;
        13: PreFecBer Average Media;
        14: PreFecBer Average Host;
        15: PreFecBer Current Media;
        16: PreFecBer Current Host;
        17: ErroredFrames Minimum Media;
        18: ErroredFrames Minimum Host;
        19: ErroredFrames Maximum Media;
        20: ErroredFrames Maximum Host;
        21: ErroredFrames Average Media;
        22: ErroredFrames Average Host;
        23: ErroredFrames Current Media;
        24: ErroredFrames Current Host;
        128: ModulatorBiasXI Now Media;
        129: ModulatorBiasXQ Now Media;
        130: ModulatorBiasYI Now Media;
        131: ModulatorBiasYQ Now Media;
        132: ModulatorBiasXPhase Now Media;
        133: ModulatorBiasYPhase Now Media;
        134: DispersionShortLink Now Media;
        135: DispersionLongLink Now Media;
        136: GroupDelay Now Media;
        137: SecondOrderPmd Now Media;
        138: PolarizationLoss Now Media;
        139: OpticalSignalToNoise Now Media;
        140: ElectricalSignalToNoise Now Media;
        141: CarrierFrequencyOffset Now Media;
        142: ErrorVector Now Media;
        143: TransmittedLevel Now Media;
        144: ReceivedTotalLevel Now Media;
        145: ReceivedSignalLevel Now Media;
        146: PolarizationChange Now Media;
        147: ModulationErrorRatio Now Media;
    }
}
