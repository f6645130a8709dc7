ghost use Rattle.std.specs.Prelude.{◌≡◌};
ghost use Rattle.lane_controls.specs.LaneRegisters as spec;

/// A control of page 10h that has one bit for each lane.
#[derive(Clone, Copy, Debug, PartialEq, Eq)]
pub enum LaneRegister {
    InputPolarityFlipTx,
    OutputDisableTx,
    AutoSquelchDisableTx,
    OutputSquelchForceTx,
    AdaptiveInputEqFreezeTx,
    OutputPolarityFlipRx,
    OutputDisableRx,
    AutoSquelchDisableRx,
}

impl LaneRegister {
    /// Its byte on page 10h.
    pub fn address(self) -> u8
        ensures { result ≡ spec.address_of self }
    {
        match self {
            LaneRegister::InputPolarityFlipTx => 129,
            LaneRegister::OutputDisableTx => 130,
            LaneRegister::AutoSquelchDisableTx => 131,
            LaneRegister::OutputSquelchForceTx => 132,
            LaneRegister::AdaptiveInputEqFreezeTx => 134,
            LaneRegister::OutputPolarityFlipRx => 137,
            LaneRegister::OutputDisableRx => 138,
            LaneRegister::AutoSquelchDisableRx => 139,
        }
    }

    /// Whether its lanes are those of the media side.
    pub fn is_media(self) -> bool
        ensures { result ≡ spec.is_media self }
    {
        matches!(
            self,
            LaneRegister::OutputDisableTx
                | LaneRegister::AutoSquelchDisableTx
                | LaneRegister::OutputSquelchForceTx
        )
    }
}
