use field_tables::{LaneNumber, field, number_in_byte};

/// What the control byte of a host lane says, but for ExplicitControl.
#[derive(Clone, Copy, Debug, PartialEq, Eq)]
pub struct ControlByte {
    /// The Application's number, or 0 if the lane is in no path.
    pub app_sel_code: u8,
    /// The first host lane of the path, less one.
    pub data_path_id: u8,
}

impl ControlByte {
    ghost use Rattle.std.specs.Prelude.{◌≡◌, ◌<◌};
    ghost use Rattle.control_sets.specs.ControlBytes.{byte_saying};
    ghost use Rattle.control_sets.specs.HostPaths as spec;

    /// The byte that says this, ExplicitControl 0.
    pub fn byte(self) -> u8
        requires code { self.app_sel_code < 16 }
        requires lane { self.data_path_id < 8 }
        ensures { result ≡ byte_saying self }
    {
        16 * self.app_sel_code + 2 * self.data_path_id
    }

    /// Whether the lane is in a path.
    pub fn is_used(self) -> bool
        ensures { result ≡ spec.is_used self }
    {
        self.app_sel_code != 0
    }

    /// The first host lane of the path.
    pub fn first_lane(self) -> LaneNumber
        requires { self.data_path_id < 8 }
        ensures { result ≡ spec.first_lane self }
    {
        LaneNumber::at(self.data_path_id)
    }
}

impl From<u8> for ControlByte {
    ghost use Rattle.std.specs.Prelude.{◌≡◌};
    ghost use Rattle.control_sets.specs.ControlBytes.{control_of};

    ghost from_gives = { λ byte control. control ≡ control_of byte };

    fn from(byte: u8) -> ControlByte {
        ControlByte {
            app_sel_code: number_in_byte(field!(Cmis StagedAppSel), byte),
            data_path_id: number_in_byte(field!(Cmis StagedPathId), byte),
        }
    }
}
