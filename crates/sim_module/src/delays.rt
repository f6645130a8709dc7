ghost use Rattle.std.specs.Prelude.{◌≡◌};
ghost use Rattle.sim_module.specs.Starts as spec;

use datapath_states::PathState;
use module_states::ModuleState;

/// The longest delay in ticks.
pub const MAX_DELAY: u16 = 1000;

/// How many ticks each work of a module takes, 1 to 1000.
#[repr(C)]
#[derive(Clone, Copy, Debug, PartialEq, Eq)]
pub struct Delays {
    /// Applying staged control bytes.
    pub apply: u16,
    /// DPInit.
    pub init: u16,
    /// DPTxTurnOn.
    pub turn_on: u16,
    /// DPTxTurnOff.
    pub turn_off: u16,
    /// DPDeinit.
    pub deinit: u16,
    /// ModulePwrUp.
    pub power_up: u16,
    /// ModulePwrDn.
    pub power_down: u16,
}

impl Delays {
    ghost use Rattle.std.specs.Prelude.{◌≡◌};
    ghost use Rattle.sim_module.specs.Starts as spec;
    ghost use Rattle.sim_module.specs.Ticks.{module_delay, path_delay};

    // Whether each is 1 to 1000.
    pub(crate) fn are_allowed(self) -> bool
        ensures { result ≡ spec.are_delays self }
    {
        is_delay(self.apply)
            && is_delay(self.init)
            && is_delay(self.turn_on)
            && is_delay(self.turn_off)
            && is_delay(self.deinit)
            && is_delay(self.power_up)
            && is_delay(self.power_down)
    }

    // How long a path state that was just entered lasts.
    pub(crate) fn of_path(self, state: PathState) -> u16
        ensures { result ≡ path_delay self state }
    {
        match state {
            PathState::Init => self.init,
            PathState::TxTurnOn => self.turn_on,
            PathState::TxTurnOff => self.turn_off,
            PathState::Deinit => self.deinit,
            _ => 0,
        }
    }

    // How long a module state that was just entered lasts.
    pub(crate) fn of_module(self, state: ModuleState) -> u16
        ensures { result ≡ module_delay self state }
    {
        match state {
            ModuleState::PwrUp => self.power_up,
            ModuleState::PwrDn => self.power_down,
            _ => 0,
        }
    }
}

fn is_delay(delay: u16) -> bool
    ensures { result ≡ spec.is_delay delay }
{
    1 <= delay && delay <= MAX_DELAY
}
