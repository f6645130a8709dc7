ghost use Rattle.std.specs.Prelude.{◌≡◌, Some};
ghost use Rattle.std.specs.Option.{ok_or};
ghost use Rattle.module_states.specs.Codes.{code_of, state_at};
ghost use Rattle.module_states.specs.Names.{name_of};

use std::fmt;
use thiserror::Error;

/// The state of a module as a whole.
#[derive(Clone, Copy, Debug, PartialEq, Eq)]
pub enum ModuleState {
    LowPwr = 1,
    PwrUp = 2,
    Ready = 3,
    PwrDn = 4,
    Fault = 5,
}

/// Why a code is refused.
#[derive(Clone, Copy, Debug, PartialEq, Eq, Error)]
pub enum ModuleCodeFault {
    /// No state has this code.
    #[error("module state code {0} is reserved")]
    Reserved(u8),
}

impl ModuleState {
    /// The code that stands for the state in the module's memory.
    pub fn code(self) -> u8
        ensures { result ≡ code_of self }
    {
        self as u8
    }
}

/// The state by its name.
impl fmt::Display for ModuleState {
    ghost output = { λ state. Some (name_of state) };

    fn fmt<W: fmt::Write>(&self, f: &mut fmt::Formatter<W>) -> fmt::Result {
        f.write_str(match self {
            ModuleState::LowPwr => "ModuleLowPwr",
            ModuleState::PwrUp => "ModulePwrUp",
            ModuleState::Ready => "ModuleReady",
            ModuleState::PwrDn => "ModulePwrDn",
            ModuleState::Fault => "ModuleFault",
        })
    }
}

/// The state that a code stands for.
pub fn state_of(code: u8) -> Result<ModuleState, ModuleCodeFault>
    ensures { result ≡ ok_or (state_at code) (ModuleCodeFault.Reserved code) }
{
    match code {
        1 => Ok(ModuleState::LowPwr),
        2 => Ok(ModuleState::PwrUp),
        3 => Ok(ModuleState::Ready),
        4 => Ok(ModuleState::PwrDn),
        5 => Ok(ModuleState::Fault),
        _ => Err(ModuleCodeFault::Reserved(code)),
    }
}
