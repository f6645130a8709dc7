ghost use Rattle.std.specs.Prelude.{◌≡◌, IsTrue};
ghost use Rattle.field_tables.specs.Registers.{register_fits, span_of};

use crate::field::Register;
use crate::spans::Span;
use bus_model::Dev;
use paged_memory::Half;

macro_rules! registers {
    ($register:ident; $($name:ident: $dev:ident $half:ident $page:literal, $first:literal - $last:literal;)*) => {
        match $register {
            $(Register::$name => Span {
                dev: Dev::$dev,
                half: Half::$half,
                page: $page,
                first: $first,
                last: $last,
            },)*
        }
    };
}

/// The bytes of a register in the memory map of its standard.
pub fn register(register: Register) -> Span
    ensures span { result ≡ span_of register }
    ensures fits { IsTrue (register_fits result) }
{
    // device, half and page, first and last byte
    registers! { register;
        GlobalStatus: A0 Lower 0x00, 3-3;
        ModuleFlags: A0 Lower 0x00, 9-9;
        GlobalControls: A0 Lower 0x00, 26-26;
        PageMapping: A0 Lower 0x00, 126-127;
        DPDeinit: A0 Upper 0x10, 128-128;
        ApplyDPInit: A0 Upper 0x10, 143-143;
        StagedControl: A0 Upper 0x10, 145-152;
        PathStates: A0 Upper 0x11, 128-131;
        LaneFlags: A0 Upper 0x11, 134-152;
        ConfigStatus: A0 Upper 0x11, 202-205;
        ActiveControl: A0 Upper 0x11, 206-213;
    }
}
