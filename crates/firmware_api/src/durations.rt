ghost use Rattle.std.specs.Prelude.{◌≡◌, ◌≢◌};
ghost use Rattle.firmware_api.specs.Durations.{durations_of, longest};
ghost use Rattle.firmware_api.specs.Halves.{memory_of, module_refusal};
ghost use Rattle.firmware_api.specs.Statuses.{done, status_by};

use crate::half::{HalfBytes, image_of, read_advert};
use crate::status::DONE;
use control_sets::longest_duration;
use field_tables::{field, number};
use paged_memory::Image;

/// How long states of a module and of its data paths last at most, in milliseconds; `u32::MAX` if it does not say.
#[repr(C)]
#[derive(Clone, Copy)]
pub struct Durations {
    pub module_power_up: u32,
    pub module_power_down: u32,
    pub path_init: u32,
    pub path_deinit: u32,
    pub path_tx_turn_on: u32,
    pub path_tx_turn_off: u32,
}

/// Puts into `durations` how long states of the module whose memory has these halves last at most.
#[unsafe(no_mangle)]
pub extern "C" fn dovecounter_durations(halves: &[HalfBytes], durations: &mut Durations) -> u32
    ensures status { result ≡ status_by (module_refusal halves.now) }
    ensures done { result ≡ done → durations.new ≡ durations_of (memory_of halves.now) }
    ensures refused { result ≢ done → durations.new ≡ durations.old }
{
    match read_advert(halves) {
        Ok(_advert) => {
            put_durations(&image_of(halves).view(), durations);
            DONE
        }
        Err(status) => status,
    }
}

fn put_durations(image: &Image, durations: &mut Durations)
    ensures { durations.new ≡ durations_of image.now }
{
    durations.module_power_up = longest(number(image, field!(Cmis MaxDurationModulePwrUp)));
    durations.module_power_down = longest(number(image, field!(Cmis MaxDurationModulePwrDn)));
    durations.path_init = longest(number(image, field!(Cmis MaxDurationDPInit)));
    durations.path_deinit = longest(number(image, field!(Cmis MaxDurationDPDeinit)));
    durations.path_tx_turn_on = longest(number(image, field!(Cmis MaxDurationDPTxTurnOn)));
    durations.path_tx_turn_off = longest(number(image, field!(Cmis MaxDurationDPTxTurnOff)));
}

// The end of the range that a code of durations stands for, in milliseconds.
fn longest(code: u8) -> u32
    ensures { result ≡ longest code }
{
    longest_duration(code).unwrap_or(u32::MAX)
}
