ghost use Rattle.std.specs.Prelude.{◌≡◌, ◌≢◌};
ghost use Rattle.control_sets.specs.Durations.{patience_for};
ghost use Rattle.firmware_api.specs.Halves.{memory_of, module_refusal};
ghost use Rattle.firmware_api.specs.Patiences as spec;
ghost use Rattle.firmware_api.specs.Statuses.{done, status_by};

use crate::half::{HalfBytes, image_of, read_advert};
use crate::status::DONE;

/// How patient a conversation is with a module, in milliseconds.
#[repr(C)]
#[derive(Clone, Copy)]
pub struct Patience {
    /// From a fruitless transaction to the next one.
    pub pause: u32,
    /// For how long such pauses may last while nothing else is done; no end with `u32::MAX`.
    pub limit: u32,
    /// 0 if nothing is known of the page selection after a refusal.
    pub trusts: u8,
}

impl Patience {
    pub fn given(&self) -> conversations::Patience
        ensures { result ≡ spec.given self.now }
    {
        conversations::Patience {
            pause: self.pause,
            limit: self.limit,
        }
    }

    pub fn doubts(&self) -> bool
        ensures { result ≡ spec.doubts self.now }
    {
        self.trusts == 0
    }
}

/// Puts into `patience` what suits the module whose memory has these halves.
#[unsafe(no_mangle)]
pub extern "C" fn dovecounter_patience(halves: &[HalfBytes], patience: &mut Patience) -> u32
    ensures status { result ≡ status_by (module_refusal halves.now) }
    ensures done { result ≡ done → patience.new ≡ spec.patience_of (patience_for (memory_of halves.now)) }
    ensures refused { result ≢ done → patience.new ≡ patience.old }
{
    match read_advert(halves) {
        Ok(_advert) => {
            let given = control_sets::patience_for(&image_of(halves).view());
            *patience = Patience {
                pause: given.pause,
                limit: given.limit,
                trusts: 0,
            };
            DONE
        }
        Err(status) => status,
    }
}
