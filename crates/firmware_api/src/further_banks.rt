ghost use Rattle.std.specs.Prelude.{◌≡◌, ◌≢◌};
ghost use Rattle.firmware_api.specs.FurtherBanks as spec;
ghost use Rattle.firmware_api.specs.Halves.{memory_of};
ghost use Rattle.firmware_api.specs.SimulatedModules.{half_refusal};
ghost use Rattle.firmware_api.specs.Statuses.{done, status_by};

use crate::half::{HalfBytes, half_status, image_of};
use crate::status::DONE;
use module_decoding::{detail_family_of, is_flat};
use module_reading::Request;
use observables::bank_count;
use paged_memory::{Family, Image};

/// Puts into `requested` what a reading is to request for the lanes above 8 of the module whose memory has these halves, or 0 if nothing is
/// to be read for them.
#[unsafe(no_mangle)]
pub extern "C" fn dovecounter_further_banks(halves: &[HalfBytes], requested: &mut u8) -> u32
    ensures status { result ≡ status_by (half_refusal halves.now) }
    ensures done { result ≡ done → requested.new ≡ spec.further_banks (memory_of halves.now) }
    ensures refused { result ≢ done → requested.new ≡ requested.old }
{
    let status = half_status(halves);
    if status == DONE {
        *requested = further_banks(&image_of(halves).view());
    }
    status
}

fn further_banks(image: &Image) -> u8
    ensures { result ≡ spec.further_banks image.now }
{
    match detail_family_of(image) {
        Ok(family) => banks_of_family(family, image),
        Err(_fault) => 0,
    }
}

fn banks_of_family(family: Family, image: &Image) -> u8
    ensures { result ≡ spec.banks_of_family family image.now }
{
    match family {
        Family::Cmis => requested_of(is_flat(image), bank_count(image)),
        _ => 0,
    }
}

// Of a CMIS module with flat memory or with pages, and with so many banks.
fn requested_of(flat: bool, banks: u8) -> u8
    ensures { result ≡ spec.requested_of flat banks }
{
    if flat || banks < 2 {
        0
    } else {
        Request::of_banks(banks).halves
    }
}
