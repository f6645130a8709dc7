// The banks of a CMIS module whose lanes follow those of bank 0.
ghost use Rattle.std.specs.Prelude.{◌≡◌, IsTrue};
ghost use Rattle.report_entries.specs.Banks as spec;

use bus_model::Dev;
use observables::bank_count;
use paged_memory::{Image, Key};

/// The banks after bank 0 that page 01h of a CMIS module advertises, up to the first whose page 11h is absent; none if its memory is
/// flat.
#[tactic(auto, unfolding(crate::specs::Banks::further_banks))]
pub fn further_banks(image: &Image, flat: bool) -> &'static [u8]
    ensures banks { result.now ≡ spec.further_banks flat image.now }
    ensures few { IsTrue (spec.are_banks result.now) }
{
    if flat || !has_lanes(image, 1) {
        &[]
    } else if !has_lanes(image, 2) {
        &[1]
    } else if !has_lanes(image, 3) {
        &[1, 2]
    } else {
        &[1, 2, 3]
    }
}

fn has_lanes(image: &Image, bank: u8) -> bool
    ensures { result ≡ spec.has_lanes image.now bank }
{
    bank < bank_count(image) && image.has(Key::upper(Dev::A0, bank, 0x11))
}
