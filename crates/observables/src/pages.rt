// The pages that a reading of observables needs.
ghost use Rattle.std.specs.Prelude.{◌≡◌, ◌<◌, ◌≤◌, length};
ghost use Rattle.observables.specs.Pages as spec;

use crate::words::{byte_in, page_of};
use bus_model::Dev;
use field_tables::{field, number};
use paged_memory::{Family, Image, Key};

/// Whether the module is managed by CMIS: those of other families have other things on pages 01h and 20h to 2Fh.
pub fn is_cmis(image: &Image) -> bool
    ensures { result ≡ spec.is_cmis image.now }
{
    Family::managing(number(image, field!(Cmis Identifier))) == Some(Family::Cmis)
}

/// The first page of a bank that the image of a CMIS module lacks of those that have observables: byte 142 of page 01h has
/// whether there are any, page 2Fh how many groups there are.
pub fn absent_page(image: &Image, bank: u8) -> Option<Key>
    ensures { result ≡ spec.absent_page image.now bank }
{
    if is_cmis(image) {
        first_absent(image, bank, advertised_pages(image, bank))
    } else {
        None
    }
}

/// The pages of a bank that have observables, as byte 142 of page 01h and byte 128 of page 2Fh advertise them: page 2Fh alone if
/// the image lacks it.
pub fn advertised_pages(image: &Image, bank: u8) -> &'static [u8]
    ensures value { result.now ≡ spec.pages image.now bank }
    ensures few { length result.now ≤ 13 }
{
    if !has_observables(image) {
        return &[];
    }
    match groups(image, bank) {
        None => &[0x2F],
        Some(0) => &[0x20, 0x28, 0x24, 0x2C],
        Some(1) => &[0x20, 0x21, 0x28, 0x29, 0x24, 0x25, 0x2C],
        Some(2) => &[0x20, 0x21, 0x22, 0x28, 0x29, 0x2A, 0x24, 0x25, 0x26, 0x2C],
        Some(_) => &[
            0x20, 0x21, 0x22, 0x23, 0x28, 0x29, 0x2A, 0x2B, 0x24, 0x25, 0x26, 0x27, 0x2C,
        ],
    }
}

/// Whether the module advertises pages 20h to 2Fh.
pub fn has_observables(image: &Image) -> bool
    ensures { result ≡ spec.has_observables image.now }
{
    match page_of(image, 0, 0x01) {
        None => false,
        Some(page) => byte_in(page.bytes(), 142) / 64 % 2 == 1,
    }
}

// One less than how many groups there are.
fn groups(image: &Image, bank: u8) -> Option<u8>
    ensures { result ≡ spec.groups image.now bank }
{
    let page = page_of(image, bank, 0x2F)?;
    Some(byte_in(page.bytes(), 128) % 4)
}

#[tactic(auto, unfolding(crate::specs::Pages::first_absent))]
fn first_absent(image: &Image, bank: u8, pages: &[u8]) -> Option<Key>
    ensures { result ≡ spec.first_absent pages.now bank image.now }
{
    for page in pages {
        let key = Key::upper(Dev::A0, bank, *page);
        if !image.has(key) {
            return Some(key);
        }
    }
    None
}
