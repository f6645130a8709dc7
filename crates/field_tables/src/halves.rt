ghost use Rattle.std.specs.Prelude.{◌≡◌, IfErr, IfOk, None, OnErr, Some};
ghost use Rattle.std.specs.FinMap as map;
ghost use Rattle.paged_memory.specs.Images.{place_in_half};
ghost use Rattle.field_tables.specs.Halves.{absent, half_key};

use crate::fault::FieldFault;
use bus_model::Dev;
use paged_memory::{Half, Image, Key, PAGE_LEN, Page};

/// The key of a half, of an upper half the one that shows a page of bank 0.
pub fn key_of(dev: Dev, half: Half, page: u8) -> Key
    ensures { result ≡ half_key dev half page }
{
    match half {
        Half::Lower => Key::lower(dev),
        Half::Upper => Key::upper(dev, 0, page),
    }
}

/// The bytes of a half.
pub fn half_of<'a>(image: &Image<'a>, key: Key) -> Result<&'a Page, FieldFault>
    ensures found { IfOk result (λ page. map.get image.now key ≡ Some page.now) }
    ensures missing { OnErr result (map.get image.now key ≡ None) }
    ensures fault { IfErr result (λ fault. fault ≡ absent key) }
{
    image.page(key).ok_or(FieldFault { absent: key })
}

/// Where a half has the byte of an address.
pub fn index_in_half(address: usize) -> usize
    ensures { result ≡ place_in_half address }
{
    if address < PAGE_LEN {
        address
    } else {
        address - PAGE_LEN
    }
}
