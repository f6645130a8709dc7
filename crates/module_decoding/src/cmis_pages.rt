// The pages of a CMIS module that have what is told of it.
ghost use Rattle.std.specs.Prelude.{◌≡◌};
ghost use Rattle.module_decoding.specs.CmisPages as spec;
ghost use Rattle.module_decoding.specs.CmisPages.{absent_page, detail_pages, is_flat};

use bus_model::Dev;
use field_tables::{bit, field};
use paged_memory::{Image, Key};

/// Whether a CMIS module has no pages but 00h.
pub fn is_flat(image: &Image) -> bool
    ensures { result ≡ is_flat image.now }
{
    bit(image, field!(Cmis FlatMemory))
}

/// The first page that the image lacks of those that have all that the module says of itself.
pub fn absent_detail_page(image: &Image) -> Option<Key>
    ensures { result ≡ absent_page (detail_pages image.now) image.now }
{
    if is_flat(image) {
        absent_page(image, &[0x00])
    } else {
        absent_page(image, &[0x00, 0x01, 0x11])
    }
}

/// Those that are needed of a module that has more than page 00h.
pub fn unless_flat(image: &Image, pages: &'static [u8]) -> &'static [u8]
    ensures { result.now ≡ spec.unless_flat (is_flat image.now) pages.now }
{
    if is_flat(image) { &[] } else { pages }
}

/// The first of these pages of bank 0 that the image lacks.
#[tactic(auto, unfolding(crate::specs::CmisPages::absent_page))]
pub fn absent_page(image: &Image, pages: &[u8]) -> Option<Key>
    ensures { result ≡ absent_page pages.now image.now }
{
    for page in pages {
        let key = Key::upper(Dev::A0, 0, *page);
        if !image.has(key) {
            return Some(key);
        }
    }
    None
}
