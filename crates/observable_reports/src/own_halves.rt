// The halves of an image that its module has.
ghost use Rattle.std.specs.Prelude.{◌≡◌, ◌+◌, ◌<◌, ◌≤◌};
ghost use Rattle.std.specs.FinMap as map;
ghost use Rattle.paged_memory.specs.Images.{most_pages};
ghost use Rattle.observable_reports.specs.OwnHalves as spec;

use bus_model::Dev;
use module_details::lacks_diagnostics;
use paged_memory::{Family, Image, Key, Page, SmallImage};
use reports::is_flat_in;

/// Whether a module of this family has its lower half and page 00h alone.
pub fn has_no_more(family: Family, image: &Image) -> bool
    ensures { result ≡ spec.has_no_more family image.now }
{
    match family {
        Family::Sff8472 => lacks_diagnostics(image),
        Family::Cmis | Family::Sff8636 => is_flat_in(family, image),
    }
}

/// These two, as far as the image has them.
pub fn first_halves(image: &Image) -> SmallImage
    ensures { result ≡ spec.first_halves image.now }
{
    let mut first = SmallImage::new();
    take(&mut first, image, Key::lower(Dev::A0));
    take(&mut first, image, Key::upper(Dev::A0, 0, 0x00));
    first
}

// A half of an image, if it has it, beside others.
fn take(halves: &mut SmallImage, image: &Image, key: Key)
    requires { map.len halves.old < most_pages }
    ensures half { halves.new ≡ spec.with_half image.now key halves.old }
    ensures few { map.len halves.new ≤ map.len halves.old + 1 }
{
    if let Some(half) = image.page(key) {
        halves.put(key, Page::from(*half.bytes())).unwrap();
    }
}
