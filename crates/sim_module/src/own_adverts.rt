ghost use Rattle.std.specs.Prelude.{◌≡◌, MatchOption};
ghost use Rattle.applications.specs.Refusals.{advert_fault};
ghost use Rattle.sim_module.specs.OwnAdverts as spec;

use applications::{Advert, AdvertFault, Conventions};
use paged_memory::Image;

/// What the module of an image goes by itself: its lane counts of 0 are those that the interface IDs imply.
pub fn own_advert(image: &Image) -> Result<Advert, AdvertFault>
    ensures { MatchOption (advert_fault image.now) (result ≡ Ok (spec.own_advert image.now)) (λ fault. result ≡ Err fault) }
{
    let conventions = Conventions {
        paired: false,
        counts_by_id: true,
        now: false,
    };
    Advert::under(conventions, image)
}
