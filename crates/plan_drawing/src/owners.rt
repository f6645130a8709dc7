// Which path of a plan takes a lane.
ghost use Rattle.std.specs.Prelude.{◌≡◌, ◌≤◌, true, length};
ghost use Rattle.plan_certificate.specs.Paths.{is_allowed};
ghost use Rattle.plan_certificate.specs.Plans.{AreAllowed};
ghost use Rattle.plan_drawing.specs.Owners.{lanes_on, owner_from, owners};

use applications::Advert;
use field_tables::LaneSet;
use plan_certificate::Path;
use std::array;

/// A side of the module.
#[derive(Clone, Copy, Debug, PartialEq, Eq)]
pub enum Side {
    Host,
    Media,
}

/// The numbers of the paths that take lanes 1 to 8 of a side, 0 for a lane that none takes.
#[tactic(auto, unfolding(crate::specs::Owners::owners))]
pub fn owners(advert: &Advert, side: Side, paths: &[Path]) -> [u8; 8]
    requires allowed { AreAllowed advert.now paths.now }
    requires few { length paths.now ≤ 8 }
    ensures { result ≡ owners (lanes_on side advert.now) paths.now }
{
    array::from_fn(|index| owner_of(advert, side, paths, index as u8 + 1))
}

#[tactic(auto, unfolding(crate::specs::Owners::owner_from))]
fn owner_of(advert: &Advert, side: Side, paths: &[Path], lane: u8) -> u8
    requires allowed { AreAllowed advert.now paths.now }
    requires few { length paths.now ≤ 8 }
    ensures { result ≡ owner_from (lanes_on side advert.now) lane 1 paths.now }
{
    for (index, path) in paths.iter().enumerate() {
        if lanes_on(side, advert, *path).contains(lane) {
            return index as u8 + 1;
        }
    }
    0
}

fn lanes_on(side: Side, advert: &Advert, path: Path) -> LaneSet
    requires { is_allowed advert.now path ≡ true }
    ensures { result ≡ lanes_on side advert.now path }
{
    match side {
        Side::Host => path.host_lanes(advert),
        Side::Media => path.media_lanes(advert),
    }
}
