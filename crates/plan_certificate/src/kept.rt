// What a plan may hold beside the paths that it keeps.
ghost use Rattle.std.specs.Prelude.{◌≡◌, true};
ghost use Rattle.plan_certificate.specs.Paths.{app_of, is_allowed, may_begin};
ghost use Rattle.plan_certificate.specs.Plans.{AreAllowed};
ghost use Rattle.plan_certificate.specs.KeptPaths as spec;

use crate::path::Path;
use applications::{Advert, App};

/// Whether one of the paths is this one.
pub fn is_among(paths: &[Path], path: Path) -> bool
    ensures { result ≡ spec.is_among paths.now path }
{
    for other in paths {
        if is_path(path, other) {
            return true;
        }
    }
    false
}

fn is_path(path: Path, other: &Path) -> bool
    ensures { result ≡ spec.is_path path other.now }
{
    other.app == path.app && other.host == path.host && other.media == path.media
}

/// Whether the path shares no lane with any of the others.
pub fn is_apart_from(advert: &Advert, others: &[Path], path: Path) -> bool
    requires path { is_allowed advert.now path ≡ true }
    requires others { AreAllowed advert.now others.now }
    ensures { result ≡ spec.is_apart_from advert.now others.now path }
{
    for other in others {
        if !other.is_apart(path, advert) {
            return false;
        }
    }
    true
}

/// Whether the path is allowed and shares no lane with any of the others.
pub fn may_join(advert: &Advert, others: &[Path], path: Path) -> bool
    requires { AreAllowed advert.now others.now }
    ensures { result ≡ spec.may_join advert.now others.now path }
{
    path.is_allowed(advert) && is_apart_from(advert, others, path)
}

/// Whether the host lane is one of none of the kept paths.
pub fn may_stay_free(advert: &Advert, kept: &[Path], lane: u8) -> bool
    requires { AreAllowed advert.now kept.now }
    ensures { result ≡ spec.may_stay_free advert.now kept.now lane }
{
    for path in kept {
        if path.host_lanes(advert).contains(lane) {
            return false;
        }
    }
    true
}

/// Whether a plan that keeps the first paths may hold the last one, given its Application and whether that may begin at the path's
/// host lane.
#[tactic(auto, unfolding(crate::specs::Paths::is_allowed))]
pub fn is_eligible_as(advert: &Advert, kept: &[Path], app: &App, begins: bool, path: Path) -> bool
    requires kept { AreAllowed advert.now kept.now }
    requires app { app.now ≡ app_of advert.now path }
    requires begins { begins ≡ may_begin app.now path.host }
    ensures { result ≡ spec.is_eligible advert.now kept.now path }
{
    begins
        && path.may_take(app, advert)
        && (is_among(kept, path) || is_apart_from(advert, kept, path))
}
