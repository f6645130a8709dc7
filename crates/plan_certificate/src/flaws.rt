// What is wrong with the paths of a plan.
ghost use Rattle.std.specs.Prelude.{◌≡◌, ◌↔◌, ◌≤◌, None, IfSome, length};
ghost use Rattle.field_tables.specs.FirstFault.{first_fault};
ghost use Rattle.plan_certificate.specs.Plans.{AreAllowed, IsAdmissible};
ghost use Rattle.plan_certificate.specs.Verdicts.{kept_flaws, path_flaws, lane_flaws, missing_flaws, paths_flaws, plan_flaws};

use crate::kept::{is_among, is_apart_from, may_join};
use crate::path::Path;
use crate::verdict::{Flaw, Reason};
use applications::Advert;

/// What is wrong with kept paths and with the plan that is to hold them.
pub fn paths_flaw(advert: &Advert, kept: &[Path], paths: &[Path]) -> Option<Flaw>
    ensures flaw { result ≡ first_fault (paths_flaws advert.now kept.now paths.now) }
    ensures kept { result ≡ None → IsAdmissible advert.now kept.now }
    ensures plan { result ≡ None → IsAdmissible advert.now paths.now }
{
    if let Some(flaw) = kept_flaw(advert, kept) {
        return Some(flaw);
    }
    if let Some(flaw) = plan_flaw(advert, paths) {
        return Some(flaw);
    }
    missing_flaw(kept, paths)
}

/// What is wrong with the paths of a plan.
pub fn plan_flaw(advert: &Advert, paths: &[Path]) -> Option<Flaw>
    ensures flaw { result ≡ first_fault (plan_flaws advert.now paths.now) }
    ensures none { (result ≡ None) ↔ IsAdmissible advert.now paths.now }
{
    if let Some(flaw) = path_flaw(advert, paths) {
        return Some(flaw);
    }
    lane_flaw(advert, paths)
}

// The first path that the module can't carry.
fn path_flaw(advert: &Advert, paths: &[Path]) -> Option<Flaw>
    ensures { result ≡ first_fault (path_flaws advert.now paths.now) }
{
    for (place, path) in paths.iter().enumerate() {
        if !path.is_allowed(advert) {
            return Some(Flaw {
                reason: Reason::PathNotAllowed,
                number: place + 1,
            });
        }
    }
    None
}

// The first path that takes a lane of a path before it.
fn lane_flaw(advert: &Advert, paths: &[Path]) -> Option<Flaw>
    requires { AreAllowed advert.now paths.now }
    ensures { result ≡ first_fault (lane_flaws advert.now paths.now) }
{
    for (place, path) in paths.iter().enumerate() {
        if !is_apart_from(advert, &paths[..place], *path) {
            return Some(Flaw {
                reason: Reason::LaneTwice,
                number: place + 1,
            });
        }
    }
    None
}

/// The first kept path that isn't allowed or shares a lane with an earlier one.
pub fn kept_flaw(advert: &Advert, kept: &[Path]) -> Option<Flaw>
    ensures flaw { result ≡ first_fault (kept_flaws advert.now kept.now) }
    ensures none { (result ≡ None) ↔ IsAdmissible advert.now kept.now }
    ensures within { IfSome result (λ flaw. flaw.number ≤ length kept.now) }
{
    for (place, path) in kept.iter().enumerate() {
        if !may_join(advert, &kept[..place], *path) {
            return Some(Flaw {
                reason: Reason::KeptNotAdmissible,
                number: place + 1,
            });
        }
    }
    None
}

// The first kept path that the plan lacks.
fn missing_flaw(kept: &[Path], paths: &[Path]) -> Option<Flaw>
    ensures { result ≡ first_fault (missing_flaws kept.now paths.now) }
{
    for (place, path) in kept.iter().enumerate() {
        if !is_among(paths, *path) {
            return Some(Flaw {
                reason: Reason::KeptMissing,
                number: place + 1,
            });
        }
    }
    None
}
