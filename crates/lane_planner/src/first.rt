ghost use Rattle.std.specs.Prelude.{◌↔◌, Contains, IsTrue};
ghost use Rattle.plan_certificate.specs.declared.path.Path.{Path};
ghost use Rattle.plan_certificate.specs.Certificates.{IsGood};
ghost use Rattle.lane_planner.specs.FirstBest.{HaveSamePaths, IsFirstBest};

use crate::planner::first_plan;
use applications::{Advert, AppWeights};
use plan_certificate::{Certificate, Path};

/// Whether the plan of a good certificate has the paths of the one that `first_plan` gives for what it keeps, in whatever
/// order.
pub fn first_best<const STATES: usize>(
    advert: &Advert,
    weights: &AppWeights,
    certificate: &Certificate<'_, STATES>,
) -> bool
    requires { IsGood advert.now weights.now certificate.now }
    ensures { IsTrue result ↔ IsFirstBest advert.now weights.now certificate.now.kept certificate.now.paths }
{
    let first = first_plan(advert, weights, &certificate.kept);
    have_same_paths(certificate.plan.paths.as_slice(), first.paths.as_slice())
}

fn have_same_paths(paths: &[Path], others: &[Path]) -> bool
    ensures { IsTrue result ↔ HaveSamePaths paths.now others.now }
{
    has_all(paths, others) && has_all(others, paths)
}

fn has_all(paths: &[Path], others: &[Path]) -> bool
    ensures { IsTrue result ↔ ((path : Path) → Contains others.now path → Contains paths.now path) }
{
    others.iter().all(|other| paths.contains(other))
}
