ghost use Rattle.std.specs.Prelude.{◌≡◌, ◌<◌, []};
ghost use Rattle.std.specs.List.{All, AllPairs};
ghost use Rattle.plan_certificate.specs.Paths.{path_weight};
ghost use Rattle.plan_certificate.specs.Plans.{IsAdmissible};
ghost use Rattle.plan_certificate.specs.Certificates.{Claim};
ghost use Rattle.lane_planner.specs.CertifiedPlans.{IsCertified};
ghost use Rattle.lane_planner.specs.FirstBest.{IsFirstBest};

use crate::problem::Problem;
use crate::solution::Solution;
use applications::{Advert, AppWeights};
use arrayvec::ArrayVec;
use plan_certificate::{Certificate, Plan, STATES};

/// The first plan of those that weigh most, with what can still be gained from each state that decisions from the start reach.
pub fn plan(advert: &Advert, weights: &AppWeights) -> Certificate<'static, STATES>
    ensures certified { IsCertified advert.now weights.now [] result }
    ensures weighing { All (λ path. 0 < path_weight weights.now path) result.paths }
{
    let nothing = Plan {
        paths: ArrayVec::new(),
    };
    plan_keeping(advert, weights, &nothing)
}

/// As `plan`, of the plans that hold the kept paths.
pub fn plan_keeping(
    advert: &Advert,
    weights: &AppWeights,
    kept: &Plan,
) -> Certificate<'static, STATES>
    requires { IsAdmissible advert.now kept.now }
    ensures { IsCertified advert.now weights.now kept.now result }
{
    let problem = Problem {
        advert,
        weights,
        kept,
    };
    let mut solution = Solution::blank();
    solution.solve(&problem);
    solution.certificate(&problem)
}

/// The plan of `plan_keeping`, without its certificate. Not inlined, or the room for the solution would be a part of its callers'.
#[inline(never)]
pub fn first_plan(advert: &Advert, weights: &AppWeights, kept: &Plan) -> Plan
    requires { IsAdmissible advert.now kept.now }
    ensures certified { (certificate : Claim) × IsCertified advert.now weights.now kept.now certificate × (certificate.paths ≡ result) }
    ensures first { IsFirstBest advert.now weights.now kept.now result }
    ensures rising { AllPairs (λ path later. path.host < later.host) result }
{
    let problem = Problem {
        advert,
        weights,
        kept,
    };
    let mut solution = Solution::blank();
    solution.solve(&problem);
    solution.plan
}
