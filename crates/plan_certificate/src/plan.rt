use crate::flaws::{kept_flaw, plan_flaw};
use crate::path::Path;
use applications::{Advert, AppWeights};
use arrayvec::ArrayVec;
use std::marker::Model;

/// How many data paths a plan has at most: each takes a host lane of its own.
pub const MAX_PATHS: usize = 8;

/// A division of a module's lanes into data paths.
#[derive(Debug, Drop)]
pub struct Plan {
    pub paths: ArrayVec<Path, MAX_PATHS>,
}

impl Model for Plan {
    ghost use Rattle.std.specs.Prelude.{List};
    ghost use Rattle.plan_certificate.specs.declared.path.Path.{Path};

    ghost Value = { List Path };

    ghost view = { λ plan. plan.paths.items };
}

ghost use Rattle.std.specs.Prelude.{◌≡◌, ◌↔◌, IsTrue, None};
ghost use Rattle.plan_certificate.specs.Plans.{IsAdmissible, plan_weight};
ghost use Rattle.plan_certificate.specs.Verdicts.{kept_fault};

/// Whether the module can carry the plan: its paths are allowed, and no two share a lane.
pub fn admissible(advert: &Advert, plan: &Plan) -> bool
    ensures { IsTrue result ↔ IsAdmissible advert.now plan.now }
{
    plan_flaw(advert, plan.paths.as_slice()).is_none()
}

/// The number from 1 of the first path that isn't allowed or shares a lane with an earlier one.
pub fn kept_fault(advert: &Advert, kept: &Plan) -> Option<u8>
    ensures fault { result ≡ kept_fault advert.now kept.now }
    ensures none { (result ≡ None) ↔ IsAdmissible advert.now kept.now }
{
    match kept_flaw(advert, kept.paths.as_slice()) {
        Some(flaw) => Some(flaw.number as u8),
        None => None,
    }
}

/// What a plan weighs.
pub fn weight_of(weights: &AppWeights, plan: &Plan) -> u64
    ensures { result ≡ plan_weight weights.now plan.now }
{
    let mut weight = 0;
    for path in plan.paths.as_slice() {
        weight += path.weight(weights);
    }
    weight
}
