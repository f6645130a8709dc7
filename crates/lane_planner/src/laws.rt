//! What holds of first best plans, over all advertisements and weights.
ghost use Rattle.std.specs.Prelude.{◌≡◌, List, ℕ};
ghost use Rattle.applications.specs.Advertised.{Advertised};
ghost use Rattle.applications.specs.AppWeights.{PathWeights};
ghost use Rattle.plan_certificate.specs.declared.path.Path.{Path};
ghost use Rattle.lane_planner.specs.CertifiedPlans.{IsPlanText};
ghost use Rattle.lane_planner.specs.FirstBest.{ComesBefore, HaveSamePaths, IsFirstBest};

/// There is one first best plan at most, but for the order of its paths. That there is one, `plan_keeping` shows by
/// giving it.
pub fn one_first_best()
    ensures { (advert : Advertised) (weights : PathWeights) (kept paths others : List Path)
        → IsFirstBest advert weights kept paths → IsFirstBest advert weights kept others → HaveSamePaths paths others }
{}

/// The certificate of the plan has one text: what `certificate_text` answers is what `put_certificate` puts.
pub fn one_plan_text()
    ensures { (advert : Advertised) (weights : PathWeights) (kept : List Path) (text other : List ℕ)
        → IsPlanText advert weights kept text → IsPlanText advert weights kept other → text ≡ other }
{}

/// Of two plans one at most comes before the other, and none that has the same paths.
pub fn one_comes_before()
    ensures one { (paths others : List Path) → ComesBefore paths others → ComesBefore others paths → ⊥ }
    ensures other { (paths others : List Path) → ComesBefore paths others → HaveSamePaths paths others → ⊥ }
{}
