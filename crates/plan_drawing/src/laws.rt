//! What the sums of a drawing say.
ghost use Rattle.std.specs.Prelude.{List};
ghost use Rattle.std.specs.List.{AllByRecursion};
ghost use Rattle.plan_certificate.specs.declared.path.Path.{Path};
ghost use Rattle.plan_certificate.specs.Plans.{IsAdmissible, IsBest};
ghost use Rattle.lane_planner.specs.Tables.{HasGains};
ghost use Rattle.plan_drawing.specs.Alternatives.{AreLess};
ghost use Rattle.plan_drawing.specs.Walks.{Basis, states_of};

/// Of a best plan: at each host lane that it decides on, the heaviest plan that agrees with it below that lane and makes one of the
/// choices there weighs as much less as the choice's sum is below what can be gained.
pub fn each_sum_is_the_best()
    ensures { (basis : Basis) (paths : List Path) → IsAdmissible basis.advert basis.kept
        → IsBest basis.advert basis.weights basis.kept paths
        → HasGains basis.advert basis.weights basis.kept 0 basis.table
        → AllByRecursion (AreLess basis paths) (states_of basis paths) }
{}
