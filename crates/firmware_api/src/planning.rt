ghost use Rattle.std.specs.Prelude.{◌≡◌, ◌≢◌, MatchOption, Ok, Err};
ghost use Rattle.plan_certificate.specs.Plans.{IsAdmissible};
ghost use Rattle.firmware_api.specs.Halves.{advert_of, conventions_of};
ghost use Rattle.firmware_api.specs.Plans.{IsPlanned, kept_refusal, path_weights, paths_of, plan_refusal};
ghost use Rattle.firmware_api.specs.Statuses.{done, status_by, status_of};

use crate::half::{HalfBytes, conventions_of, read_advert_under};
use crate::status::{DONE, KEPT_NOT_ADMISSIBLE, TOO_MANY_KEPT};
use applications::{Advert, AppWeights};
use arrayvec::ArrayVec;
use control_sets::{ControlSet, bytes_of, lanes_of, lanes_outside};
use lane_planner::first_plan;
use plan_certificate::{MAX_PATHS, Path, Plan, kept_fault, weight_of};

/// A plan: the data paths that a module's lanes are divided into, and the control bytes that ask for them.
#[repr(C)]
#[derive(Clone, Copy)]
pub struct LanePlan {
    /// The sum of the weights of its paths.
    pub weight: u64,
    /// How many paths there are.
    pub count: u8,
    /// The host lanes that they take: bit i-1 is 1 for lane i.
    pub lanes: u8,
    /// The host lanes that no kept path takes.
    pub outside: u8,
    /// The control bytes of host lanes 1 to 8.
    pub control: ControlSet,
    /// By rising host lane; zeros after the last one.
    pub paths: [Path; MAX_PATHS],
}

/// Puts into `plan`, among the plans that hold the kept paths, the first of those that weigh most for the module whose
/// memory has these halves, which pairs first lanes unless `paired` is 0, and whose lane counts of 0 are implied by the interface IDs
/// unless `counts_by_id` is 0. There is a weight for each HostInterfaceID. A path that is in the Active Control Set weighs `stay` more;
/// the set is looked at unless that is 0.
#[unsafe(no_mangle)]
pub extern "C" fn dovecounter_plan(
    halves: &[HalfBytes],
    paired: u8,
    counts_by_id: u8,
    weights: &[u32; 256],
    stay: u32,
    kept: &[Path],
    plan: &mut LanePlan,
) -> u32
    ensures status { result ≡ status_by (plan_refusal halves.now (conventions_of paired counts_by_id stay) kept.now) }
    ensures done { let advert = advert_of halves.now (conventions_of paired counts_by_id stay) in result ≡ done → IsPlanned advert (path_weights advert weights.now stay) kept.now plan.new }
    ensures refused { result ≢ done → plan.new ≡ plan.old }
{
    let advert = match read_advert_under(conventions_of(paired, counts_by_id, stay), halves) {
        Ok(advert) => advert,
        Err(status) => return status,
    };
    let kept = match kept_plan(&advert, kept) {
        Ok(kept) => kept,
        Err(status) => return status,
    };
    put_best(&advert, weights, stay, &kept, plan);
    DONE
}

/// The kept paths as a plan, if the module can carry it.
pub fn kept_plan(advert: &Advert, kept: &[Path]) -> Result<Plan, u32>
    ensures { MatchOption (kept_refusal advert.now kept.now) ((result ≡ Ok kept.now) × IsAdmissible advert.now kept.now)
        (λ refusal. result ≡ Err (status_of refusal)) }
{
    let Ok(paths) = ArrayVec::try_from(kept) else {
        return Err(TOO_MANY_KEPT);
    };
    let plan = Plan { paths };
    match kept_fault(advert, &plan) {
        None => Ok(plan),
        Some(_) => Err(KEPT_NOT_ADMISSIBLE),
    }
}

// Not inlined, or the stack would hold the planner's tables while the advertisement is read.
#[inline(never)]
fn put_best(advert: &Advert, weights: &[u32; 256], stay: u32, kept: &Plan, plan: &mut LanePlan)
    requires { IsAdmissible advert.now kept.now }
    ensures { IsPlanned advert.now (path_weights advert.now weights.now stay) kept.now plan.new }
{
    put_plan(
        advert,
        &AppWeights::by_host(advert, weights, stay),
        kept,
        plan,
    );
}

const NO_PATH: Path = Path {
    app: 0,
    host: 0,
    media: 0,
};

// Zeros, also between the members, so that equal plans have equal bytes.
const NO_PLAN: LanePlan = LanePlan {
    weight: 0,
    count: 0,
    lanes: 0,
    outside: 0,
    control: [0; 8],
    paths: [NO_PATH; MAX_PATHS],
};

// The same by what the paths of each Application weigh.
fn put_plan(advert: &Advert, weights: &AppWeights, kept: &Plan, plan: &mut LanePlan)
    requires { IsAdmissible advert.now kept.now }
    ensures { IsPlanned advert.now weights.now kept.now plan.new }
{
    let best = first_plan(advert, weights, kept);
    *plan = NO_PLAN;
    plan.weight = weight_of(weights, &best);
    plan.count = best.paths.len() as u8;
    plan.lanes = lanes_of(advert, &best).byte();
    plan.outside = lanes_outside(advert, kept).byte();
    plan.control = bytes_of(advert, &best);
    put_paths(&best, &mut plan.paths);
}

fn put_paths(plan: &Plan, all: &mut [Path; MAX_PATHS])
    ensures { all.new ≡ paths_of plan.now }
{
    let paths = plan.paths.as_slice();
    *all = [Path::default(); MAX_PATHS];
    all[..paths.len()].copy_from_slice(paths);
}
