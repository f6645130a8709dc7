// What is to be done with a module whose memory was read.
ghost use Rattle.std.specs.Prelude.{◌≡◌, MatchOption, [], true, length};
ghost use Rattle.applications.specs.Advertised.{Advertised};
ghost use Rattle.applications.specs.Refusals.{advert_fault_under};
ghost use Rattle.applications.specs.AppWeights.{app_weights};
ghost use Rattle.applications.specs.Weights.{weights_of_hosts};
ghost use Rattle.plan_certificate.specs.Plans.{IsAdmissible};
ghost use Rattle.port_manager.specs.Goals.{IsGoalOf, advert_of, conventions_of, kept_of, wanted_of};
ghost use Rattle.port_manager.specs.Goals as spec;
ghost use Rattle.port_manager.specs.Decisions.{IsDecision, IsDecisionAsleep, IsDecisionAwake, judged_by, sleep_by, sleep_within, wake_within};

use crate::lanes::{are_up, has_all, may_activate, may_provision};
use crate::look::READY;
use applications::{Advert, AdvertFault, AppWeights, Conventions};
use arrayvec::ArrayVec;
use control_sets::{ControlSet, bytes_of, lanes_of, lanes_outside};
use field_tables::{LaneSet, field, number};
use lane_planner::first_plan;
use paged_memory::{Dev, Image, Key};
use plan_certificate::{Path, Plan};

/// The code of ModuleLowPwr.
pub const LOW_POWER: u8 = 1;

/// What a port's module is wanted for.
#[derive(Drop)]
pub struct Wanted {
    /// A weight for each HostInterfaceID.
    pub hosts: [u32; 256],
    /// What a data path weighs more if it is among the active ones.
    pub stay: u32,
    /// How the module is read.
    pub paired: bool,
    pub counts_by_id: bool,
    /// The most power that it may need to be woken up, in quarters of a watt; 255 is no limit.
    pub max_power: u8,
    /// The host lanes that may be taken down although they are up.
    pub may_take_down: LaneSet,
    /// The module is to be in low power.
    pub asleep: bool,
    /// The host lanes that no data path is to have.
    pub down: LaneSet,
}

/// What the module is to have.
#[derive(Clone, Copy, Debug, PartialEq, Eq)]
pub struct Goal {
    /// The plan's control bytes.
    pub control: ControlSet,
    /// The host lanes of its paths.
    pub lanes: LaneSet,
    /// The host lanes that no kept path has.
    pub outside: LaneSet,
}

/// Why a module is left alone.
#[derive(Clone, Copy, Debug, PartialEq, Eq)]
pub enum LeftBecause {
    /// It advertises nothing that can be planned.
    Advert(AdvertFault),
    /// It has no page 11h.
    NoLanes,
    /// None of its paths is wanted.
    NoPlan,
    /// It is not ready, and needs more power than it may have.
    NeedsPower,
    /// Lanes that are up would be taken down, and may not be.
    NeedsPermission,
    /// It is in low power, as it is wanted.
    Asleep,
}

/// What is to be done.
#[derive(Clone, Copy, Debug, PartialEq, Eq)]
pub enum Decision {
    /// Nothing: the module is no business of the port's.
    Leave(LeftBecause),
    /// The module is to be woken up, and read again.
    Wake,
    /// The module is to go to low power.
    Sleep,
    /// It is as wanted.
    Hold(Goal),
    /// Its control bytes are active, and the lanes are to come up.
    Activate(Goal),
    /// The control bytes are to become active.
    Provision(Goal),
}

/// What is to be done with the module of an image.
pub fn decide(image: &Image, wanted: &Wanted) -> Decision
    ensures { IsDecision wanted.now image.now result }
{
    if wanted.asleep {
        decide_asleep(image, wanted)
    } else {
        decide_awake(image, wanted)
    }
}

// With one that is to be in low power.
fn decide_asleep(image: &Image, wanted: &Wanted) -> Decision
    ensures { IsDecisionAsleep wanted.now image.now result }
{
    let _advert = match advert_of(image, wanted) {
        Ok(advert) => advert,
        Err(fault) => return Decision::Leave(LeftBecause::Advert(fault)),
    };
    may_sleep(image, wanted.may_take_down)
}

fn may_sleep(image: &Image, may: LaneSet) -> Decision
    ensures { result ≡ sleep_within may image.now }
{
    if number(image, field!(Cmis ModuleState)) == LOW_POWER {
        return Decision::Leave(LeftBecause::Asleep);
    }
    match image.page(Key::upper(Dev::A0, 0, 0x11)) {
        Some(page) => sleep_by(page.bytes(), may),
        None => Decision::Leave(LeftBecause::NoLanes),
    }
}

// By the lanes that page 11h shows as up.
fn sleep_by(page: &[u8], may: LaneSet) -> Decision
    requires { length page.now ≡ 128 }
    ensures { result ≡ sleep_by may page.now }
{
    if may_activate(page, LaneSet::empty(), may) {
        Decision::Sleep
    } else {
        Decision::Leave(LeftBecause::NeedsPermission)
    }
}

// What it advertises, read as is wanted.
fn advert_of(image: &Image, wanted: &Wanted) -> Result<Advert, AdvertFault>
    ensures { MatchOption (advert_fault_under (conventions_of wanted.now) image.now) (result ≡ Ok (advert_of wanted.now image.now)) (λ fault. result ≡ Err fault) }
{
    let conventions = Conventions {
        paired: wanted.paired,
        counts_by_id: wanted.counts_by_id,
        now: true,
    };
    Advert::under(conventions, image)
}

// With one that is to be awake.
fn decide_awake(image: &Image, wanted: &Wanted) -> Decision
    ensures { IsDecisionAwake wanted.now image.now result }
{
    let advert = match advert_of(image, wanted) {
        Ok(advert) => advert,
        Err(fault) => return Decision::Leave(LeftBecause::Advert(fault)),
    };
    if number(image, field!(Cmis ModuleState)) != READY {
        return may_wake(image, wanted);
    }
    let Some(page) = image.page(Key::upper(Dev::A0, 0, 0x11)) else {
        return Decision::Leave(LeftBecause::NoLanes);
    };
    let page = page.bytes();
    let goal = goal_of(&advert, wanted, page);
    judged(goal, page, wanted)
}

fn may_wake(image: &Image, wanted: &Wanted) -> Decision
    ensures { result ≡ wake_within wanted.now image.now }
{
    if number(image, field!(Cmis MaxPower)) <= wanted.max_power {
        Decision::Wake
    } else {
        Decision::Leave(LeftBecause::NeedsPower)
    }
}

// By what page 11h shows of the goal.
fn judged(goal: Goal, page: &[u8], wanted: &Wanted) -> Decision
    requires { length page.now ≡ 128 }
    ensures { result ≡ judged_by wanted.now page.now goal }
{
    let may = wanted.may_take_down;
    if goal.lanes.is_empty() && wanted.down.is_empty() {
        return Decision::Leave(LeftBecause::NoPlan);
    }
    if !has_all(page, &goal.control) {
        return if may_provision(page, goal.outside, may) {
            Decision::Provision(goal)
        } else {
            Decision::Leave(LeftBecause::NeedsPermission)
        };
    }
    if are_up(page, &goal.control, goal.lanes) {
        Decision::Hold(goal)
    } else if may_activate(page, goal.lanes, may) {
        Decision::Activate(goal)
    } else {
        Decision::Leave(LeftBecause::NeedsPermission)
    }
}

// Not inlined: the planner's tables take much of a stack.
#[inline(never)]
fn goal_of(advert: &Advert, wanted: &Wanted, page: &[u8]) -> Goal
    requires { length page.now ≡ 128 }
    ensures { spec.HasGoal advert.now wanted.now page.now result }
{
    let weights = AppWeights::by_host(advert, &wanted.hosts, wanted.stay);
    let nothing = Plan {
        paths: ArrayVec::new(),
    };
    let first = first_plan(advert, &weights, &nothing);
    let plan = wanted_of(advert, &first, wanted.down);
    let control = bytes_of(advert, &plan);
    let kept = kept_of(advert, page, &control, &plan);
    Goal {
        control,
        lanes: lanes_of(advert, &plan),
        outside: lanes_outside(advert, &kept),
    }
}

// The paths of the plan but those of lanes that are to be down.
fn wanted_of(advert: &Advert, plan: &Plan, down: LaneSet) -> Plan
    requires { IsAdmissible advert.now plan.now }
    ensures { result ≡ wanted_of advert.now down plan.now }
{
    let mut paths = ArrayVec::new();
    for path in plan.paths.as_slice() {
        if path.host_lanes(advert).is_disjoint(down) {
            paths.push(*path);
        }
    }
    Plan { paths }
}

// The paths of the plan that are up.
fn kept_of(advert: &Advert, page: &[u8], control: &ControlSet, plan: &Plan) -> Plan
    requires page { length page.now ≡ 128 }
    requires plan { IsAdmissible advert.now plan.now }
    ensures { result ≡ kept_of advert.now page.now control.now plan.now }
{
    let mut paths = ArrayVec::new();
    for path in plan.paths.as_slice() {
        if are_up(page, control, path.host_lanes(advert)) {
            paths.push(*path);
        }
    }
    Plan { paths }
}
