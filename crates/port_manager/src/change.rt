// What a change from the memory as read to a plan does to the lanes, and what stands against it.
ghost use Rattle.std.specs.Prelude.{◌≡◌, length};
ghost use Rattle.port_manager.specs.Changes as spec;
ghost use Rattle.port_manager.specs.Changes.{judged, judged_by};

use crate::deciding::{Goal, LOW_POWER};
use crate::lanes::{active_control, are_up, has_all, is_active, is_deactivated, is_permitted_if};
use crate::look::READY;
use control_sets::{ControlSet, agree, control_at};
use field_tables::{LaneNumber, LaneSet, field, number};
use paged_memory::{Dev, Image, Key};

/// What a change may do beside what it is for.
#[derive(Clone, Copy, Debug, PartialEq, Eq)]
pub struct Permission {
    /// The host lanes that may be taken down although they aren't DPDeactivated.
    pub take_down: LaneSet,
    /// The host lanes that may come up although nobody wants them up.
    pub bring_up: LaneSet,
    /// The plan may have no path.
    pub no_path: bool,
}

/// A change to a plan.
#[derive(Clone, Copy, Debug, PartialEq, Eq)]
pub struct Change {
    pub goal: Goal,
    /// A path of the plan that is active, and not down, stays as it is, even if it isn't kept.
    pub spares: bool,
    /// The lanes of the plan are to come up.
    pub activates: bool,
    /// A module in low power is to be woken up first.
    pub wakes: bool,
    pub may: Permission,
}

/// What stands against a change.
#[derive(Clone, Copy, Debug, PartialEq, Eq)]
pub enum Hindrance {
    /// Lanes that are to stay as they are have other control bytes than the plan's.
    OtherBytes(LaneSet),
    /// The module is in this state, by its code.
    State(u8),
    /// Lanes that are down would come up, and may not.
    ComesUp(LaneSet),
    /// The plan has no path, and may not.
    NoPath,
    /// Lanes that aren't down would be taken down, and may not.
    GoesDown(LaneSet),
}

/// What a change does.
#[derive(Clone, Copy, Debug, PartialEq, Eq)]
pub struct Effect {
    /// The lanes that provisioning has to take.
    pub taken: LaneSet,
    /// The lanes that aren't down and are taken down, even if they come up again.
    pub goes_down: LaneSet,
    /// The lanes that are down and come up.
    pub comes_up: LaneSet,
    /// The lanes that aren't down and are left as they are.
    pub stays: LaneSet,
    /// The plan's control bytes are active.
    pub is_active: bool,
    /// All is as it is wanted, so the change does nothing.
    pub is_done: bool,
    pub against: Option<Hindrance>,
}

/// What a lane is to a change.
#[derive(Clone, Copy, Debug, PartialEq, Eq)]
pub enum Role {
    Taken,
    GoesDown,
    ComesUp,
    Stays,
    /// It isn't taken, and has another control byte than the plan's.
    Differs,
    /// It comes up, and may not.
    ComesUpUnpermitted,
    /// It goes down, and may not.
    GoesDownUnpermitted,
}

/// What a change of the module with this memory does, and the first of what stands against it; or the half that the memory lacks.
pub fn judge(image: &Image, change: &Change) -> Result<Effect, Key>
    ensures { result ≡ judged image.now change.now }
{
    let lower = Key::lower(Dev::A0);
    let lanes = Key::upper(Dev::A0, 0, 0x11);
    if !image.has(lower) {
        return Err(lower);
    }
    let state = number(image, field!(Cmis ModuleState));
    match image.page(lanes) {
        Some(page) => Ok(judge_page(state, page.bytes(), change)),
        None => Err(lanes),
    }
}

fn judge_page(state: u8, page: &[u8], change: &Change) -> Effect
    requires { length page.now ≡ 128 }
    ensures { result ≡ judged_by change.now state page.now }
{
    Effect {
        taken: lanes_with(Role::Taken, page, change),
        goes_down: lanes_with(Role::GoesDown, page, change),
        comes_up: lanes_with(Role::ComesUp, page, change),
        stays: lanes_with(Role::Stays, page, change),
        is_active: has_all(page, &change.goal.control),
        is_done: is_done(state, page, change),
        against: first_hindrance(state, page, change),
    }
}

fn is_done(state: u8, page: &[u8], change: &Change) -> bool
    requires { length page.now ≡ 128 }
    ensures { result ≡ spec.is_done change.now state page.now }
{
    !provisions(page, change) && !activates(page, change) && (!change.wakes || state == READY)
}

// The first of what stands against it.
fn first_hindrance(state: u8, page: &[u8], change: &Change) -> Option<Hindrance>
    requires { length page.now ≡ 128 }
    ensures { result ≡ spec.first_hindrance change.now state page.now }
{
    let different = lanes_with(Role::Differs, page, change);
    if !different.is_empty() {
        return Some(Hindrance::OtherBytes(different));
    }
    if !is_ready(state, change) {
        return Some(Hindrance::State(state));
    }
    let rising = lanes_with(Role::ComesUpUnpermitted, page, change);
    if !rising.is_empty() {
        return Some(Hindrance::ComesUp(rising));
    }
    if change.goal.lanes.is_empty() && !change.may.no_path {
        return Some(Hindrance::NoPath);
    }
    let falling = lanes_with(Role::GoesDownUnpermitted, page, change);
    if falling.is_empty() {
        None
    } else {
        Some(Hindrance::GoesDown(falling))
    }
}

fn is_ready(state: u8, change: &Change) -> bool
    ensures { result ≡ spec.is_ready change.now state }
{
    state == READY || state == LOW_POWER && change.wakes
}

// The lanes that have a role.
fn lanes_with(role: Role, page: &[u8], change: &Change) -> LaneSet
    requires { length page.now ≡ 128 }
    ensures { result ≡ spec.lanes_with role page.now change.now }
{
    let mut lanes = LaneSet::empty();
    for place in 0..8 {
        let lane = LaneNumber::at(place);
        if has_role(role, page, change, lane) {
            lanes = lanes.union(LaneSet::run(lane.number(), 1));
        }
    }
    lanes
}

fn has_role(role: Role, page: &[u8], change: &Change, lane: LaneNumber) -> bool
    requires { length page.now ≡ 128 }
    ensures { result ≡ spec.has_role role page.now change.now lane }
{
    match role {
        Role::Taken => is_taken(page, change, lane),
        Role::GoesDown => goes_down(page, change, lane),
        Role::ComesUp => comes_up(page, change, lane),
        Role::Stays => !is_deactivated(page, lane) && !goes_down(page, change, lane),
        Role::Differs => {
            !is_active(page, &change.goal.control, lane) && !is_taken(page, change, lane)
        }
        Role::ComesUpUnpermitted => comes_up(page, change, lane) && !may_come_up(change, lane),
        Role::GoesDownUnpermitted => {
            !is_permitted_if(goes_down(page, change, lane), change.may.take_down, lane)
        }
    }
}

// Whether the control bytes are to become active.
fn provisions(page: &[u8], change: &Change) -> bool
    requires { length page.now ≡ 128 }
    ensures { result ≡ spec.provisions page.now change.now }
{
    !has_all(page, &change.goal.control)
}

// Whether the lanes are to come up.
fn activates(page: &[u8], change: &Change) -> bool
    requires { length page.now ≡ 128 }
    ensures { result ≡ spec.activates page.now change.now }
{
    let goal = &change.goal;
    change.activates && (provisions(page, change) || !are_up(page, &goal.control, goal.lanes))
}

// Provisioning takes the lanes of no kept path, but not those of a path that is spared.
fn is_taken(page: &[u8], change: &Change, lane: LaneNumber) -> bool
    requires { length page.now ≡ 128 }
    ensures { result ≡ spec.is_taken page.now change.now lane }
{
    let is_spared = change.spares && stands(page, &change.goal.control, lane);
    provisions(page, change) && change.goal.outside.contains(lane.number()) && !is_spared
}

// Activation holds all lanes down but the plan's.
fn is_held_down(page: &[u8], change: &Change, lane: LaneNumber) -> bool
    requires { length page.now ≡ 128 }
    ensures { result ≡ spec.is_held_down page.now change.now lane }
{
    activates(page, change) && !change.goal.lanes.contains(lane.number())
}

fn goes_down(page: &[u8], change: &Change, lane: LaneNumber) -> bool
    requires { length page.now ≡ 128 }
    ensures { result ≡ spec.goes_down page.now change.now lane }
{
    let is_named = is_taken(page, change, lane) || is_held_down(page, change, lane);
    is_named && !is_deactivated(page, lane)
}

// Provisioning lets all lanes come up that it doesn't take; activation, those of the plan.
fn comes_up(page: &[u8], change: &Change, lane: LaneNumber) -> bool
    requires { length page.now ≡ 128 }
    ensures { result ≡ spec.comes_up page.now change.now lane }
{
    let is_left = provisions(page, change) && !is_taken(page, change, lane);
    let is_raised = activates(page, change) && change.goal.lanes.contains(lane.number());
    is_deactivated(page, lane) && (is_left || is_raised)
}

fn may_come_up(change: &Change, lane: LaneNumber) -> bool
    ensures { result ≡ spec.may_come_up change.now lane }
{
    let is_wanted = change.activates && change.goal.lanes.contains(lane.number());
    is_wanted || change.may.bring_up.contains(lane.number())
}

// Whether the plan's path on the lane is active, on the same lanes, and not down.
fn stands(page: &[u8], control: &ControlSet, lane: LaneNumber) -> bool
    requires { length page.now ≡ 128 }
    ensures { result ≡ spec.stands page.now control.now lane }
{
    control_at(control, lane).is_used()
        && has_same_lanes(page, control, lane)
        && is_somewhere_alive(page, control, lane)
}

fn has_same_lanes(page: &[u8], control: &ControlSet, lane: LaneNumber) -> bool
    requires { length page.now ≡ 128 }
    ensures { result ≡ spec.has_same_lanes page.now control.now lane }
{
    LaneNumber::all()
        .iter()
        .all(|other| is_same_on(page, control, lane, *other))
}

// The lane's path of the plan is active on the other lane, or isn't there, as the plan has it.
fn is_same_on(page: &[u8], control: &ControlSet, lane: LaneNumber, other: LaneNumber) -> bool
    requires { length page.now ≡ 128 }
    ensures { result ≡ spec.is_same_on page.now control.now lane other }
{
    if agree(control, lane, other) {
        is_active(page, control, other)
    } else {
        active_control(page, other) != control_at(control, lane)
    }
}

fn is_somewhere_alive(page: &[u8], control: &ControlSet, lane: LaneNumber) -> bool
    requires { length page.now ≡ 128 }
    ensures { result ≡ spec.is_somewhere_alive page.now control.now lane }
{
    LaneNumber::all().iter().any(|other| agree(control, lane, *other)
        && !is_deactivated(page, *other))
}
