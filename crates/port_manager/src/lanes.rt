// What page 11h shows of lanes.
ghost use Rattle.std.specs.Prelude.{◌≡◌, length};
ghost use Rattle.port_manager.specs.Goals.{active_at, are_up, has_all, is_activated, is_active, is_deactivated, is_permitted, is_permitted_if, is_up, may_activate, may_provision};
ghost use Rattle.control_sets.specs.ControlBytes.{control_of};

use control_sets::{ControlByte, ControlSet};
use datapath_states::lanes;
use field_tables::{LaneNumber, LaneSet};

/// Whether each lane has its control byte in the Active Control Set.
pub fn has_all(page: &[u8], control: &ControlSet) -> bool
    requires { length page.now ≡ 128 }
    ensures { result ≡ has_all page.now control.now }
{
    LaneNumber::all()
        .iter()
        .all(|lane| is_active(page, control, *lane))
}

/// The code of DPDeactivated.
const DEACTIVATED: u8 = 1;

/// The code of DPActivated.
const ACTIVATED: u8 = 4;

/// Where the active control bytes begin in page 11h.
const ACTIVE: usize = 78;

/// Whether each of the lanes is up with its control byte.
pub fn are_up(page: &[u8], control: &ControlSet, lanes: LaneSet) -> bool
    requires { length page.now ≡ 128 }
    ensures { result ≡ are_up page.now control.now lanes }
{
    LaneNumber::all().iter().all(|lane| !lanes.contains(lane.number())
        || is_up(page, control, *lane))
}

fn is_up(page: &[u8], control: &ControlSet, lane: LaneNumber) -> bool
    requires { length page.now ≡ 128 }
    ensures { result ≡ is_up page.now control.now lane }
{
    is_activated(page, lane) && is_active(page, control, lane)
}

fn is_activated(page: &[u8], lane: LaneNumber) -> bool
    requires { length page.now ≡ 128 }
    ensures { result ≡ is_activated page.now lane }
{
    let states = lanes::<8>(page);
    states[lane.index()] == ACTIVATED
}

/// Whether a lane is DPDeactivated.
pub fn is_deactivated(page: &[u8], lane: LaneNumber) -> bool
    requires { length page.now ≡ 128 }
    ensures { result ≡ is_deactivated page.now lane }
{
    let states = lanes::<8>(page);
    states[lane.index()] == DEACTIVATED
}

/// Whether a lane has its control byte in the Active Control Set.
pub fn is_active(page: &[u8], control: &ControlSet, lane: LaneNumber) -> bool
    requires { length page.now ≡ 128 }
    ensures { result ≡ is_active page.now control.now lane }
{
    page[ACTIVE + lane.index()] == control[lane.index()]
}

/// What the Active Control Set says of a lane.
pub fn active_control(page: &[u8], lane: LaneNumber) -> ControlByte
    requires { length page.now ≡ 128 }
    ensures { result ≡ control_of (active_at page.now lane) }
{
    ControlByte::from(page[ACTIVE + lane.index()])
}

/// Whether each lane outside of the kept paths may be taken down.
pub fn may_provision(page: &[u8], outside: LaneSet, may: LaneSet) -> bool
    requires { length page.now ≡ 128 }
    ensures { result ≡ may_provision page.now outside may }
{
    LaneNumber::all().iter().all(|lane| !outside.contains(lane.number())
        || is_permitted(page, may, *lane))
}

/// Whether each lane but those of the plan may be held down.
pub fn may_activate(page: &[u8], plan: LaneSet, may: LaneSet) -> bool
    requires { length page.now ≡ 128 }
    ensures { result ≡ may_activate page.now plan may }
{
    LaneNumber::all().iter().all(|lane| plan.contains(lane.number())
        || is_permitted(page, may, *lane))
}

// A lane that is up may be taken down only if it is one of these.
fn is_permitted(page: &[u8], may: LaneSet, lane: LaneNumber) -> bool
    requires { length page.now ≡ 128 }
    ensures { result ≡ is_permitted page.now may lane }
{
    is_permitted_if(is_activated(page, lane), may, lane)
}

/// Whether a lane may be taken down that is in use, or isn't.
pub fn is_permitted_if(in_use: bool, may: LaneSet, lane: LaneNumber) -> bool
    ensures { result ≡ is_permitted_if in_use may lane }
{
    may.contains(lane.number()) || !in_use
}
