ghost use Rattle.std.specs.Prelude.{◌≡◌, ◌<◌, true};
ghost use Rattle.plan_certificate.specs.Paths.{is_allowed};
ghost use Rattle.plan_certificate.specs.Plans.{AreAllowed, IsAdmissible};
ghost use Rattle.control_sets.specs.ControlBytes.{control_byte, control_bytes, control_in};
ghost use Rattle.control_sets.specs.PlanLanes.{lanes_outside, plan_lanes};

use crate::control_byte::ControlByte;
use crate::control_set::ControlSet;
use applications::Advert;
use field_tables::{LaneNumber, LaneSet};
use plan_certificate::{Path, Plan};

/// The control bytes of host lanes 1 to 8 that ask for a plan.
pub fn bytes_of(advert: &Advert, plan: &Plan) -> ControlSet
    requires { IsAdmissible advert.now plan.now }
    ensures { result ≡ control_bytes advert.now plan.now }
{
    let mut bytes = [0; 8];
    for (index, byte) in bytes.iter_mut().enumerate() {
        *byte = control_byte(advert, plan, LaneNumber::at(index as u8));
    }
    bytes
}

/// The host lanes that the paths of a plan take.
pub fn lanes_of(advert: &Advert, plan: &Plan) -> LaneSet
    requires { AreAllowed advert.now plan.now }
    ensures { result ≡ plan_lanes advert.now plan.now }
{
    let mut lanes = LaneSet::empty();
    for path in plan.paths.as_slice() {
        lanes = lanes.union(path.host_lanes(advert));
    }
    lanes
}

/// The host lanes that no path of a plan takes.
pub fn lanes_outside(advert: &Advert, plan: &Plan) -> LaneSet
    requires { AreAllowed advert.now plan.now }
    ensures { result ≡ lanes_outside advert.now plan.now }
{
    LaneSet::from(!lanes_of(advert, plan).byte())
}

fn control_byte(advert: &Advert, plan: &Plan, lane: LaneNumber) -> u8
    requires { IsAdmissible advert.now plan.now }
    ensures { result ≡ control_byte advert.now plan.now lane }
{
    for path in plan.paths.as_slice() {
        if path.host_lanes(advert).contains(lane.number()) {
            return control_in(advert, *path).byte();
        }
    }
    0
}

// What the lanes of a path are told.
fn control_in(advert: &Advert, path: Path) -> ControlByte
    requires { is_allowed advert.now path ≡ true }
    ensures control { result ≡ control_in path }
    ensures code { result.app_sel_code < 16 }
    ensures lane { result.data_path_id < 8 }
{
    // At most 15 Applications are advertised, numbered from 1.
    let _apps = advert.apps();
    ControlByte {
        app_sel_code: path.app,
        data_path_id: path.host - 1,
    }
}
