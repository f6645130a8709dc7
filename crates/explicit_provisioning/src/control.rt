//! Control bytes under explicit control: the settings of these lanes are the host's own, and not those of the Application.
ghost use Rattle.std.specs.Prelude.{◌≡◌};
ghost use Rattle.plan_certificate.specs.Plans.{AreAllowed};
ghost use Rattle.explicit_provisioning.specs.ExplicitBytes as spec;

use applications::Advert;
use control_sets::{ControlSet, lanes_of};
use field_tables::LaneSet;
use plan_certificate::Plan;

/// Which of these host lanes a path of the plan takes.
pub fn explicit_lanes(advert: &Advert, plan: &Plan, lanes: LaneSet) -> LaneSet
    requires { AreAllowed advert.now plan.now }
    ensures { result ≡ spec.explicit_lanes advert.now plan.now lanes }
{
    LaneSet::from(lanes.byte() & lanes_of(advert, plan).byte())
}

/// Control bytes, with ExplicitControl for these lanes.
pub fn explicit_bytes(control: ControlSet, lanes: LaneSet) -> ControlSet
    ensures { result ≡ spec.explicit_bytes control lanes }
{
    let [one, two, three, four, five, six, seven, eight] = control;
    [
        explicit_if(lanes.contains(1), one),
        explicit_if(lanes.contains(2), two),
        explicit_if(lanes.contains(3), three),
        explicit_if(lanes.contains(4), four),
        explicit_if(lanes.contains(5), five),
        explicit_if(lanes.contains(6), six),
        explicit_if(lanes.contains(7), seven),
        explicit_if(lanes.contains(8), eight),
    ]
}

fn explicit_if(explicit: bool, byte: u8) -> u8
    ensures { result ≡ spec.explicit_if explicit byte }
{
    if explicit { byte / 2 * 2 + 1 } else { byte }
}
