ghost use Rattle.plan_certificate.specs.Plans.{IsAdmissible, Keeps};
ghost use Rattle.field_tables.specs.LaneSets.{every_lane};
ghost use Rattle.control_sets.specs.ControlBytes.{control_bytes};
ghost use Rattle.control_sets.specs.PlanLanes.{lanes_outside, plan_lanes};
ghost use Rattle.control_sets.specs.Procedures.{IsOutcome, MakesHistory};
ghost use Rattle.control_sets.specs.Progress.{tasks_of};
ghost use Rattle.control_sets.specs.Answers.{activated_steps, provisioned_steps};
ghost use Rattle.control_sets.specs.OutcomeOfProvisioning.{IsProvisioning};
ghost use Rattle.control_sets.specs.OutcomeOfActivation.{IsActivation};
ghost use Rattle.bus_model.specs.Runs.{IsFull};

use crate::fault::ProvisionFault;
use crate::plan_bytes::{bytes_of, lanes_of, lanes_outside};
use crate::procedures::power::answer_of;
use crate::procedures::procedure::{TaskList, Work};
use applications::Advert;
use arrayvec::ArrayVec;
use bus_model::Bus;
use conversations::run;
use plan_certificate::Plan;

/// A plan was provisioned.
#[derive(Clone, Copy, Debug, PartialEq, Eq)]
pub struct Provisioned {
    /// How many steps were made.
    pub steps: u16,
}

/// A plan's data paths were activated.
#[derive(Clone, Copy, Debug, PartialEq, Eq)]
pub struct Activated {
    /// How many steps were made.
    pub steps: u16,
}

/// Makes the control bytes of a plan active, whatever the bus refuses on the way.
pub fn provision<B: Bus>(
    bus: &mut B,
    advert: &Advert,
    plan: &Plan,
) -> Result<Provisioned, ProvisionFault>
    requires { IsAdmissible advert.now plan.now }
    ensures { let control = control_bytes advert.now plan.now in
        MakesHistory B.rules (B.seen bus.old) (B.seen bus.new) (λ history.
        IsProvisioning control every_lane (IsFull (B.seen bus.new)) history (provisioned_steps result)) }
{
    let none = Plan {
        paths: ArrayVec::new(),
    };
    provision_keeping(bus, advert, plan, &none)
}

/// Makes the control bytes of a plan active, and takes down and applies only lanes outside of the data paths of the plan
/// that are kept; it doesn't look at the kept lanes' states and statuses. DPDeinit is stored for all lanes at
/// once, with the bits of the lanes outside, so the bit of each kept lane is cleared: a kept path that is up stays up, and one
/// that was held down begins to come up. The kept lanes' control bytes are staged, read back and compared like all others,
/// so a kept path that isn't active ends the call in `ActiveDiffers`.
pub fn provision_keeping<B: Bus>(
    bus: &mut B,
    advert: &Advert,
    plan: &Plan,
    kept: &Plan,
) -> Result<Provisioned, ProvisionFault>
    requires admissible { IsAdmissible advert.now plan.now }
    requires kept { Keeps kept.now plan.now }
    ensures { let control = control_bytes advert.now plan.now in
        let lanes = lanes_outside advert.now kept.now in
        MakesHistory B.rules (B.seen bus.old) (B.seen bus.new) (λ history.
        IsProvisioning control lanes (IsFull (B.seen bus.new)) history (provisioned_steps result)) }
{
    let work = Work::Provisioning {
        control: bytes_of(advert, plan),
        lanes: lanes_outside(advert, kept),
    };
    match carry_out(bus, work) {
        Ok(steps) => Ok(Provisioned { steps }),
        Err(fault) => Err(fault),
    }
}

/// Brings up the data paths of a plan whose control bytes are active, and takes down those of all other lanes.
pub fn activate<B: Bus>(
    bus: &mut B,
    advert: &Advert,
    plan: &Plan,
) -> Result<Activated, ProvisionFault>
    requires { IsAdmissible advert.now plan.now }
    ensures { let lanes = plan_lanes advert.now plan.now in
        MakesHistory B.rules (B.seen bus.old) (B.seen bus.new) (λ history.
        IsActivation (control_bytes advert.now plan.now) lanes (IsFull (B.seen bus.new)) history (activated_steps result)) }
{
    let work = Work::Activation {
        control: bytes_of(advert, plan),
        lanes: lanes_of(advert, plan),
    };
    match carry_out(bus, work) {
        Ok(steps) => Ok(Activated { steps }),
        Err(fault) => Err(fault),
    }
}

// Brings the work about; answers the number of steps.
fn carry_out<B: Bus>(bus: &mut B, work: Work) -> Result<u16, ProvisionFault>
    ensures { MakesHistory B.rules (B.seen bus.old) (B.seen bus.new) (λ history.
        IsOutcome (tasks_of work) (B.seen bus.new) history result) }
{
    let mut procedure = TaskList::of(work);
    match run(bus, &mut procedure) {
        Ok(spent) => answer_of(spent),
        Err(fault) => Err(ProvisionFault::Bus(fault)),
    }
}
