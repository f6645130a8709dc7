// A simulated module on a scripted bus, with the plan that is given for it.
ghost use Rattle.std.specs.Prelude.{◌≡◌, ◌≢◌, ◌&&◌, IfErr, MatchResult, is_none, is_some};
ghost use Rattle.bus_model.specs.ScriptBuses.{seen_at};
ghost use Rattle.plan_certificate.specs.Plans.{IsAdmissible, Keeps};
ghost use Rattle.control_sets.specs.Answers.{activated_steps, provisioned_steps};
ghost use Rattle.sim_module.specs.ActiveSets.{HasNoApply};
ghost use Rattle.sim_module.specs.Soundness.{IsSound};
ghost use Rattle.command_line.specs.Inputs.{inputs_of};
ghost use Rattle.command_line.specs.ProvisionCommand.{Activates, CarriesOut, IsSetUpRefusal, MakesIf, Provisions, Wakes, delays, fault_of, steps_of};
ghost use Rattle.command_line.specs.Sessions.{IsSessionOf};

use super::inactive::first_inactive;
use super::inputs::Inputs;
use super::outcome::{ProcedureResults, fault_of, steps_of};
use super::planning_inputs::Planning;
use crate::fault::Fault;
use crate::remark::Warnings;
use applications::{Advert, AppWeights, Conventions};
use bus_model::{Script, ScriptBus};
use control_sets::{
    Activated, MAX_STEPS, Power, ProvisionFault, Provisioned, activate, change_power,
    provision_keeping,
};
use lane_planner::first_plan;
use plan_certificate::{Path, Plan};
use sim_module::{Delays, SimModule};
use std::alloc::Global;

/// The most steps: those of waking up, of provisioning and of activation.
const ROOM: usize = 3 * MAX_STEPS as usize;

/// How many ticks each work of the module takes.
const DELAY: u16 = 4;

/// A module, by what it advertises, its plan, what the plan keeps, of that the first path that is not active, what is odd about the
/// plan, and the module's bus.
#[derive(Drop)]
pub struct Session {
    pub advert: Advert,
    pub plan: Plan,
    pub kept: Plan,
    pub inactive: Option<Path>,
    pub warnings: Warnings,
    pub bus: ScriptBus<SimModule>,
}

fn delays() -> Delays
    ensures { result ≡ delays }
{
    Delays {
        apply: DELAY,
        init: DELAY,
        turn_on: DELAY,
        turn_off: DELAY,
        deinit: DELAY,
        power_up: DELAY,
        power_down: DELAY,
    }
}

/// The session of these inputs.
pub fn set_up(
    alloc: Global,
    conventions: Conventions,
    inputs: &Inputs<'_>,
) -> Result<Session, Fault>
    ensures answer { MatchResult result (IsSessionOf conventions (inputs_of inputs.now)) (IsSetUpRefusal conventions (inputs_of inputs.now)) }
    ensures read { IfErr result (λ fault. fault ≢ Fault.Io) }
{
    let planning = Planning::read(alloc, conventions, inputs)?;
    let script = Script::read(inputs.script)?;
    let module = SimModule::new(planning.image.copy(), delays())?;
    let inactive = first_inactive(&planning.advert, &planning.kept, &module.active());
    let weighed = AppWeights::of(&planning.advert, &planning.weights);
    let plan = first_plan(&planning.advert, &weighed, &planning.kept);
    let warnings = Warnings::of(&planning.advert, &planning.weights, !plan.paths.is_empty());
    let bus = ScriptBus::new(alloc, module, script, ROOM)?;
    Ok(Session {
        advert: planning.advert,
        plan,
        kept: planning.kept,
        inactive,
        warnings,
        bus,
    })
}

/// Wakes the module up if that is asked for, provisions the plan but for its kept paths, and activates it if that is asked for;
/// after one that fails none is made.
pub fn carry_out(
    bus: &mut ScriptBus<SimModule>,
    advert: &Advert,
    plan: &Plan,
    kept: &Plan,
    is_woken: bool,
    is_activated: bool,
) -> ProcedureResults
    requires admissible { IsAdmissible advert.now plan.now }
    requires keeps { Keeps kept.now plan.now }
    requires sound { IsSound bus.old.device }
    requires at_rest { HasNoApply bus.old.device }
    ensures { CarriesOut is_woken is_activated advert.now plan.now kept.now (seen_at bus.old) (seen_at bus.new) result }
{
    let woken = wake_if(bus, is_woken);
    let goes_on = has_no_fault(woken);
    let provisioned = provision_if(bus, advert, plan, kept, goes_on);
    let comes_up = is_activated_after(provisioned, is_activated);
    let activated = activate_if(bus, advert, plan, comes_up);
    ProcedureResults {
        woken,
        provisioned,
        activated,
    }
}

// Whether it was not made, or succeeded.
fn has_no_fault(ended: Option<Result<u16, ProvisionFault>>) -> bool
    ensures { result ≡ is_none (fault_of ended) }
{
    fault_of(ended).is_none()
}

// Whether activation is asked for, and comes after a success.
fn is_activated_after(provisioned: Option<Result<u16, ProvisionFault>>, is_wanted: bool) -> bool
    ensures { result ≡ (is_wanted && is_some (steps_of provisioned)) }
{
    is_wanted && steps_of(provisioned).is_some()
}

fn wake_if(bus: &mut ScriptBus<SimModule>, is_wanted: bool) -> Option<Result<u16, ProvisionFault>>
    ensures { MakesIf is_wanted Wakes (seen_at bus.old) (seen_at bus.new) result }
{
    if is_wanted {
        Some(change_power(bus, Power::Awake))
    } else {
        None
    }
}

fn provision_if(
    bus: &mut ScriptBus<SimModule>,
    advert: &Advert,
    plan: &Plan,
    kept: &Plan,
    is_wanted: bool,
) -> Option<Result<u16, ProvisionFault>>
    requires admissible { IsAdmissible advert.now plan.now }
    requires keeps { Keeps kept.now plan.now }
    ensures { MakesIf is_wanted (Provisions advert.now plan.now kept.now) (seen_at bus.old) (seen_at bus.new) result }
{
    if is_wanted {
        Some(provisioned_steps(provision_keeping(bus, advert, plan, kept)))
    } else {
        None
    }
}

fn activate_if(
    bus: &mut ScriptBus<SimModule>,
    advert: &Advert,
    plan: &Plan,
    is_wanted: bool,
) -> Option<Result<u16, ProvisionFault>>
    requires { IsAdmissible advert.now plan.now }
    ensures { MakesIf is_wanted (Activates advert.now plan.now) (seen_at bus.old) (seen_at bus.new) result }
{
    if is_wanted {
        Some(activated_steps(activate(bus, advert, plan)))
    } else {
        None
    }
}

fn provisioned_steps(ended: Result<Provisioned, ProvisionFault>) -> Result<u16, ProvisionFault>
    ensures { result ≡ provisioned_steps ended }
{
    match ended {
        Ok(provisioned) => Ok(provisioned.steps),
        Err(fault) => Err(fault),
    }
}

fn activated_steps(ended: Result<Activated, ProvisionFault>) -> Result<u16, ProvisionFault>
    ensures { result ≡ activated_steps ended }
{
    match ended {
        Ok(activated) => Ok(activated.steps),
        Err(fault) => Err(fault),
    }
}
