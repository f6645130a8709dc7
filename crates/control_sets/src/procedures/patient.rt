//! Procedures on a real bus: with pauses, a limit to their patience, and doubt after refusals.
ghost use Rattle.std.specs.Prelude.{◌≡◌};
ghost use Rattle.plan_certificate.specs.Plans.{IsAdmissible, Keeps};
ghost use Rattle.control_sets.specs.ControlBytes.{control_bytes};
ghost use Rattle.control_sets.specs.PlanLanes.{lanes_outside, plan_lanes};
ghost use Rattle.control_sets.specs.declared.procedures.procedure.Work.TheVariants.{Activation, Provisioning};
ghost use Rattle.control_sets.specs.PatientProcedures.{IsPatientChange, IsPatientWork, answer_in_time, answer_watched, left_by};
ghost use Rattle.conversations.specs.Carried.{MakesEvents};

use crate::fault::ProvisionFault;
use crate::plan_bytes::{bytes_of, lanes_of, lanes_outside};
use crate::procedures::power::{Power, PowerChange};
use crate::procedures::procedure::{MAX_STEPS, TaskList, Work};
use applications::Advert;
use conversations::{Patience, Spent, Timed, TimedBus, Watched, Within, run};
use module_states::{ModuleState, state_of};
use plan_certificate::Plan;

/// Why a procedure on a real bus failed.
#[derive(Clone, Copy, Debug, PartialEq, Eq, Drop)]
pub enum PatientFault<F> {
    /// As on a bus where time passes by itself.
    Failed(ProvisionFault),
    /// It was out of patience.
    Overdue,
    /// The module left ModuleReady meanwhile, as after a reset, and was in the state with this code.
    Reset(u8),
    /// The module was in ModuleFault meanwhile.
    Faulty,
    /// The bus failed.
    Stopped(F),
}

/// `provision_keeping` on a real bus; answers the number of steps.
pub fn provision_on<B: TimedBus>(
    bus: &mut B,
    advert: &Advert,
    plan: &Plan,
    kept: &Plan,
    patience: Patience,
) -> Result<u16, PatientFault<B::Fault>>
    requires admissible { IsAdmissible advert.now plan.now }
    requires kept { Keeps kept.now plan.now }
    ensures { let work = Provisioning (control_bytes advert.now plan.now) (lanes_outside advert.now kept.now) in
        MakesEvents B.makes B.passes bus.old (λ last events. IsPatientWork patience work (last ≡ bus.new) (λ fault. B.fails last fault bus.new) events result) }
{
    let work = Work::Provisioning {
        control: bytes_of(advert, plan),
        lanes: lanes_outside(advert, kept),
    };
    carry_out_on(bus, work, patience)
}

/// `activate` on a real bus; answers the number of steps.
pub fn activate_on<B: TimedBus>(
    bus: &mut B,
    advert: &Advert,
    plan: &Plan,
    patience: Patience,
) -> Result<u16, PatientFault<B::Fault>>
    requires { IsAdmissible advert.now plan.now }
    ensures { let work = Activation (control_bytes advert.now plan.now) (plan_lanes advert.now plan.now) in
        MakesEvents B.makes B.passes bus.old (λ last events. IsPatientWork patience work (last ≡ bus.new) (λ fault. B.fails last fault bus.new) events result) }
{
    let work = Work::Activation {
        control: bytes_of(advert, plan),
        lanes: lanes_of(advert, plan),
    };
    carry_out_on(bus, work, patience)
}

/// `change_power` on a real bus; answers the number of steps.
pub fn change_power_on<B: TimedBus>(
    bus: &mut B,
    power: Power,
    patience: Patience,
) -> Result<u16, PatientFault<B::Fault>>
    ensures { MakesEvents B.makes B.passes bus.old (λ last events. IsPatientChange patience power (last ≡ bus.new) (λ fault. B.fails last fault bus.new) events result) }
{
    let mut change = PowerChange::patient(power, patience);
    match run(bus, &mut change) {
        Ok(spent) => answer_in_time(spent),
        Err(fault) => Err(PatientFault::Stopped(fault)),
    }
}

fn carry_out_on<B: TimedBus>(
    bus: &mut B,
    work: Work,
    patience: Patience,
) -> Result<u16, PatientFault<B::Fault>>
    ensures { MakesEvents B.makes B.passes bus.old (λ last events. IsPatientWork patience work (last ≡ bus.new) (λ fault. B.fails last fault bus.new) events result) }
{
    let mut procedure = Within::new(TaskList::watchful(work, patience), MAX_WITH_LOOKS);
    match run(bus, &mut procedure) {
        Ok(spent) => answer_watched(spent.end),
        Err(fault) => Err(PatientFault::Stopped(fault)),
    }
}

// Each of its own steps may come after a look.
const MAX_WITH_LOOKS: u16 = 2 * MAX_STEPS + 1;

fn answer_watched<F>(
    end: Option<Watched<Spent<Timed<Option<ProvisionFault>>>>>,
) -> Result<u16, PatientFault<F>>
    ensures { result ≡ answer_watched end }
{
    match end {
        Some(Watched::InOrder(spent)) => answer_in_time(spent),
        Some(Watched::Left(code)) => Err(left_by(code)),
        None => Err(PatientFault::Failed(ProvisionFault::GaveUp)),
    }
}

// What is said of a module whose state has this code, and isn't ModuleReady.
fn left_by<F>(code: u8) -> PatientFault<F>
    ensures { result ≡ left_by code }
{
    match state_of(code) {
        Ok(ModuleState::Fault) => PatientFault::Faulty,
        Ok(_) => PatientFault::Reset(code),
        Err(_) => PatientFault::Failed(ProvisionFault::Reserved(code)),
    }
}

/// What a procedure on a real bus answers that ended so: the number of its steps, or why it failed.
pub fn answer_in_time<F>(
    spent: Spent<Timed<Option<ProvisionFault>>>,
) -> Result<u16, PatientFault<F>>
    ensures { result ≡ answer_in_time spent.steps spent.end }
{
    match spent.end {
        Some(Timed::InTime(None)) => Ok(spent.steps),
        Some(Timed::InTime(Some(fault))) => Err(PatientFault::Failed(fault)),
        Some(Timed::Overdue) => Err(PatientFault::Overdue),
        None => Err(PatientFault::Failed(ProvisionFault::GaveUp)),
    }
}
