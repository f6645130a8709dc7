//! Provisioning with settings on a real bus.
ghost use Rattle.std.specs.Prelude.{◌≡◌, []};
ghost use Rattle.plan_certificate.specs.Plans.{AreAllowed, IsAdmissible, Keeps};
ghost use Rattle.conversations.specs.Carried.{MakesEvents};
ghost use Rattle.control_sets.specs.ControlBytes.{control_bytes};
ghost use Rattle.control_sets.specs.PatientProcedures.{left_by};
ghost use Rattle.control_sets.specs.PlanLanes.{lanes_outside};
ghost use Rattle.control_sets.specs.declared.procedures.procedure.Work.TheVariants.{Provisioning};
ghost use Rattle.explicit_provisioning.specs.ExplicitBytes as bytes;
ghost use Rattle.control_sets.specs.declared.fault.ProvisionFault.TheVariants.{GaveUp};
ghost use Rattle.explicit_provisioning.specs.declared.fault.ExplicitFault.TheVariants.{Provision};
ghost use Rattle.explicit_provisioning.specs.ExplicitProcedures.{IsExplicitWork, answer_by, answer_in_time, answer_watched, begun, failure_of, fault_of, watchful};

use crate::comparing::ComparingSettings;
use crate::control::{explicit_bytes, explicit_lanes};
use crate::fault::{ExplicitFailure, ExplicitFault};
use crate::following::{Sequel, Then};
use crate::staging::StagingSettings;
use applications::Advert;
use control_sets::{
    MAX_STEPS, PatientFault, ProvisionFault, TaskList, Work, bytes_of, lanes_outside,
};
use conversations::{
    OnPage, Patience, Pausing, Spent, Timed, TimedBus, Watched, Watching, Within, run,
};
use lane_controls::SettingsChange;
use module_states::{ModuleState, state_of};
use paged_memory::KnownPage;
use plan_certificate::Plan;

/// Settings are staged, the tasks of provisioning are done, and active settings are compared.
pub type ExplicitTasks = Then<StagingSettings, Then<TaskList, ComparingSettings>>;

/// How that ended.
pub type ExplicitEnd = Sequel<
    Option<ExplicitFault>,
    Sequel<Option<ProvisionFault>, Option<ExplicitFault>>,
>;

/// The same on a real bus: on confirmed pages, with pauses, and with looks at the module's state.
pub type WatchfulTasks = Watching<Within<Pausing<OnPage<ExplicitTasks>>>>;

/// `provision_on` with settings for host lanes of the plan, which get ExplicitControl; answers the number of steps. Kept paths are as
/// with `provision_keeping`: their lanes are neither taken down nor applied, and those that settings are for have to be active under
/// explicit control, with these settings.
pub fn provision_settings_on<B: TimedBus>(
    bus: &mut B,
    advert: &Advert,
    plan: &Plan,
    kept: &Plan,
    change: &SettingsChange,
    patience: Patience,
) -> Result<u16, ExplicitFailure<B::Fault>>
    requires admissible { IsAdmissible advert.now plan.now }
    requires kept { Keeps kept.now plan.now }
    ensures { let wanted = bytes.change_for advert.now plan.now change.now in
        let work = Provisioning (bytes.explicit_bytes (control_bytes advert.now plan.now) wanted.lanes) (lanes_outside advert.now kept.now) in
        MakesEvents B.makes B.passes bus.old (λ last events. IsExplicitWork patience wanted work (last ≡ bus.new) (λ fault. B.fails last fault bus.new) events result) }
{
    let wanted = change_for(advert, plan, change);
    let work = Work::Provisioning {
        control: explicit_bytes(bytes_of(advert, plan), wanted.lanes),
        lanes: lanes_outside(advert, kept),
    };
    carry_out_on(bus, &wanted, work, patience)
}

/// The change for those of its lanes that a path of the plan takes.
pub fn change_for(advert: &Advert, plan: &Plan, change: &SettingsChange) -> SettingsChange
    requires { AreAllowed advert.now plan.now }
    ensures { result ≡ bytes.change_for advert.now plan.now change.now }
{
    let settings = change.settings;
    SettingsChange {
        lanes: explicit_lanes(advert, plan, change.lanes),
        settings,
        tries: change.tries,
    }
}

/// Provisioning with settings, of which nothing was done yet.
pub fn explicit_tasks(change: &SettingsChange, work: Work) -> ExplicitTasks
    ensures { result ≡ begun change.now work }
{
    let procedure = TaskList::of(work);
    let tasks = procedure.conversation.conversation;
    let rest = Then {
        first: tasks,
        second: ComparingSettings::of(change),
    };
    Then {
        first: StagingSettings::of(change),
        second: rest,
    }
}

/// The same for a real bus.
pub fn watchful_tasks(change: &SettingsChange, work: Work, patience: Patience) -> WatchfulTasks
    ensures { result ≡ watchful change.now work patience }
{
    let on_page = OnPage {
        conversation: explicit_tasks(change, work),
        selection: KnownPage::Unknown,
        taken: None,
        doubts: true,
    };
    let patient = Within::new(Pausing::new(on_page, patience), MAX_STEPS);
    Watching::new(patient, true)
}

fn carry_out_on<B: TimedBus>(
    bus: &mut B,
    change: &SettingsChange,
    work: Work,
    patience: Patience,
) -> Result<u16, ExplicitFailure<B::Fault>>
    ensures { MakesEvents B.makes B.passes bus.old (λ last events. IsExplicitWork patience change.now work (last ≡ bus.new) (λ fault. B.fails last fault bus.new) events result) }
{
    let mut procedure = Within::new(watchful_tasks(change, work, patience), MAX_WITH_LOOKS);
    match run(bus, &mut procedure) {
        Ok(spent) => answer_watched(spent.end),
        Err(fault) => Err(ExplicitFailure::Provision(PatientFault::Stopped(fault))),
    }
}

// Each of its own steps may come after a look.
const MAX_WITH_LOOKS: u16 = 2 * MAX_STEPS + 1;

/// What it answers that ended so, or gave up: the number of its steps, or why it failed.
pub fn answer_watched<F>(
    end: Option<Watched<Spent<Timed<ExplicitEnd>>>>,
) -> Result<u16, ExplicitFailure<F>>
    ensures { result ≡ answer_watched end }
{
    match end {
        Some(Watched::InOrder(spent)) => answer_in_time(spent),
        Some(Watched::Left(code)) => Err(ExplicitFailure::Provision(left_by(code))),
        None => Err(gave_up()),
    }
}

fn answer_in_time<F>(spent: Spent<Timed<ExplicitEnd>>) -> Result<u16, ExplicitFailure<F>>
    ensures { result ≡ answer_in_time spent.steps spent.end }
{
    match spent.end {
        Some(Timed::InTime(end)) => answer_by(spent.steps, fault_of(end)),
        Some(Timed::Overdue) => Err(ExplicitFailure::Provision(PatientFault::Overdue)),
        None => Err(gave_up()),
    }
}

fn gave_up<F>() -> ExplicitFailure<F>
    ensures { result ≡ failure_of (Provision GaveUp) }
{
    ExplicitFailure::Provision(PatientFault::Failed(ProvisionFault::GaveUp))
}

fn answer_by<F>(steps: u16, fault: Option<ExplicitFault>) -> Result<u16, ExplicitFailure<F>>
    ensures { result ≡ answer_by steps fault }
{
    match fault {
        None => Ok(steps),
        Some(ExplicitFault::Provision(fault)) => {
            Err(ExplicitFailure::Provision(PatientFault::Failed(fault)))
        }
        Some(ExplicitFault::NotStaged) => Err(ExplicitFailure::NotStaged),
        Some(ExplicitFault::NotActive(lane)) => Err(ExplicitFailure::NotActive(lane)),
    }
}

/// Why it failed that ended so, if it did.
pub fn fault_of(end: ExplicitEnd) -> Option<ExplicitFault>
    ensures { result ≡ fault_of end }
{
    match end {
        Sequel::Early(fault) => fault,
        Sequel::Late(Sequel::Early(fault)) => fault.map(ExplicitFault::Provision),
        Sequel::Late(Sequel::Late(fault)) => fault,
    }
}

// What is said of a module whose state has this code, and isn't ModuleReady.
fn left_by<F>(code: u8) -> PatientFault<F>
    ensures { result ≡ left_by code }
{
    match state_of(code) {
        Ok(ModuleState::Fault) => PatientFault::Faulty,
        Ok(_) => PatientFault::Reset(code),
        Err(_) => PatientFault::Failed(ProvisionFault::Reserved(code)),
    }
}
