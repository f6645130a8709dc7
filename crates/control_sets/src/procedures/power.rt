//! Waking a module up and putting it to sleep, by the low power requests of its global controls.
ghost use Rattle.std.specs.Prelude.{◌≡◌, ◌∷◌, ℕ, [], length, slice_index, Some, IfSome, IsFalse, IsTrue};
ghost use Rattle.bus_model.specs.Operations.{Answers, IsWellShaped};
ghost use Rattle.bus_model.specs.declared.operation.Op.{Op};
ghost use Rattle.control_sets.specs.OutcomeAnswers.{most_steps};
ghost use Rattle.control_sets.specs.PowerControls.{wanted_controls};
ghost use Rattle.control_sets.specs.PowerProgress.{answer_of, judged_power, operation_at, patient_power, stage_after, stage_judged};

mod runner;
mod saved;

use crate::fault::ProvisionFault;
use crate::procedures::judgement::ReplyJudgement;
use crate::procedures::procedure::MAX_STEPS;
use crate::procedures::task::{read_of, store_byte};
use bus_model::{Op, Reply};
use conversations::{Conversation, Next, Patience, Pausing, Spent, Within};
use field_tables::{Register, field, number_in_byte};
use module_states::{ModuleState, state_of};
pub use runner::change_power;

/// What a module is to be.
#[derive(Clone, Copy, Debug, PartialEq, Eq)]
pub enum Power {
    /// In ModuleReady, while nothing asks for low power.
    Awake,
    /// In ModuleLowPwr, which software asks for.
    Asleep,
}

/// How far a change of power has come.
#[derive(Clone, Copy, Debug, PartialEq, Eq)]
pub enum PowerStage {
    /// The global controls are to be read.
    Unread,
    /// They were read as this byte, and what follows from it is to be stored.
    Found(u8),
    /// That was stored, and the state is awaited.
    Stored,
    /// The module is in that state.
    Met,
}

/// A change of power: a conversation that ends without a fault, or in one.
#[derive(Clone, Copy, Debug, PartialEq, Eq, Drop)]
pub struct PowerChange {
    pub power: Power,
    pub stage: PowerStage,
    pub fault: Option<ProvisionFault>,
}

/// A change of power on a real bus: it pauses, and ends if it does that for too long.
pub type PatientPower = Within<Pausing<PowerChange>>;

impl PowerChange {
    ghost use Rattle.std.specs.Prelude.{None, false};
    ghost use Rattle.control_sets.specs.declared.procedures.power.PowerStage.TheVariants.{Unread};

    /// Brings a module to this power, within as many steps as a procedure may make.
    pub fn to(power: Power) -> Within<PowerChange>
        ensures { result ≡ record { conversation = record { power = power; stage = Unread; fault = None }; steps = 0; limit = most_steps } }
    {
        Within::new(PowerChange::begun(power), MAX_STEPS)
    }

    /// The same on a real bus, with so much patience.
    pub fn patient(power: Power, patience: Patience) -> PatientPower
        ensures { result ≡ patient_power (record { power = power; stage = Unread; fault = None }) patience false 0 0 }
    {
        let pausing = Pausing::new(PowerChange::begun(power), patience);
        Within::new(pausing, MAX_STEPS)
    }

    fn begun(power: Power) -> PowerChange
        ensures { result ≡ record { power = power; stage = Unread; fault = None } }
    {
        PowerChange {
            power,
            stage: PowerStage::Unread,
            fault: None,
        }
    }

    fn op(&self) -> Option<Op>
        ensures value { result ≡ operation_at self.now.power self.now.stage }
        ensures shape { IfSome result IsWellShaped }
    {
        match self.stage {
            PowerStage::Unread => Some(read_of(Register::GlobalControls)),
            PowerStage::Found(byte) => Some(store_byte(
                Register::GlobalControls,
                wanted_controls(self.power, byte),
            )),
            PowerStage::Stored => Some(read_of(Register::GlobalStatus)),
            PowerStage::Met => None,
        }
    }
}

impl Conversation for PowerChange {
    ghost use Rattle.conversations.specs.Events.{steps_of};
    ghost use Rattle.control_sets.specs.PowerProgress.{GoesOnAt, HasComeTo, IsEndedIn, change_after, power_wants};

    type Topic = Power;

    type End = Option<ProvisionFault>;

    ghost topic = { λ change. change.power };

    ghost wants = { power_wants };

    ghost after = { change_after };

    ghost told = { λ events change. HasComeTo change.power change.stage change.fault (steps_of events) };

    ghost ends = { λ power events fault. IsEndedIn power fault (steps_of events) };

    ghost goes_on = { λ power events. GoesOnAt power (steps_of events) };

    fn next(&self) -> Next<Option<ProvisionFault>> {
        match (self.fault, self.op()) {
            (Some(fault), _) => Next::End(Some(fault)),
            (None, None) => Next::End(None),
            (None, Some(op)) => Next::Do(op),
        }
    }

    fn take(&mut self, reply: &Reply) {
        match stage_after(self.power, self.stage, reply) {
            Ok(stage) => self.stage = stage,
            Err(fault) => self.fault = Some(fault),
        }
    }

    fn waited(&mut self) {}

    fn asked(&mut self, _number: u32) {}
}

/// What a change of power answers that ended so: the number of its steps, or the fault.
pub fn answer_of(spent: Spent<Option<ProvisionFault>>) -> Result<u16, ProvisionFault>
    ensures { result ≡ answer_of spent }
{
    match spent.end {
        Some(None) => Ok(spent.steps),
        Some(Some(fault)) => Err(fault),
        None => Err(ProvisionFault::GaveUp),
    }
}

// The byte of global controls to be stored if this one was read.
fn wanted_controls(power: Power, byte: u8) -> u8
    ensures { result ≡ wanted_controls power byte }
{
    match power {
        Power::Awake => byte & !(ALLOW_PIN | REQUEST | RESET),
        Power::Asleep => (byte | REQUEST) & !RESET,
    }
}

/// LowPwrAllowRequestHW, LowPwrRequestSW and SoftwareReset.
const ALLOW_PIN: u8 = 1 << 6;

const REQUEST: u8 = 1 << 4;

const RESET: u8 = 1 << 3;

// Where a change stands after a reply, or the fault that it shows.
fn stage_after(power: Power, stage: PowerStage, reply: &Reply) -> Result<PowerStage, ProvisionFault>
    requires { (op : Op) → operation_at power stage ≡ Some op → Answers op reply.now }
    ensures { result ≡ stage_after power stage reply.now }
{
    match (stage, reply) {
        (PowerStage::Unread, Reply::Bytes(bytes)) => Ok(PowerStage::Found(first_byte(bytes))),
        (PowerStage::Found(_), Reply::Done) => Ok(PowerStage::Stored),
        (PowerStage::Stored, Reply::Bytes(bytes)) => {
            let code = number_in_byte(field!(Cmis ModuleState), first_byte(bytes));
            stage_judged(judged_power(power, code))
        }
        _ => Ok(stage),
    }
}

// The byte that was asked for.
fn first_byte(bytes: &[u8]) -> u8
    requires { length bytes.now ≡ 1 }
    ensures { result ≡ slice_index bytes.now 0 }
{
    bytes[0]
}

fn stage_judged(judgement: ReplyJudgement) -> Result<PowerStage, ProvisionFault>
    ensures { result ≡ stage_judged judgement }
{
    match judgement {
        ReplyJudgement::Met => Ok(PowerStage::Met),
        ReplyJudgement::NotYet => Ok(PowerStage::Stored),
        ReplyJudgement::Fails(fault) => Err(fault),
    }
}

// What the code of a module state says.
fn judged_power(power: Power, code: u8) -> ReplyJudgement
    ensures { result ≡ judged_power power code }
{
    match (state_of(code), power) {
        (Ok(ModuleState::Ready), Power::Awake) | (Ok(ModuleState::LowPwr), Power::Asleep) => {
            ReplyJudgement::Met
        }
        (Ok(ModuleState::Fault), _) => ReplyJudgement::Fails(ProvisionFault::ModuleState(code)),
        (Ok(_), _) => ReplyJudgement::NotYet,
        (Err(_), _) => ReplyJudgement::Fails(ProvisionFault::Reserved(code)),
    }
}
