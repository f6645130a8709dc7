// What works at a module, from its numbers and as numbers.
ghost use Rattle.std.specs.Prelude.{◌≡◌, ◌==◌, if◌then◌else◌, None, Some};
ghost use Rattle.control_sets.specs.SavedNumbers as procedures;
ghost use Rattle.saved_port.specs.Known.{IsToldSo};
ghost use Rattle.saved_port.specs.SavedPorts as spec;

use crate::numbers::SavedWork;
use crate::restoring::page_in;
use control_sets::{
    PatientPower, PatientProcedure, Power, PowerChange, PowerStage, ProvisionFault, SavedFault,
    SavedProcedure, TaskList,
};
use conversations::{OnPage, Patience, Pausing, Within};
use module_reading::Request;
use paged_memory::{KnownPage, SmallImage};
use port_manager::{Goal, Look, LookStage, ReadingJob, WatchingJob};

// ---- from numbers

/// Makes a reading the one that has read this memory.
pub fn put_reading(work: &SavedWork, image: SmallImage, reading: &mut ReadingJob)
    ensures { reading.new ≡ spec.patient_in work.now (spec.on_page_in work.now (spec.halves_in work.now image)) }
{
    reading.steps = work.saved.steps;
    reading.limit = work.most;
    let pausing = &mut reading.conversation;
    pausing.patience = patience_in(work);
    pausing.due = work.saved.due == 1;
    pausing.idle = work.saved.idle;
    let on_page = &mut pausing.conversation;
    on_page.selection = page_in(work.saved.selection, work.saved.page);
    on_page.taken = taken_in(work);
    on_page.doubts = work.doubts == 1;
    let halves = &mut on_page.conversation;
    halves.request = Request {
        halves: work.saved.lanes,
    };
    halves.image = image;
    halves.settled = work.saved.met;
}

pub fn waking_in(work: &SavedWork) -> PatientPower
    ensures { result ≡ spec.patient_in work.now (spec.change_in work.now) }
{
    let change = PowerChange {
        power: power_in(work.saved.work),
        stage: power_stage_in(work.stage, work.found),
        fault: fault_in(&work.saved.fault),
    };
    patient_in(work, change)
}

pub fn look_in(goal: Goal, work: &SavedWork) -> WatchingJob
    ensures { result ≡ spec.patient_in work.now (spec.on_page_in work.now (record { goal = goal; stage = spec.look_stage_in work.now.stage })) }
{
    let look = Look {
        goal,
        stage: look_stage_in(work.stage),
    };
    patient_in(work, on_page_in(work, look))
}

pub fn procedure_in(work: &SavedWork) -> Option<PatientProcedure>
    ensures { result ≡ spec.procedure_in work.now }
{
    TaskList::restore(&work.saved, work.doubts == 1)
}

fn patient_in<C>(work: &SavedWork, conversation: C) -> Within<Pausing<C>>
    ensures { result ≡ spec.patient_in work.now conversation }
{
    Within {
        conversation: Pausing {
            conversation,
            patience: patience_in(work),
            due: work.saved.due == 1,
            idle: work.saved.idle,
        },
        steps: work.saved.steps,
        limit: work.most,
    }
}

fn patience_in(work: &SavedWork) -> Patience
    ensures { result ≡ record { pause = work.now.saved.pause; limit = work.now.saved.limit } }
{
    Patience {
        pause: work.saved.pause,
        limit: work.saved.limit,
    }
}

fn taken_in(work: &SavedWork) -> Option<u16>
    ensures { result ≡ (if work.now.taken == 1 then Some work.now.taken_page else None) }
{
    if work.taken == 1 {
        Some(work.taken_page)
    } else {
        None
    }
}

fn on_page_in<C>(work: &SavedWork, conversation: C) -> OnPage<C>
    ensures { result ≡ spec.on_page_in work.now conversation }
{
    OnPage {
        conversation,
        selection: page_in(work.saved.selection, work.saved.page),
        taken: taken_in(work),
        doubts: work.doubts == 1,
    }
}

fn power_in(number: u8) -> Power
    ensures { result ≡ spec.power_in number }
{
    match number {
        4 => Power::Asleep,
        _ => Power::Awake,
    }
}

fn power_stage_in(number: u8, found: u8) -> PowerStage
    ensures { result ≡ spec.power_stage_in number found }
{
    match number {
        1 => PowerStage::Found(found),
        2 => PowerStage::Stored,
        3 => PowerStage::Met,
        _ => PowerStage::Unread,
    }
}

fn look_stage_in(number: u8) -> LookStage
    ensures { result ≡ spec.look_stage_in number }
{
    match number {
        1 => LookStage::Lanes,
        2 => LookStage::Seen(false),
        3 => LookStage::Seen(true),
        _ => LookStage::Lower,
    }
}

fn fault_in(saved: &SavedFault) -> Option<ProvisionFault>
    ensures { result ≡ spec.fault_by (procedures.fault_in saved.now) }
{
    match saved.fault() {
        Some(fault) => fault,
        None => None,
    }
}

// ---- to numbers

/// Of nothing.
pub fn no_work() -> SavedWork
    ensures { result ≡ spec.no_work }
{
    SavedWork {
        saved: no_procedure(),
        most: 0,
        woken: 0,
        doubts: 0,
        taken: 0,
        taken_page: 0,
        stage: 0,
        found: 0,
    }
}

fn no_procedure() -> SavedProcedure
    ensures { result ≡ spec.no_procedure }
{
    SavedProcedure {
        met: 0,
        steps: 0,
        work: 0,
        lanes: 0,
        control: [0; 8],
        selection: 0,
        page: 0,
        fault: SavedFault::of(None),
        due: 0,
        idle: 0,
        pause: 0,
        limit: 0,
    }
}

pub fn work_of_reading(reading: &ReadingJob, woken: bool) -> SavedWork
    ensures { result ≡ spec.work_of_reading reading.now woken }
{
    let on_page = &reading.conversation.conversation;
    let halves = &on_page.conversation;
    let mut work = work_of_patient(reading);
    put_page(on_page, &mut work);
    work.saved.met = halves.settled;
    work.saved.lanes = halves.request.halves;
    work.woken = number_of(woken);
    work
}

pub fn work_of_waking(change: &PatientPower) -> SavedWork
    ensures { result ≡ spec.work_of_power change.now }
{
    let inner = &change.conversation.conversation;
    let (stage, found) = numbers_of_stage(inner.stage);
    let mut work = work_of_patient(change);
    work.saved.work = number_of_power(inner.power);
    work.saved.fault = SavedFault::of(inner.fault);
    work.stage = stage;
    work.found = found;
    work
}

pub fn work_of_look(look: &WatchingJob) -> SavedWork
    ensures { result ≡ spec.work_of_look look.now }
{
    let on_page = &look.conversation.conversation;
    let mut work = work_of_patient(look);
    put_page(on_page, &mut work);
    work.stage = number_of_look(on_page.conversation.stage);
    work
}

pub fn work_of_procedure(procedure: &PatientProcedure) -> SavedWork
    ensures { IsToldSo procedure.now → spec.procedure_in result ≡ Some procedure.now }
{
    let doubts = procedure.conversation.conversation.doubts;
    with_procedure(TaskList::save(procedure), doubts)
}

fn with_procedure(saved: SavedProcedure, doubts: bool) -> SavedWork
    ensures { result ≡ spec.work_of_procedure saved doubts }
{
    let mut work = no_work();
    work.saved = saved;
    work.doubts = number_of(doubts);
    work
}

fn work_of_patient<C>(patient: &Within<Pausing<C>>) -> SavedWork
    ensures { result ≡ spec.work_of_patient patient.now }
{
    let pausing = &patient.conversation;
    let mut work = no_work();
    work.saved.steps = patient.steps;
    work.saved.due = number_of(pausing.due);
    work.saved.idle = pausing.idle;
    work.saved.pause = pausing.patience.pause;
    work.saved.limit = pausing.patience.limit;
    work.most = patient.limit;
    work
}

fn put_page<C>(on_page: &OnPage<C>, work: &mut SavedWork)
    ensures { work.new ≡ spec.with_page work.old on_page.now.selection on_page.now.taken on_page.now.doubts }
{
    let (selection, page) = numbers_of_page(on_page.selection);
    work.saved.selection = selection;
    work.saved.page = page;
    work.doubts = number_of(on_page.doubts);
    work.taken = number_of(on_page.taken.is_some());
    work.taken_page = on_page.taken.unwrap_or(0);
}

pub fn number_of(yes: bool) -> u8
    ensures { result ≡ spec.number_of yes }
{
    if yes { 1 } else { 0 }
}

pub fn numbers_of_page(selected: KnownPage) -> (u8, u16)
    ensures { result ≡ spec.numbers_of_page selected }
{
    match selected {
        KnownPage::Unknown => (0, 0),
        KnownPage::Open => (1, 0),
        KnownPage::Page(page) => (2, page),
    }
}

fn number_of_power(power: Power) -> u8
    ensures { result ≡ spec.number_of_power power }
{
    match power {
        Power::Awake => 3,
        Power::Asleep => 4,
    }
}

fn numbers_of_stage(stage: PowerStage) -> (u8, u8)
    ensures { result ≡ spec.numbers_of_stage stage }
{
    match stage {
        PowerStage::Unread => (0, 0),
        PowerStage::Found(byte) => (1, byte),
        PowerStage::Stored => (2, 0),
        PowerStage::Met => (3, 0),
    }
}

fn number_of_look(stage: LookStage) -> u8
    ensures { result ≡ spec.number_of_look stage }
{
    match stage {
        LookStage::Lower => 0,
        LookStage::Lanes => 1,
        LookStage::Seen(false) => 2,
        LookStage::Seen(true) => 3,
    }
}
