// From numbers to a port.
ghost use Rattle.std.specs.Prelude.{◌≡◌, ◌≢◌, ◌==◌, IfSome, None, Some, false, true};
ghost use Rattle.std.specs.Option.{option_map};
ghost use Rattle.paged_memory.specs.Images.{Memory};
ghost use Rattle.port_manager.specs.declared.job.Job.TheVariants as jobs;
ghost use Rattle.port_manager.specs.declared.port.Stage.TheVariants as stages;
ghost use Rattle.port_manager.specs.Ports.{IfWorking};
ghost use Rattle.saved_port.specs.Known.{HasRead};
ghost use Rattle.saved_port.specs.SavedPorts.{port_in};
ghost use Rattle.saved_port.specs.SavedPorts as spec;

use crate::numbers::{
    SavedCodes, SavedFlags, SavedGoal, SavedLanes, SavedLeft, SavedPort, SavedTimes, SavedWork,
};
use crate::work;
use applications::AdvertFault;
use bus_model::Dev;
use field_tables::LaneSet;
use paged_memory::{Key, KnownPage, SmallImage};
use port_manager::{
    Flags, Goal, Job, LaneCodes, LaneFlags, LeftBecause, Outstanding, Port, Request, Silence,
    Stage, Times,
};

/// What stands in each port, so that other memory is not taken for one: `DCP1`.
pub const PORT: u32 = 0x4443_5031;

/// Makes a port the one that has these numbers, and whose reading has read this memory, if there is one. Whether there is. It is filled
/// in its place, since a port takes much of a stack.
#[tactic(auto, unfolding(crate::specs::SavedPorts::port_in))]
pub fn restore(saved: &SavedPort, image: SmallImage, port: &mut Port) -> bool
    ensures found { result ≡ true → port_in saved.now image ≡ Some port.new }
    ensures none { result ≡ false → port_in saved.now image ≡ None }
    ensures read { result ≡ true → IfWorking port.new.stage (HasRead image) }
{
    if saved.magic != PORT {
        return false;
    }
    put_rest(saved, port);
    put_stage(saved, image, &mut port.stage)
}

// All but what is in the port.
fn put_rest(saved: &SavedPort, port: &mut Port)
    ensures { port.new ≡ spec.port_with saved.now port.old.stage }
{
    port.times = times_in(saved.times);
    port.due = saved.due;
    port.recheck_at = saved.recheck_at;
    port.back_off = saved.back_off;
    port.outstanding = outstanding_in(saved.outstanding);
    port.vain = saved.vain == 1;
    port.keeper.selected = page_in(saved.selection, saved.page);
    port.keeper.identifier = saved.identifier;
    put_flags(&saved.flags, &mut port.keeper.flags);
    port.held = saved.held == 1;
    port.request = request_in(saved.request, saved.request_lanes);
    port.silence = Silence {
        refusals: saved.refusals,
        since: saved.silent_since,
    };
    port.apply_refused = saved.apply_refused == 1;
}

fn times_in(saved: SavedTimes) -> Times
    ensures { result ≡ spec.times_in saved }
{
    Times {
        settle: saved.settle,
        period: saved.period,
        first: saved.first,
        most: saved.most,
        recheck: saved.recheck,
    }
}

fn put_flags(saved: &SavedFlags, flags: &mut Flags)
    ensures { flags.new ≡ spec.flags_in saved.now }
{
    flags.module_counts = saved.module_counts;
    flags.module_last = saved.module_last;
    put_lanes(&saved.lanes, &mut flags.lanes);
}

/// Makes what was read of a bank's lanes what these numbers say.
pub fn put_lanes(saved: &SavedLanes, lanes: &mut LaneFlags)
    ensures { lanes.new ≡ spec.lane_flags_in saved.now }
{
    lanes.counts = saved.counts;
    lanes.last = saved.last;
    lanes.states = codes_in(&saved.states);
    lanes.statuses = codes_in(&saved.statuses);
}

fn codes_in(saved: &SavedCodes) -> LaneCodes
    ensures { result ≡ spec.codes_in saved.now }
{
    LaneCodes {
        codes: saved.codes,
        changes: saved.changes,
        last: saved.last,
    }
}

pub fn page_in(number: u8, page: u16) -> KnownPage
    ensures { result ≡ spec.page_in number page }
{
    match number {
        2 => KnownPage::Page(page),
        1 => KnownPage::Open,
        _ => KnownPage::Unknown,
    }
}

fn outstanding_in(number: u8) -> Outstanding
    ensures { result ≡ spec.outstanding_in number }
{
    match number {
        1 => Outstanding::Awaited,
        2 => Outstanding::Stale,
        3 => Outstanding::Forsaken,
        _ => Outstanding::Nothing,
    }
}

/// What somebody has asked: 1 to sleep, 2 to provision, 3 to deactivate, and each other number nothing; of lanes whose bits are 1.
pub fn request_in(number: u8, bits: u8) -> Request
    ensures { result ≡ spec.request_in number bits }
{
    let lanes = LaneSet::from(bits);
    match number {
        1 => Request::Sleep(lanes),
        2 => Request::Provision(lanes),
        3 => Request::Deactivate(lanes),
        _ => Request::Wake,
    }
}

fn goal_in(saved: SavedGoal) -> Goal
    ensures { result ≡ spec.goal_in saved }
{
    let control = saved.control;
    Goal {
        control,
        lanes: LaneSet::from(saved.lanes),
        outside: LaneSet::from(saved.outside),
    }
}

// ---- what is in the port

fn put_stage(saved: &SavedPort, image: SmallImage, stage: &mut Stage) -> bool
    ensures found { result ≡ true → spec.stage_in saved.now.stage saved.now.left saved.now.goal saved.now.work image ≡ Some stage.new }
    ensures none { result ≡ false → spec.stage_in saved.now.stage saved.now.left saved.now.goal saved.now.work image ≡ None }
    ensures read { result ≡ true → IfWorking stage.new (HasRead image) }
{
    match saved.stage {
        0 => {
            *stage = Stage::Absent;
            true
        }
        1 => put_reason(saved.left, stage),
        2 => {
            put_reading(&saved.work, image, stage);
            true
        }
        _ => put_job(saved, stage),
    }
}

fn put_reason(saved: SavedLeft, stage: &mut Stage) -> bool
    ensures found { result ≡ true → option_map stages.Left (spec.reason_in saved) ≡ Some stage.new }
    ensures none { result ≡ false → option_map stages.Left (spec.reason_in saved) ≡ None }
{
    match reason_in(saved) {
        Some(reason) => {
            *stage = Stage::Left(reason);
            true
        }
        None => false,
    }
}

fn put_reading(work: &SavedWork, image: SmallImage, stage: &mut Stage)
    ensures { stage.new ≡ stages.Working (jobs.Reading (spec.patient_in work.now (spec.on_page_in work.now (spec.halves_in work.now image))) (work.now.woken == 1)) }
{
    *stage = Stage::Working(Job::reading(work.woken == 1));
    if let Stage::Working(Job::Reading(reading, _)) = stage {
        work::put_reading(work, image, reading);
    }
}

// What works at the module, if it reads nothing.
fn put_job(saved: &SavedPort, stage: &mut Stage) -> bool
    requires { saved.now.stage ≢ 2 }
    ensures found { result ≡ true → (image : Memory) → option_map stages.Working (spec.job_in saved.now.stage saved.now.goal saved.now.work image) ≡ Some stage.new }
    ensures none { result ≡ false → (image : Memory) → option_map stages.Working (spec.job_in saved.now.stage saved.now.goal saved.now.work image) ≡ None }
    ensures read { result ≡ true → (image : Memory) → IfWorking stage.new (HasRead image) }
{
    match saved.stage {
        3 => {
            put_waking(saved, stage);
            true
        }
        4 => put_provisioning(saved, stage),
        5 => put_activating(saved, stage),
        6 => {
            put_watching(saved, stage);
            true
        }
        7 => {
            put_sleeping(saved, stage);
            true
        }
        8 => {
            put_confirming(saved, stage);
            true
        }
        _ => false,
    }
}

// None of these is inlined: each job that is made takes of a stack.

#[inline(never)]
fn put_waking(saved: &SavedPort, stage: &mut Stage)
    ensures { stage.new ≡ stages.Working (jobs.Waking (spec.patient_in saved.now.work (spec.change_in saved.now.work))) }
{
    *stage = Stage::Working(Job::Waking(work::waking_in(&saved.work)));
}

#[inline(never)]
fn put_sleeping(saved: &SavedPort, stage: &mut Stage)
    ensures { stage.new ≡ stages.Working (jobs.Sleeping (spec.patient_in saved.now.work (spec.change_in saved.now.work))) }
{
    *stage = Stage::Working(Job::Sleeping(work::waking_in(&saved.work)));
}

#[inline(never)]
fn put_watching(saved: &SavedPort, stage: &mut Stage)
    ensures { stage.new ≡ stages.Working (jobs.Watching (spec.patient_in saved.now.work (spec.on_page_in saved.now.work (spec.look_in saved.now.goal saved.now.work)))) }
{
    *stage = Stage::Working(Job::Watching(work::look_in(goal_in(saved.goal), &saved.work)));
}

#[inline(never)]
fn put_confirming(saved: &SavedPort, stage: &mut Stage)
    ensures { stage.new ≡ stages.Working (jobs.Confirming (spec.patient_in saved.now.work (spec.on_page_in saved.now.work (spec.look_in saved.now.goal saved.now.work)))) }
{
    *stage = Stage::Working(Job::Confirming(work::look_in(goal_in(saved.goal), &saved.work)));
}

#[inline(never)]
fn put_provisioning(saved: &SavedPort, stage: &mut Stage) -> bool
    ensures found { result ≡ true → option_map stages.Working (spec.procedure_job jobs.Provisioning saved.now.goal saved.now.work) ≡ Some stage.new }
    ensures none { result ≡ false → option_map stages.Working (spec.procedure_job jobs.Provisioning saved.now.goal saved.now.work) ≡ None }
    ensures read { result ≡ true → (image : Memory) → IfWorking stage.new (HasRead image) }
{
    match work::procedure_in(&saved.work) {
        Some(procedure) => {
            *stage = Stage::Working(Job::Provisioning(procedure, goal_in(saved.goal)));
            true
        }
        None => false,
    }
}

#[inline(never)]
fn put_activating(saved: &SavedPort, stage: &mut Stage) -> bool
    ensures found { result ≡ true → option_map stages.Working (spec.procedure_job jobs.Activating saved.now.goal saved.now.work) ≡ Some stage.new }
    ensures none { result ≡ false → option_map stages.Working (spec.procedure_job jobs.Activating saved.now.goal saved.now.work) ≡ None }
    ensures read { result ≡ true → (image : Memory) → IfWorking stage.new (HasRead image) }
{
    match work::procedure_in(&saved.work) {
        Some(procedure) => {
            *stage = Stage::Working(Job::Activating(procedure, goal_in(saved.goal)));
            true
        }
        None => false,
    }
}

fn reason_in(saved: SavedLeft) -> Option<LeftBecause>
    ensures { result ≡ spec.reason_in saved }
{
    match saved.reason {
        1 => Some(LeftBecause::NoLanes),
        2 => Some(LeftBecause::NoPlan),
        3 => Some(LeftBecause::NeedsPower),
        4 => Some(LeftBecause::NeedsPermission),
        5 => Some(LeftBecause::Asleep),
        _ => advert_in(saved),
    }
}

fn advert_in(saved: SavedLeft) -> Option<LeftBecause>
    ensures { result ≡ spec.advert_in saved }
{
    match saved.reason {
        11 => Some(LeftBecause::Advert(AdvertFault::NotCmis(saved.value))),
        12 => Some(LeftBecause::Advert(AdvertFault::Revision(saved.value))),
        13 => Some(LeftBecause::Advert(AdvertFault::FlatMemory)),
        14 => Some(LeftBecause::Advert(AdvertFault::Absent(key_in(saved)))),
        15 => Some(LeftBecause::Advert(AdvertFault::BadSum(saved.value))),
        16 => Some(LeftBecause::Advert(AdvertFault::NotEightLanes(saved.value))),
        _ => None,
    }
}

fn key_in(saved: SavedLeft) -> Key
    ensures { result ≡ spec.key_in saved }
{
    let dev = if saved.device == 0xA2 {
        Dev::A2
    } else {
        Dev::A0
    };
    if saved.upper == 0 {
        Key::lower(dev)
    } else {
        Key::upper(dev, saved.bank, saved.page)
    }
}
