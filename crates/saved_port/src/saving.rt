// From a port to its numbers.
ghost use Rattle.std.specs.Prelude.{◌≡◌, Some};
ghost use Rattle.paged_memory.specs.Images.{Memory};
ghost use Rattle.applications.specs.declared.fault.AdvertFault.TheVariants.{Absent};
ghost use Rattle.port_manager.specs.declared.deciding.LeftBecause.TheVariants.{Advert};
ghost use Rattle.port_manager.specs.declared.port.Stage.TheVariants as stage;
ghost use Rattle.port_manager.specs.Ports.{IfWorking};
ghost use Rattle.saved_port.specs.Known.{HasRead, IsKnown, IsKnownJob};
ghost use Rattle.saved_port.specs.SavedPorts.{port_in};
ghost use Rattle.saved_port.specs.SavedPorts as spec;
ghost use Rattle.saved_port.specs.Shown as shown;
ghost use Rattle.saved_port.specs.Shown.{IsShown};

use crate::numbers::{
    SavedCodes, SavedFlags, SavedGoal, SavedLanes, SavedLeft, SavedPort, SavedTimes, SavedWork,
};
use crate::restoring::PORT;
use crate::work;
use applications::AdvertFault;
use bus_model::Dev;
use paged_memory::{Half, Key};
use port_manager::{
    Flags, Goal, Job, LaneCodes, LaneFlags, LeftBecause, Outstanding, Port, Request, Stage, Times,
};

/// The numbers of a port, and how many halves its reading has read.
pub fn save(port: &Port, half_count: u16) -> SavedPort
    ensures same { (image : Memory) → IfWorking port.now.stage (HasRead image) → IsKnown port.now → port_in result image ≡ Some port.now }
    ensures shown { IsShown port.now result }
    ensures halves { result.half_count ≡ half_count }
{
    let (selection, page) = work::numbers_of_page(port.keeper.selected);
    let flags = numbers_of_flags(&port.keeper.flags);
    let times = numbers_of_times(port.times);
    let held = work::number_of(port.held);
    let outstanding = number_of_outstanding(port.outstanding);
    let vain = work::number_of(port.vain);
    let request = numbers_of_request(port.request);
    let apply_refused = work::number_of(port.apply_refused);
    let stage = numbers_of(&port.stage);
    SavedPort {
        flags,
        due: port.due,
        recheck_at: port.recheck_at,
        silent_since: port.silence.since,
        work: stage.work,
        times,
        magic: PORT,
        back_off: port.back_off,
        refusals: port.silence.refusals,
        half_count,
        stage: stage.stage,
        held,
        outstanding,
        vain,
        selection,
        page,
        goal: stage.goal,
        left: stage.left,
        request: request.number,
        request_lanes: request.lanes,
        identifier: port.keeper.identifier,
        apply_refused,
    }
}

fn numbers_of_times(times: Times) -> SavedTimes
    ensures { spec.times_in result ≡ times }
{
    SavedTimes {
        settle: times.settle,
        period: times.period,
        first: times.first,
        most: times.most,
        recheck: times.recheck,
    }
}

fn numbers_of_flags(flags: &Flags) -> SavedFlags
    ensures { spec.flags_in result ≡ flags.now }
{
    SavedFlags {
        module_counts: flags.module_counts,
        module_last: flags.module_last,
        lanes: numbers_of_lanes(&flags.lanes),
    }
}

/// The numbers of what was read of a bank's lanes.
pub fn numbers_of_lanes(lanes: &LaneFlags) -> SavedLanes
    ensures { spec.lane_flags_in result ≡ lanes.now }
{
    SavedLanes {
        counts: lanes.counts,
        last: lanes.last,
        states: numbers_of_codes(&lanes.states),
        statuses: numbers_of_codes(&lanes.statuses),
    }
}

fn numbers_of_codes(codes: &LaneCodes) -> SavedCodes
    ensures { spec.codes_in result ≡ codes.now }
{
    SavedCodes {
        last: codes.last,
        changes: codes.changes,
        codes: codes.codes,
    }
}

fn number_of_outstanding(outstanding: Outstanding) -> u8
    ensures { spec.outstanding_in result ≡ outstanding }
{
    match outstanding {
        Outstanding::Nothing => 0,
        Outstanding::Awaited => 1,
        Outstanding::Stale => 2,
        Outstanding::Forsaken => 3,
    }
}

// What somebody has asked, as numbers.
#[derive(Clone, Copy)]
struct RequestNumbers {
    pub number: u8,
    pub lanes: u8,
}

fn numbers_of_request(request: Request) -> RequestNumbers
    ensures same { spec.request_in result.number result.lanes ≡ request }
    ensures number { result.number ≡ shown.number_of_request request }
    ensures lanes { result.lanes ≡ shown.lanes_of_request request }
{
    match request {
        Request::Wake => RequestNumbers {
            number: 0,
            lanes: 0,
        },
        Request::Sleep(lanes) => RequestNumbers {
            number: 1,
            lanes: lanes.byte(),
        },
        Request::Provision(lanes) => RequestNumbers {
            number: 2,
            lanes: lanes.byte(),
        },
        Request::Deactivate(lanes) => RequestNumbers {
            number: 3,
            lanes: lanes.byte(),
        },
    }
}

// ---- what is in the port

// What is in the port, as numbers.
#[derive(Clone, Copy)]
struct StageNumbers {
    pub stage: u8,
    pub left: SavedLeft,
    pub goal: SavedGoal,
    pub work: SavedWork,
}

fn numbers_of(stage: &Stage) -> StageNumbers
    ensures same { (image : Memory) → IfWorking stage.now (HasRead image) → IfWorking stage.now IsKnownJob → spec.stage_in result.stage result.left result.goal result.work image ≡ Some stage.now }
    ensures left { result.left ≡ shown.left_in stage.now }
{
    match stage {
        Stage::Absent => StageNumbers {
            stage: 0,
            left: no_reason(),
            goal: no_goal(),
            work: work::no_work(),
        },
        Stage::Left(reason) => StageNumbers {
            stage: 1,
            left: numbers_of_reason(*reason),
            goal: no_goal(),
            work: work::no_work(),
        },
        Stage::Working(job) => numbers_of_job(job),
    }
}

fn numbers_of_job(job: &Job) -> StageNumbers
    ensures same { (image : Memory) → HasRead image job.now → IsKnownJob job.now → spec.stage_in result.stage result.left result.goal result.work image ≡ Some (stage.Working job.now) }
    ensures left { result.left ≡ spec.no_reason }
{
    match job {
        Job::Reading(reading, woken) => StageNumbers {
            stage: 2,
            left: no_reason(),
            goal: no_goal(),
            work: work::work_of_reading(reading, *woken),
        },
        Job::Waking(change) => StageNumbers {
            stage: 3,
            left: no_reason(),
            goal: no_goal(),
            work: work::work_of_waking(change),
        },
        Job::Sleeping(change) => StageNumbers {
            stage: 7,
            left: no_reason(),
            goal: no_goal(),
            work: work::work_of_waking(change),
        },
        Job::Provisioning(procedure, goal) => StageNumbers {
            stage: 4,
            left: no_reason(),
            goal: numbers_of_goal(goal),
            work: work::work_of_procedure(procedure),
        },
        Job::Activating(procedure, goal) => StageNumbers {
            stage: 5,
            left: no_reason(),
            goal: numbers_of_goal(goal),
            work: work::work_of_procedure(procedure),
        },
        Job::Confirming(look) => StageNumbers {
            stage: 8,
            left: no_reason(),
            goal: numbers_of_goal(&look.conversation.conversation.conversation.goal),
            work: work::work_of_look(look),
        },
        Job::Watching(look) => StageNumbers {
            stage: 6,
            left: no_reason(),
            goal: numbers_of_goal(&look.conversation.conversation.conversation.goal),
            work: work::work_of_look(look),
        },
    }
}

fn no_goal() -> SavedGoal {
    SavedGoal {
        control: [0; 8],
        lanes: 0,
        outside: 0,
    }
}

fn numbers_of_goal(goal: &Goal) -> SavedGoal
    ensures { spec.goal_in result ≡ goal.now }
{
    let control = goal.control;
    SavedGoal {
        control,
        lanes: goal.lanes.byte(),
        outside: goal.outside.byte(),
    }
}

/// It is not left alone.
pub fn no_reason() -> SavedLeft
    ensures { result ≡ spec.no_reason }
{
    left_by(0, 0)
}

/// Why it is left alone.
pub fn numbers_of_reason(reason: LeftBecause) -> SavedLeft
    ensures same { spec.reason_in result ≡ Some reason }
    ensures exact { result ≡ shown.left_because reason }
{
    match reason {
        LeftBecause::NoLanes => left_by(1, 0),
        LeftBecause::NoPlan => left_by(2, 0),
        LeftBecause::NeedsPower => left_by(3, 0),
        LeftBecause::NeedsPermission => left_by(4, 0),
        LeftBecause::Asleep => left_by(5, 0),
        LeftBecause::Advert(fault) => numbers_of_fault(fault),
    }
}

fn numbers_of_fault(fault: AdvertFault) -> SavedLeft
    ensures same { spec.reason_in result ≡ Some (Advert fault) }
    ensures exact { result ≡ shown.left_by_advert fault }
{
    match fault {
        AdvertFault::NotCmis(identifier) => left_by(11, identifier),
        AdvertFault::Revision(revision) => left_by(12, revision),
        AdvertFault::FlatMemory => left_by(13, 0),
        AdvertFault::Absent(key) => absent(key),
        AdvertFault::BadSum(page) => left_by(15, page),
        AdvertFault::NotEightLanes(identifier) => left_by(16, identifier),
    }
}

fn left_by(reason: u8, value: u8) -> SavedLeft
    ensures { result ≡ spec.left_by reason value }
{
    SavedLeft {
        reason,
        value,
        device: 0,
        upper: 0,
        bank: 0,
        page: 0,
    }
}

fn absent(key: Key) -> SavedLeft
    ensures same { spec.reason_in result ≡ Some (Advert (Absent key)) }
    ensures exact { result ≡ shown.absent_half key }
{
    let (device, upper, bank, page) = numbers_of_key(key);
    SavedLeft {
        reason: 14,
        value: 0,
        device,
        upper,
        bank,
        page,
    }
}

fn numbers_of_key(key: Key) -> (u8, u8, u8, u8)
    ensures same { spec.key_at result.0 result.1 result.2 result.3 ≡ key }
    ensures exact { shown.absent_half key ≡ record { reason = 14; value = 0; device = result.0; upper = result.1; bank = result.2; page = result.3 } }
{
    let device = match key.dev {
        Dev::A0 => 0xA0,
        Dev::A2 => 0xA2,
    };
    match key.half {
        Half::Lower => (device, 0, 0, 0),
        Half::Upper => (device, 1, key.bank, key.page),
    }
}
