ghost use Rattle.std.specs.Prelude.{◌≡◌, ◌<◌, length};
ghost use Rattle.bus_model.specs.Operations.{Answers};
ghost use Rattle.control_sets.specs.Judgements.{HasCount, all_lanes_have, at_lane, differing_lane, is_rejection, is_reserved_state, is_reserved_status, judged, judged_module, judged_states, judged_statuses, judgement, lowest_lane, met_if, unless_rejected};
ghost use Rattle.control_sets.specs.Tasks.{operation};

use crate::control_set::ControlSet;
use crate::fault::ProvisionFault;
use crate::procedures::task::Task;
use bus_model::Reply;
use datapath_states::{PathState, lanes, status_of};
use field_tables::{LaneNumber, LaneSet, field, number_in_byte};
use module_states::ModuleState;

/// What a reply says of a task.
#[derive(Clone, Copy)]
pub enum ReplyJudgement {
    /// It is met.
    Met,
    /// It is not met yet, and may still be.
    NotYet,
    /// It can't be met.
    Fails(ProvisionFault),
}

impl Task {
    /// What a reply to its operation says.
    pub fn judge(&self, reply: &Reply) -> ReplyJudgement
        requires { Answers (operation self.now) reply.now }
        ensures { result ≡ judgement self.now reply.now }
    {
        match reply {
            Reply::Done => ReplyJudgement::Met,
            Reply::Refused => ReplyJudgement::NotYet,
            Reply::Bytes(bytes) => self.judge_bytes(bytes),
        }
    }

    #[tactic(auto, unfolding(crate::specs::Judgements::judged))]
    fn judge_bytes(&self, bytes: &[u8]) -> ReplyJudgement
        requires { HasCount (operation self.now) (length bytes.now) }
        ensures { result ≡ judged self.now bytes.now }
    {
        match self {
            Task::FindReady => judge_module(number_in_byte(field!(Cmis ModuleState), bytes[0])),
            Task::AwaitDeactivated(waiting) => {
                judge_states(lanes(bytes), *waiting, *waiting, PathState::Deactivated)
            }
            Task::AwaitActivated(waiting) => {
                judge_states(
                    lanes(bytes),
                    LaneSet::run(1, 8),
                    *waiting,
                    PathState::Activated,
                )
            }
            Task::AwaitApplied(waiting) => judge_statuses(lanes(bytes), *waiting),
            Task::CheckStaged(control) => match differing_lane(bytes, control) {
                Some(lane) => ReplyJudgement::Fails(ProvisionFault::StagedDiffers(lane.number())),
                None => ReplyJudgement::Met,
            },
            Task::CheckActive(control) => match differing_lane(bytes, control) {
                Some(lane) => ReplyJudgement::Fails(ProvisionFault::ActiveDiffers(lane.number())),
                None => ReplyJudgement::Met,
            },
            Task::Deinitialize(_) | Task::Stage(_) | Task::Apply(_) => ReplyJudgement::NotYet,
        }
    }
}

fn judge_module(code: u8) -> ReplyJudgement
    ensures { result ≡ judged_module code }
{
    match module_states::state_of(code) {
        Ok(ModuleState::Ready) => ReplyJudgement::Met,
        Ok(_) => ReplyJudgement::Fails(ProvisionFault::ModuleState(code)),
        Err(_) => ReplyJudgement::Fails(ProvisionFault::Reserved(code)),
    }
}

// Reserved codes are looked for in one set of lanes, the state in another.
fn judge_states(
    codes: [u8; 8],
    looked: LaneSet,
    waiting: LaneSet,
    state: PathState,
) -> ReplyJudgement
    ensures { result ≡ judged_states looked waiting state codes }
{
    match lowest_reserved_state(&codes, looked) {
        Some(lane) => ReplyJudgement::Fails(ProvisionFault::Reserved(at_lane(&codes, lane))),
        None => met_if(all_lanes_have(&codes, waiting, state.code())),
    }
}

fn judge_statuses(codes: [u8; 8], lanes: LaneSet) -> ReplyJudgement
    ensures { result ≡ judged_statuses lanes codes }
{
    match lowest_reserved_status(&codes, lanes) {
        Some(lane) => ReplyJudgement::Fails(ProvisionFault::Reserved(at_lane(&codes, lane))),
        None => judge_rejections(codes, lanes),
    }
}

fn judge_rejections(codes: [u8; 8], lanes: LaneSet) -> ReplyJudgement
    ensures { result ≡ unless_rejected codes (lowest_lane is_rejection lanes codes) (met_if (all_lanes_have 1 lanes codes)) }
{
    match lowest_rejection(&codes, lanes) {
        Some(lane) => ReplyJudgement::Fails(ProvisionFault::Rejected(
            lane.number(),
            at_lane(&codes, lane),
        )),
        None => met_if(all_lanes_have(&codes, lanes, 1)),
    }
}

fn met_if(holds: bool) -> ReplyJudgement
    ensures { result ≡ met_if holds }
{
    if holds {
        ReplyJudgement::Met
    } else {
        ReplyJudgement::NotYet
    }
}

fn lowest_reserved_state(codes: &[u8; 8], lanes: LaneSet) -> Option<LaneNumber>
    ensures { result ≡ lowest_lane is_reserved_state lanes codes.now }
{
    LaneNumber::all().iter().copied().find(|lane| lanes.contains(lane.number())
        && is_reserved_state(at_lane(codes, *lane)))
}

fn lowest_reserved_status(codes: &[u8; 8], lanes: LaneSet) -> Option<LaneNumber>
    ensures { result ≡ lowest_lane is_reserved_status lanes codes.now }
{
    LaneNumber::all().iter().copied().find(|lane| lanes.contains(lane.number())
        && is_reserved_status(at_lane(codes, *lane)))
}

fn lowest_rejection(codes: &[u8; 8], lanes: LaneSet) -> Option<LaneNumber>
    ensures { result ≡ lowest_lane is_rejection lanes codes.now }
{
    LaneNumber::all().iter().copied().find(|lane| lanes.contains(lane.number())
        && is_rejection(at_lane(codes, *lane)))
}

fn all_lanes_have(codes: &[u8; 8], lanes: LaneSet, code: u8) -> bool
    ensures { result ≡ all_lanes_have code lanes codes.now }
{
    LaneNumber::all().iter().all(|lane| !lanes.contains(lane.number())
        || at_lane(codes, *lane) == code)
}

fn differing_lane(bytes: &[u8], control: &ControlSet) -> Option<LaneNumber>
    requires { length bytes.now ≡ 8 }
    ensures { result ≡ differing_lane bytes.now control.now }
{
    LaneNumber::all()
        .iter()
        .copied()
        .find(|lane| at_lane(bytes, *lane) != at_lane(control, *lane))
}

// Of eight bytes or codes, lane 1 first, that of a lane.
fn at_lane(values: &[u8], lane: LaneNumber) -> u8
    requires { length values.now ≡ 8 }
    ensures { result ≡ at_lane values.now lane }
{
    values[lane.index()]
}

fn is_reserved_state(code: u8) -> bool
    ensures { result ≡ is_reserved_state code }
{
    datapath_states::state_of(code).is_err()
}

fn is_reserved_status(code: u8) -> bool
    ensures { result ≡ is_reserved_status code }
{
    status_of(code).is_err()
}

fn is_rejection(code: u8) -> bool
    ensures { result ≡ is_rejection code }
{
    matches!(code, 2..=7 | 13..=15)
}
