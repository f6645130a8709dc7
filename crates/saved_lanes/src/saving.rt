// The numbers of a change of lanes.
ghost use Rattle.std.specs.Prelude.{◌≡◌, Some, true};
ghost use Rattle.lane_controls.specs.declared.lane_change.LaneStage.TheVariants.{Ended};
ghost use Rattle.saved_lanes.specs.SavedLanes.{changing_in};
ghost use Rattle.saved_lanes.specs.SavedLanes as spec;

use crate::numbers::{SavedChanging, SavedLaneChange};
use crate::restoring::CHANGE;
use lane_controls::{LaneChange, LaneEnd, LaneRegister, LaneStage, PatientLaneProcedure};
use paged_memory::KnownPage;

/// The numbers of a change under way.
pub fn save(procedure: &PatientLaneProcedure) -> SavedChanging
    ensures { changing_in result ≡ Some procedure.now }
{
    let pausing = &procedure.conversation;
    let on_page = &pausing.conversation;
    let changing = &on_page.conversation;
    let change = numbers_of_change(&changing.change);
    let stage = numbers_of_stage(changing.stage);
    let refused = number_of(changing.refused);
    let due = number_of(pausing.due);
    let doubts = number_of(on_page.doubts);
    let page = numbers_of_page(on_page.selection);
    let taken = numbers_of_taken(on_page.taken);
    SavedChanging {
        magic: CHANGE,
        idle: pausing.idle,
        pause: pausing.patience.pause,
        limit: pausing.patience.limit,
        steps: procedure.steps,
        max_steps: procedure.limit,
        change,
        stage: stage.stage,
        end: stage.end,
        byte: stage.byte,
        disturbed: stage.disturbed,
        left: changing.left,
        refused,
        due,
        doubts,
        selection: page.0,
        page: page.1,
        taken: taken.0,
        taken_page: taken.1,
    }
}

fn numbers_of_change(change: &LaneChange) -> SavedLaneChange
    ensures same { spec.change_in result ≡ change.now }
    ensures known { spec.is_change result ≡ true }
{
    let control = number_of_register(change.register);
    let lanes = change.lanes.byte();
    let on = number_of(change.on);
    SavedLaneChange {
        control,
        lanes,
        on,
        max_stores: change.max_stores,
        permitted: change.permitted,
        media_paths: change.media_paths,
    }
}

fn number_of_register(register: LaneRegister) -> u8
    ensures same { spec.register_in result ≡ register }
    ensures known { spec.is_control result ≡ true }
{
    match register {
        LaneRegister::InputPolarityFlipTx => 0,
        LaneRegister::OutputDisableTx => 1,
        LaneRegister::AutoSquelchDisableTx => 2,
        LaneRegister::OutputSquelchForceTx => 3,
        LaneRegister::AdaptiveInputEqFreezeTx => 4,
        LaneRegister::OutputPolarityFlipRx => 5,
        LaneRegister::OutputDisableRx => 6,
        LaneRegister::AutoSquelchDisableRx => 7,
    }
}

// How far a change has come, as numbers.
#[derive(Clone, Copy)]
struct StageNumbers {
    pub stage: u8,
    pub end: u8,
    pub byte: u8,
    pub disturbed: u8,
}

fn numbers_of_stage(stage: LaneStage) -> StageNumbers
    ensures { spec.stage_in result.stage result.end result.byte result.disturbed ≡ stage }
{
    match stage {
        LaneStage::Unread => unended(0, 0),
        LaneStage::Found(byte) => unended(1, byte),
        LaneStage::Admitted(byte) => unended(2, byte),
        LaneStage::Ended(end) => ended(end),
    }
}

fn unended(stage: u8, byte: u8) -> StageNumbers
    ensures { result ≡ record { stage = stage; end = 0; byte = byte; disturbed = 0 } }
{
    StageNumbers {
        stage,
        end: 0,
        byte,
        disturbed: 0,
    }
}

fn ended(end: LaneEnd) -> StageNumbers
    ensures { spec.stage_in result.stage result.end result.byte result.disturbed ≡ Ended end }
{
    let numbers = numbers_of_end(end);
    StageNumbers {
        stage: 3,
        end: numbers.0,
        byte: numbers.1,
        disturbed: numbers.2,
    }
}

/// The number of an end, the byte as it was read last, and the lanes that it may not disturb.
pub fn numbers_of_end(end: LaneEnd) -> (u8, u8, u8)
    ensures value { result ≡ spec.numbers_of_end end }
    ensures same { spec.end_in result.0 result.1 result.2 ≡ end }
{
    match end {
        LaneEnd::Unchanged(byte) => (0, byte, 0),
        LaneEnd::Changed(byte) => (1, byte, 0),
        LaneEnd::Ignored(byte) => (2, byte, 0),
        LaneEnd::Refused(byte) => (3, byte, 0),
        LaneEnd::NotPermitted { byte, lanes } => (4, byte, lanes),
    }
}

pub(crate) fn number_of(yes: bool) -> u8
    ensures { spec.is_one result ≡ yes }
{
    if yes { 1 } else { 0 }
}

pub(crate) fn numbers_of_page(selected: KnownPage) -> (u8, u16)
    ensures { spec.page_in result.0 result.1 ≡ selected }
{
    match selected {
        KnownPage::Unknown => (0, 0),
        KnownPage::Open => (1, 0),
        KnownPage::Page(page) => (2, page),
    }
}

pub(crate) fn numbers_of_taken(taken: Option<u16>) -> (u8, u16)
    ensures { spec.taken_in result.0 result.1 ≡ taken }
{
    match taken {
        None => (0, 0),
        Some(page) => (1, page),
    }
}
