// From numbers to a change of lanes.
ghost use Rattle.std.specs.Prelude.{◌≡◌};
ghost use Rattle.saved_lanes.specs.SavedLanes.{changing_in};
ghost use Rattle.saved_lanes.specs.SavedLanes as spec;

use crate::numbers::{SavedChanging, SavedLaneChange};
use conversations::{OnPage, Patience, Pausing, Within};
use field_tables::LaneSet;
use lane_controls::{
    ChangingLanes, LaneChange, LaneEnd, LaneRegister, LaneStage, PatientLaneProcedure,
};
use paged_memory::KnownPage;

/// What stands in each change under way, so that other memory is not taken for one: `DCL1`.
pub const CHANGE: u32 = 0x4443_4C31;

/// The change that has these numbers, if one has.
#[tactic(auto, unfolding(crate::specs::SavedLanes::changing_in))]
pub fn restore(saved: &SavedChanging) -> Option<PatientLaneProcedure>
    ensures { result ≡ changing_in saved.now }
{
    if is_sound(saved) {
        Some(procedure_in(saved))
    } else {
        None
    }
}

fn is_sound(saved: &SavedChanging) -> bool
    ensures { result ≡ spec.is_sound saved.now }
{
    saved.magic == CHANGE && is_change(&saved.change)
}

/// Whether there is such a control.
pub fn is_change(saved: &SavedLaneChange) -> bool
    ensures { result ≡ spec.is_change saved.now }
{
    saved.control <= 7
}

fn procedure_in(saved: &SavedChanging) -> PatientLaneProcedure
    ensures { result ≡ spec.procedure_in saved.now }
{
    let conversation = OnPage {
        conversation: lanes_in(saved),
        selection: page_in(saved.selection, saved.page),
        taken: taken_in(saved.taken, saved.taken_page),
        doubts: saved.doubts == 1,
    };
    let patience = Patience {
        pause: saved.pause,
        limit: saved.limit,
    };
    Within {
        conversation: Pausing {
            conversation,
            patience,
            due: saved.due == 1,
            idle: saved.idle,
        },
        steps: saved.steps,
        limit: saved.max_steps,
    }
}

fn lanes_in(saved: &SavedChanging) -> ChangingLanes
    ensures { result ≡ spec.lanes_at saved.now }
{
    ChangingLanes {
        change: change_in(&saved.change),
        stage: stage_in(saved),
        left: saved.left,
        refused: saved.refused == 1,
    }
}

/// What is to be changed.
pub fn change_in(saved: &SavedLaneChange) -> LaneChange
    ensures { result ≡ spec.change_in saved.now }
{
    LaneChange {
        register: register_in(saved.control),
        lanes: LaneSet::from(saved.lanes),
        on: saved.on == 1,
        max_stores: saved.max_stores,
        permitted: saved.permitted,
        media_paths: saved.media_paths,
    }
}

fn register_in(number: u8) -> LaneRegister
    ensures { result ≡ spec.register_in number }
{
    match number {
        0 => LaneRegister::InputPolarityFlipTx,
        1 => LaneRegister::OutputDisableTx,
        2 => LaneRegister::AutoSquelchDisableTx,
        3 => LaneRegister::OutputSquelchForceTx,
        4 => LaneRegister::AdaptiveInputEqFreezeTx,
        5 => LaneRegister::OutputPolarityFlipRx,
        6 => LaneRegister::OutputDisableRx,
        _ => LaneRegister::AutoSquelchDisableRx,
    }
}

fn stage_in(saved: &SavedChanging) -> LaneStage
    ensures { result ≡ spec.stage_of saved.now }
{
    match saved.stage {
        0 => LaneStage::Unread,
        1 => LaneStage::Found(saved.byte),
        2 => LaneStage::Admitted(saved.byte),
        _ => LaneStage::Ended(end_in(saved.end, saved.byte, saved.disturbed)),
    }
}

fn end_in(number: u8, byte: u8, lanes: u8) -> LaneEnd
    ensures { result ≡ spec.end_in number byte lanes }
{
    match number {
        0 => LaneEnd::Unchanged(byte),
        1 => LaneEnd::Changed(byte),
        2 => LaneEnd::Ignored(byte),
        3 => LaneEnd::Refused(byte),
        _ => LaneEnd::NotPermitted { byte, lanes },
    }
}

pub(crate) fn page_in(number: u8, page: u16) -> KnownPage
    ensures { result ≡ spec.page_in number page }
{
    match number {
        2 => KnownPage::Page(page),
        1 => KnownPage::Open,
        _ => KnownPage::Unknown,
    }
}

pub(crate) fn taken_in(number: u8, page: u16) -> Option<u16>
    ensures { result ≡ spec.taken_in number page }
{
    if number == 1 { Some(page) } else { None }
}
