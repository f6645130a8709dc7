// From numbers to a reading of statistics.
ghost use Rattle.std.specs.Prelude.{◌≡◌, ◌≤◌, length, take, true};
ghost use Rattle.saved_vdm.specs.SavedReadings.{reading_in};
ghost use Rattle.saved_vdm.specs.SavedReadings as spec;

use crate::numbers::{MAX_HALVES, MAX_LISTED, SavedVdm};
use arrayvec::ArrayVec;
use paged_memory::{KnownPage, SmallImage};
use vdm_reading::{Release, Statistics, VdmReading, VdmRequest, VdmStage};

/// What stands in each reading under way, so that other memory is not taken for one: `DCV1`.
pub const READING: u32 = 0x4443_5631;

/// The reading that has these numbers and has read this image, if one has.
#[tactic(auto, unfolding(crate::specs::SavedReadings::reading_in))]
pub fn restore(saved: &SavedVdm, image: SmallImage) -> Option<VdmReading>
    ensures { result ≡ reading_in saved.now image }
{
    if is_sound(saved) {
        Some(reading_at(saved, image))
    } else {
        None
    }
}

fn is_sound(saved: &SavedVdm) -> bool
    ensures { result ≡ spec.is_sound saved.now }
{
    saved.magic == READING && are_codes(saved) && are_lists(saved) && has_room(saved)
}

fn are_codes(saved: &SavedVdm) -> bool
    ensures { result ≡ spec.are_codes saved.now }
{
    saved.stage <= 7 && saved.statistics <= 4 && saved.release <= 3
}

fn are_lists(saved: &SavedVdm) -> bool
    ensures { result ≡ spec.are_lists saved.now }
{
    usize::from(saved.page_count) <= MAX_LISTED && usize::from(saved.todo_count) <= MAX_LISTED
}

fn has_room(saved: &SavedVdm) -> bool
    ensures { result ≡ spec.has_room saved.now }
{
    let stage = stage_in(saved.stage, saved.stage_page);
    usize::from(saved.halves) + need(stage, usize::from(saved.todo_count)) <= MAX_HALVES
}

/// How many halves are still to be read at most, with so many pages besides that of the stage.
pub(crate) fn need(stage: VdmStage, todo: usize) -> usize
    requires { todo ≤ 255 }
    ensures value { result ≡ spec.need stage todo }
    ensures few { result ≤ 256 }
{
    match stage {
        VdmStage::Advertised => MAX_HALVES,
        VdmStage::Groups => MAX_HALVES - 1,
        VdmStage::Freeze | VdmStage::Freezing => todo,
        VdmStage::Page(_) => todo + 1,
        VdmStage::Release | VdmStage::Releasing | VdmStage::Over => 0,
    }
}

fn reading_at(saved: &SavedVdm, image: SmallImage) -> VdmReading
    requires { spec.is_sound saved.now ≡ true }
    ensures { result ≡ spec.reading_at saved.now image }
{
    let pages = pages_in(saved.page_count, &saved.pages);
    let todo = pages_in(saved.todo_count, &saved.todo);
    VdmReading {
        request: VdmRequest {
            pause: saved.pause,
            bank: saved.bank,
        },
        stage: stage_in(saved.stage, saved.stage_page),
        image,
        selection: page_in(saved.selection, saved.page),
        left: saved.left,
        due: saved.due == 1,
        pages,
        todo,
        control: saved.control,
        statistics: statistics_in(saved.statistics),
        release: release_in(saved.release),
    }
}

fn stage_in(number: u8, page: u16) -> VdmStage
    ensures { result ≡ spec.stage_in number page }
{
    match number {
        0 => VdmStage::Advertised,
        1 => VdmStage::Groups,
        2 => VdmStage::Freeze,
        3 => VdmStage::Freezing,
        4 => VdmStage::Page(page),
        5 => VdmStage::Release,
        6 => VdmStage::Releasing,
        _ => VdmStage::Over,
    }
}

fn page_in(number: u8, page: u16) -> KnownPage
    ensures { result ≡ spec.page_in number page }
{
    match number {
        2 => KnownPage::Page(page),
        1 => KnownPage::Open,
        _ => KnownPage::Unknown,
    }
}

fn statistics_in(number: u8) -> Statistics
    ensures { result ≡ spec.statistics_in number }
{
    match number {
        0 => Statistics::Unknown,
        1 => Statistics::Unsupported,
        2 => Statistics::Refused,
        3 => Statistics::Pending,
        _ => Statistics::Frozen,
    }
}

fn release_in(number: u8) -> Release
    ensures { result ≡ spec.release_in number }
{
    match number {
        0 => Release::NotNeeded,
        1 => Release::MayBeFrozen,
        2 => Release::Accepted,
        _ => Release::Released,
    }
}

// The first of them, so many.
fn pages_in(count: u8, saved: &[u16; MAX_LISTED]) -> ArrayVec<u16, MAX_LISTED>
    requires { count ≤ 16 }
    ensures { result.items ≡ take count saved.now }
{
    ArrayVec::try_from(&saved[..usize::from(count)]).unwrap()
}
