// The numbers of a reading of statistics.
ghost use Rattle.std.specs.Prelude.{◌≡◌, ◌≤◌, ◌+◌, Some, length, take, true};
ghost use Rattle.saved_vdm.specs.SavedReadings.{most_halves, need, reading_in};
ghost use Rattle.saved_vdm.specs.SavedReadings as spec;
ghost use Rattle.saved_vdm.specs.VdmEndings as ends;

use crate::numbers::{MAX_LISTED, SavedVdm};
use crate::restoring::READING;
use arrayvec::ArrayVec;
use paged_memory::KnownPage;
use vdm_reading::{Release, Statistics, VdmReading, VdmStage};

/// The numbers of a reading that has read so many halves.
pub fn save(reading: &VdmReading, halves: u8) -> SavedVdm
    requires { halves + need reading.now.stage (length reading.now.todo.items) ≤ most_halves }
    ensures same { reading_in result reading.now.image ≡ Some reading.now }
    ensures halves { result.halves ≡ halves }
{
    let stage = numbers_of_stage(reading.stage);
    let page = numbers_of_page(reading.selection);
    let due = number_of(reading.due);
    let statistics = number_of_statistics(reading.statistics);
    let release = number_of_release(reading.release);
    let pages = numbers_of_pages(&reading.pages);
    let todo = numbers_of_pages(&reading.todo);
    let each_page = pages.1;
    let each_todo = todo.1;
    SavedVdm {
        magic: READING,
        pause: reading.request.pause,
        left: reading.left,
        stage: stage.0,
        bank: reading.request.bank,
        stage_page: stage.1,
        page: page.1,
        selection: page.0,
        due,
        control: reading.control,
        statistics,
        release,
        halves,
        page_count: pages.0,
        todo_count: todo.0,
        pages: each_page,
        todo: each_todo,
    }
}

fn numbers_of_stage(stage: VdmStage) -> (u8, u16)
    ensures same { spec.stage_in result.0 result.1 ≡ stage }
    ensures known { result.0 ≤ 7 }
{
    match stage {
        VdmStage::Advertised => (0, 0),
        VdmStage::Groups => (1, 0),
        VdmStage::Freeze => (2, 0),
        VdmStage::Freezing => (3, 0),
        VdmStage::Page(page) => (4, page),
        VdmStage::Release => (5, 0),
        VdmStage::Releasing => (6, 0),
        VdmStage::Over => (7, 0),
    }
}

fn numbers_of_page(selected: KnownPage) -> (u8, u16)
    ensures { spec.page_in result.0 result.1 ≡ selected }
{
    match selected {
        KnownPage::Unknown => (0, 0),
        KnownPage::Open => (1, 0),
        KnownPage::Page(page) => (2, page),
    }
}

fn number_of(yes: bool) -> u8
    ensures { spec.is_one result ≡ yes }
{
    if yes { 1 } else { 0 }
}

/// 0 to 4, in their order.
pub(crate) fn number_of_statistics(statistics: Statistics) -> u8
    ensures value { result ≡ ends.number_of_statistics statistics }
    ensures same { spec.statistics_in result ≡ statistics }
    ensures known { result ≤ 4 }
{
    match statistics {
        Statistics::Unknown => 0,
        Statistics::Unsupported => 1,
        Statistics::Refused => 2,
        Statistics::Pending => 3,
        Statistics::Frozen => 4,
    }
}

/// 0 to 3, in their order.
pub(crate) fn number_of_release(release: Release) -> u8
    ensures value { result ≡ ends.number_of_release release }
    ensures same { spec.release_in result ≡ release }
    ensures known { result ≤ 3 }
{
    match release {
        Release::NotNeeded => 0,
        Release::MayBeFrozen => 1,
        Release::Accepted => 2,
        Release::Released => 3,
    }
}

/// How many there are, and themselves with zeros after them.
pub(crate) fn numbers_of_pages(pages: &ArrayVec<u16, MAX_LISTED>) -> (u8, [u16; MAX_LISTED])
    ensures listed { result.1 ≡ ends.listed pages.now.items }
    ensures same { take result.0 result.1 ≡ pages.now.items }
    ensures count { result.0 ≡ length pages.now.items }
    ensures few { result.0 ≤ 16 }
{
    let count = pages.len();
    let all = first_pages(pages);
    (count as u8, all)
}

fn first_pages(pages: &ArrayVec<u16, MAX_LISTED>) -> [u16; MAX_LISTED]
    ensures listed { result ≡ ends.listed pages.now.items }
    ensures same { take (length pages.now.items) result ≡ pages.now.items }
{
    let mut all = [0; MAX_LISTED];
    all[..pages.len()].copy_from_slice(pages);
    all
}
