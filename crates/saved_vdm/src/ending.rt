// How a reading of statistics ended, as numbers.
ghost use Rattle.std.specs.Prelude.{◌≡◌};
ghost use Rattle.saved_vdm.specs.VdmEndings.{IsEnding};

use crate::numbers::MAX_LISTED;
use crate::saving::{number_of_release, number_of_statistics, numbers_of_pages};
use vdm_reading::VdmEnd;

/// How it ended.
#[repr(C)]
#[derive(Clone, Copy)]
pub struct SavedVdmEnd {
    /// 0 if it isn't known whether the module has statistics, 1 if it advertises none, 2 if it didn't accept the request to freeze them,
    /// 3 if it accepted it and didn't freeze them in time, 4 if they were frozen while they were read.
    pub statistics: u8,
    /// 0 if no freeze was asked for, 1 if they may still be frozen, 2 if a release was accepted, 3 if it was done.
    pub release: u8,
    /// How many pages that are advertised couldn't be read.
    pub missing_count: u8,
    /// The numbers of these pages, and zeros after them.
    pub missing: [u16; MAX_LISTED],
}

/// The numbers of how it ended.
pub fn ending_of(end: &VdmEnd) -> SavedVdmEnd
    ensures { IsEnding result end.now }
{
    let missing = numbers_of_pages(&end.missing);
    let each = missing.1;
    SavedVdmEnd {
        statistics: number_of_statistics(end.statistics),
        release: number_of_release(end.release),
        missing_count: missing.0,
        missing: each,
    }
}
