// The numbers of a reading of statistics.

/// How many pages have a place in a list.
pub const MAX_LISTED: usize = 16;

/// How many halves are read at most: pages 01h and 2Fh, and those that a module of four groups advertises.
pub const MAX_HALVES: usize = 15;

/// A reading of a bank under way, but for the halves that it has read.
#[repr(C)]
#[derive(Clone, Copy)]
pub struct SavedVdm {
    /// What stands in each, so that other memory is not taken for one.
    pub magic: u32,
    /// How many milliseconds pass after a fruitless transaction.
    pub pause: u32,
    /// How many transactions may still be fruitless.
    pub left: u16,
    /// 0 to 7, in the order of the stages.
    pub stage: u8,
    /// The bank whose statistics are read. Pages go by their numbers, 256 * bank + page.
    pub bank: u8,
    /// The page that is read at stage 4, or 0.
    pub stage_page: u16,
    pub page: u16,
    /// 2 if this page was read back, 1 if that is awaited, else 0.
    pub selection: u8,
    /// 1 if it is to pause before the next operation, else 0.
    pub due: u8,
    /// Byte 144 of page 2Fh as it was read.
    pub control: u8,
    /// What was read, 0 to 4 in their order.
    pub statistics: u8,
    /// What became of a request to freeze, 0 to 3 in their order.
    pub release: u8,
    /// How many halves were read.
    pub halves: u8,
    /// How many pages are advertised, and how many of them are still to be read.
    pub page_count: u8,
    pub todo_count: u8,
    pub pages: [u16; MAX_LISTED],
    pub todo: [u16; MAX_LISTED],
}
