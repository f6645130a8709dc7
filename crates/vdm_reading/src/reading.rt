//! A reading of a module's statistics: frozen, read page by page, and released.
ghost use Rattle.std.specs.Prelude.{◌≡◌, ◌≤◌, ◌<◌, ◌+◌, ◌++◌, [], length};
ghost use Rattle.bus_model.specs.declared.device.Dev.TheVariants.{A0};
ghost use Rattle.bus_model.specs.declared.operation.Op.TheVariants.{Fetch};
ghost use Rattle.bus_model.specs.Operations.{IsWellShaped};
ghost use Rattle.conversations.specs.Wanted.{IfDo};
ghost use Rattle.vdm_reading.specs.BankPages.{groups_page, numbered};
ghost use Rattle.vdm_reading.specs.FrozenSteps as steps;
ghost use Rattle.vdm_reading.specs.VdmAccounts as accounts;
ghost use Rattle.vdm_reading.specs.VdmStages as spec;

use crate::end::{MAX_PAGES, Release, Statistics, VdmEnd};
use arrayvec::ArrayVec;
use bus_model::{Dev, Op};
use conversations::Next;
use paged_memory::{Image, Key, KnownPage, PageAddressing, SmallImage};

/// How many transactions of a stage may be refused, or show another page; one more, and the stage is lost.
pub const MOST_RETRIES: u16 = 2;

/// As many where byte 145 is fetched until its bit is 1, those included in which it is 0.
pub const MOST_POLLS: u16 = 100;

/// How far a reading has come: what is to be done.
#[derive(Clone, Copy, Debug, PartialEq, Eq)]
pub enum VdmStage {
    /// Read page 01h, whose byte 142 has whether there are statistics.
    Advertised,
    /// Read page 2Fh of the bank, which has their groups and the control byte.
    Groups,
    /// Ask for a freeze.
    Freeze,
    /// Wait until they are frozen.
    Freezing,
    /// Read the page with this number.
    Page(u16),
    /// End the freeze.
    Release,
    /// Wait until it has ended.
    Releasing,
    Over,
}

/// Which statistics are read, and how.
#[derive(Clone, Copy, Debug, PartialEq, Eq, Drop)]
pub struct VdmRequest {
    /// So many milliseconds pass after a fruitless transaction: one that was refused, that showed another page, or in which a bit was
    /// not yet 1.
    pub pause: u32,
    /// The bank whose statistics are read.
    pub bank: u8,
}

/// A reading of the statistics of a bank under way. Pages go by their numbers, 256 * bank + page.
#[derive(Drop)]
pub struct VdmReading {
    pub request: VdmRequest,
    pub stage: VdmStage,
    /// The pages that were read.
    pub image: SmallImage,
    pub selection: KnownPage,
    /// How many transactions may still be fruitless at this stage.
    pub left: u16,
    /// Whether a pause is due.
    pub due: bool,
    /// The pages that are advertised.
    pub pages: ArrayVec<u16, MAX_PAGES>,
    /// Those of them that are still to be read, but for that of the stage.
    pub todo: ArrayVec<u16, MAX_PAGES>,
    /// Byte 144 of page 2Fh as it was read.
    pub control: u8,
    pub statistics: Statistics,
    pub release: Release,
}

/// The number of the page that has the groups of a bank, and its control byte.
pub fn groups_page(bank: u8) -> u16
    ensures { result ≡ groups_page bank }
{
    numbered(bank, 0x2F)
}

// The number of a page of a bank.
pub(crate) fn numbered(bank: u8, page: u8) -> u16
    ensures { result ≡ numbered bank page }
{
    256 * u16::from(bank) + u16::from(page)
}

impl VdmStage {
    /// The number of the page on which that is done, in a reading of this bank.
    pub fn page(self, bank: u8) -> u16
        ensures { result ≡ spec.page_at bank self }
    {
        match self {
            VdmStage::Advertised => 0x01,
            VdmStage::Page(page) => page,
            _ => groups_page(bank),
        }
    }

    /// How many transactions may be fruitless.
    pub fn allowance(self) -> u16
        ensures { result ≡ spec.allowance self }
    {
        match self {
            VdmStage::Freezing | VdmStage::Releasing => MOST_POLLS,
            VdmStage::Over => 0,
            _ => MOST_RETRIES,
        }
    }
}

impl VdmReading {
    /// Nothing was read or stored yet.
    pub fn begin(request: VdmRequest) -> VdmReading
        ensures value { result ≡ spec.begun request }
        ensures told { accounts.IsTold [] result }
    {
        VdmReading {
            request,
            stage: VdmStage::Advertised,
            image: SmallImage::new(),
            selection: KnownPage::Unknown,
            left: MOST_RETRIES,
            due: false,
            pages: ArrayVec::new(),
            todo: ArrayVec::new(),
            control: 0,
            statistics: Statistics::Unknown,
            release: Release::NotNeeded,
        }
    }

    // What comes next.
    pub(crate) fn wanted(&self) -> Next<VdmEnd>
        ensures value { result ≡ spec.wants self.now }
        ensures shape { IfDo result IsWellShaped }
    {
        match self.stage {
            VdmStage::Advertised | VdmStage::Groups | VdmStage::Page(_) => self.turn(fetch(
                128, 128,
            )),
            VdmStage::Freeze => self.turn(store_control(128 + self.control % 128)),
            VdmStage::Freezing | VdmStage::Releasing => self.turn(fetch(145, 1)),
            VdmStage::Release => self.turn(store_control(self.control % 128)),
            VdmStage::Over => Next::End(self.end()),
        }
    }

    fn turn(&self, op: Op) -> Next<VdmEnd>
        requires { IsWellShaped op }
        ensures value { result ≡ spec.turn self.now op }
        ensures shape { IfDo result IsWellShaped }
    {
        if self.due {
            return Next::Wait(self.request.pause);
        }
        let page = Some(self.current_page());
        Next::Do(self.selection.wanted(PageAddressing::BankAndPage, page, op))
    }

    /// The number of the page that is to be selected now.
    pub fn current_page(&self) -> u16
        ensures { result ≡ spec.page_now self.now }
    {
        self.stage.page(self.request.bank)
    }

    fn end(&self) -> VdmEnd
        ensures { result ≡ spec.end_of self.now }
    {
        VdmEnd {
            statistics: self.statistics,
            release: self.release,
            missing: missing(&self.pages, &self.image.view()),
        }
    }
}

// Those that the image lacks.
#[tactic(auto, unfolding(crate::specs::VdmStages::missing))]
fn missing(pages: &[u16], image: &Image) -> ArrayVec<u16, MAX_PAGES>
    requires { length pages.now ≤ 16 }
    ensures { result.items ≡ spec.missing pages.now image.now }
{
    let mut missing = ArrayVec::new();
    for page in pages {
        let absent = !image.has(Key::of_page(*page));
        and_if(absent, *page, &mut missing);
    }
    missing
}

// One page more, if it is absent.
fn and_if(absent: bool, page: u16, missing: &mut ArrayVec<u16, MAX_PAGES>)
    requires { length missing.old.items < 16 }
    ensures items { missing.new.items ≡ missing.old.items ++ spec.and_if absent page [] }
    ensures few { length missing.new.items ≤ length missing.old.items + 1 }
{
    if absent {
        missing.push(page);
    }
}

fn fetch(offset: u8, count: u8) -> Op
    requires from { 128 ≤ offset }
    requires some { 1 ≤ count }
    requires to { offset + count ≤ 256 }
    ensures value { result ≡ Fetch A0 offset count }
    ensures shape { IsWellShaped result }
{
    Op::Fetch {
        dev: Dev::A0,
        offset,
        count,
    }
}

fn store_control(byte: u8) -> Op
    ensures value { result ≡ steps.store_control byte }
    ensures shape { IsWellShaped result }
{
    let mut bytes = ArrayVec::new();
    bytes.push(byte);
    Op::Store {
        dev: Dev::A0,
        offset: 144,
        bytes,
    }
}
