//! Pages as a host selects them over a bus: what it asks for, and what it knows. They go by numbers: page p of bank b has 256 * b + p.
ghost use Rattle.std.specs.Prelude.{◌≡◌};
ghost use Rattle.bus_model.specs.Operations.{IsWellShaped};

use crate::family::Family;
use crate::image::Image;
use arrayvec::ArrayVec;
use bus_model::{Dev, Op};

/// How a page is selected: by stores in the lower half.
#[derive(Clone, Copy, Debug, PartialEq, Eq)]
pub enum PageAddressing {
    /// Byte 126 keeps a bank, which byte 127 selects with the page. (CMIS)
    BankAndPage,
    /// Byte 127 selects the page, always of bank 0. (SFF-8636)
    PageAlone,
}

impl PageAddressing {
    ghost use Rattle.paged_memory.specs.MappedPages.{selecting_by, selecting_on};
    ghost use Rattle.paged_memory.specs.PageAddressing.{read_selection, selection};

    /// How pages are selected on a device of the module with this memory, if a host selects them.
    pub fn on(image: &Image, dev: Dev) -> Option<PageAddressing>
        ensures { result ≡ selecting_on image.now dev }
    {
        match dev {
            Dev::A0 => match image.byte(Dev::A0, 0, 0) {
                Some(identifier) => PageAddressing::by(identifier),
                None => Some(PageAddressing::BankAndPage),
            },
            Dev::A2 => None,
        }
    }

    /// How they are selected on device A0 of a module with this identifier; one that is of no family is taken for one of CMIS.
    pub fn by(identifier: u8) -> Option<PageAddressing>
        ensures { result ≡ selecting_by identifier }
    {
        match Family::managing(identifier) {
            Some(Family::Cmis) | None => Some(PageAddressing::BankAndPage),
            Some(Family::Sff8636) => Some(PageAddressing::PageAlone),
            Some(Family::Sff8472) => None,
        }
    }

    /// Asks for a page by its number: with its bank, or alone if it is of bank 0 and pages are selected so.
    pub fn select(self, page: u16) -> Op
        ensures operation { result ≡ selection self page }
        ensures shape { IsWellShaped result }
    {
        let (bank, number) = ((page / 256) as u8, (page % 256) as u8);
        let mut bytes = ArrayVec::new();
        let offset = match self {
            PageAddressing::PageAlone if bank == 0 => 127,
            PageAddressing::BankAndPage | PageAddressing::PageAlone => {
                bytes.push(bank);
                126
            }
        };
        bytes.push(number);
        Op::Store {
            dev: Dev::A0,
            offset,
            bytes,
        }
    }

    /// Asks which page is selected.
    pub fn read_selection(self) -> Op
        ensures operation { result ≡ read_selection self }
        ensures shape { IsWellShaped result }
    {
        let (offset, count) = match self {
            PageAddressing::BankAndPage => (126, 2),
            PageAddressing::PageAlone => (127, 1),
        };
        Op::Fetch {
            dev: Dev::A0,
            offset,
            count,
        }
    }
}

/// What a host knows of the page selection by the steps that it made.
#[derive(Clone, Copy, Debug, PartialEq, Eq)]
pub enum KnownPage {
    /// Nothing.
    Unknown,
    /// It was stored to, and not read back yet.
    Open,
    /// The page of this number was read back.
    Page(u16),
}

impl KnownPage {
    ghost use Rattle.paged_memory.specs.KnownPages.{is_awaited, missing_page, selection_read, wanted};

    /// Whether a read back is awaited.
    pub fn is_open(self) -> bool
        ensures { result ≡ is_awaited self }
    {
        matches!(self, KnownPage::Open)
    }

    /// The page that is needed, if it isn't known to be selected.
    pub fn missing(self, needed: Option<u16>) -> Option<u16>
        ensures { result ≡ missing_page self needed }
    {
        match needed {
            Some(page) if self != KnownPage::Page(page) => Some(page),
            _ => None,
        }
    }

    /// What is to be made next if an operation is wanted that needs a page, or none.
    pub fn wanted(self, addressing: PageAddressing, needed: Option<u16>, op: Op) -> Op
        requires { IsWellShaped op }
        ensures operation { result ≡ wanted addressing self needed op }
        ensures shape { IsWellShaped result }
    {
        if self.is_open() {
            return addressing.read_selection();
        }
        match self.missing(needed) {
            Some(page) => addressing.select(page),
            None => op,
        }
    }

    /// What a read back of these bytes says.
    pub fn of(addressing: PageAddressing, bytes: &[u8]) -> KnownPage
        ensures { result ≡ selection_read addressing bytes.now }
    {
        match (addressing, bytes) {
            (PageAddressing::BankAndPage, [bank, page]) => KnownPage::Page(
                u16::from(*bank) * 256 + u16::from(*page),
            ),
            (PageAddressing::PageAlone, [page]) => KnownPage::Page(u16::from(*page)),
            _ => KnownPage::Unknown,
        }
    }
}
