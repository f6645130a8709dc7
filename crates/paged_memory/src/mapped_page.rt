//! Which page of a module its upper half shows.
ghost use Rattle.std.specs.Prelude.{◌≡◌, IsTrue};
ghost use Rattle.std.specs.FinMap as map;
ghost use Rattle.paged_memory.specs.KeyOrder.{key_cmp};
ghost use Rattle.paged_memory.specs.MappedPages as spec;

use crate::entries::page_at;
use crate::image::Image;
use crate::key::Key;
use crate::page::Page;
use crate::page_addressing::PageAddressing;
use bus_model::Dev;

/// The page that addresses 128 to 255 of device A0 show.
#[derive(Clone, Copy, Debug, PartialEq, Eq)]
pub struct MappedPage {
    pub bank: u8,
    pub page: u8,
    /// The bank that the next store of a page takes.
    pub waiting: u8,
}

impl MappedPage {
    /// Page 00h of bank 0.
    pub fn first_page() -> MappedPage
        ensures { result ≡ spec.first_page }
    {
        MappedPage {
            bank: 0,
            page: 0,
            waiting: 0,
        }
    }

    // The selection of a page of a bank, or of the first page if there is no such page.
    fn mapped(entries: &[(Key, Page)], bank: u8, page: u8) -> MappedPage
        requires { IsTrue (map.is_sorted key_cmp entries.now) }
        ensures { result ≡ spec.mapped (map.from_sorted entries.now) bank page }
    {
        if page_at(entries, Key::upper(Dev::A0, bank, page)).is_some() {
            MappedPage {
                bank,
                page,
                waiting: bank,
            }
        } else {
            MappedPage::first_page()
        }
    }

    /// The selection after a byte was stored at an address (0 to 255).
    pub fn selected(
        self,
        selecting: Option<PageAddressing>,
        image: &Image,
        address: u8,
        byte: u8,
    ) -> MappedPage
        ensures { result ≡ spec.selected selecting image.now self address byte }
    {
        self.selected_among(selecting, image.entries(), address, byte)
    }

    /// The same over an image's pages.
    pub(crate) fn selected_among(
        self,
        selecting: Option<PageAddressing>,
        entries: &[(Key, Page)],
        address: u8,
        byte: u8,
    ) -> MappedPage
        requires { IsTrue (map.is_sorted key_cmp entries.now) }
        ensures { result ≡ spec.selected selecting (map.from_sorted entries.now) self address byte }
    {
        match (selecting, address) {
            (Some(PageAddressing::BankAndPage), 126) => MappedPage {
                waiting: byte,
                ..self
            },
            (Some(PageAddressing::BankAndPage), 127) => Self::mapped(entries, self.waiting, byte),
            (Some(PageAddressing::PageAlone), 127) => Self::mapped(entries, 0, byte),
            _ => self,
        }
    }

    /// What an address (0 to 255) reads as, if it shows the selection and not what the memory has there.
    pub fn shown_at(self, selecting: Option<PageAddressing>, address: u8) -> Option<u8>
        ensures { result ≡ spec.shown_at selecting self address }
    {
        match (selecting, address) {
            (Some(PageAddressing::BankAndPage), 126) => Some(self.bank),
            (Some(_), 127) => Some(self.page),
            _ => None,
        }
    }

    /// The key of the half that shows an address (0 to 255) of a device.
    pub fn key(self, dev: Dev, address: u8) -> Key
        ensures { result ≡ spec.shown_key dev self address }
    {
        match dev {
            _ if address < 128 => Key::lower(dev),
            Dev::A0 => Key::upper(dev, self.bank, self.page),
            Dev::A2 => Key::upper(dev, 0, 0),
        }
    }
}
