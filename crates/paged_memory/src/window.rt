//! A module whose memory never changes.
ghost use Rattle.std.specs.Prelude.{◌≡◌, ◌+◌, ◌≤◌, length, IsTrue};
ghost use Rattle.std.specs.FinMap as map;
ghost use Rattle.paged_memory.specs.KeyOrder.{key_cmp};
ghost use Rattle.paged_memory.specs.MappedPages.{selected_in_turn};
ghost use Rattle.paged_memory.specs.Windows.{read_at, bytes_from};

use crate::entries::page_at;
use crate::image::Image;
use crate::key::Key;
use crate::mapped_page::MappedPage;
use crate::page::{PAGE_LEN, Page};
use crate::page_addressing::PageAddressing;
use arrayvec::ArrayVec;
use bus_model::{Dev, Device, MAX_FETCH};
use std::marker::Model;
use thiserror::Error;

/// Why an image has no window.
#[derive(Clone, Copy, Debug, PartialEq, Eq, Drop, Error)]
pub enum WindowFault {
    /// The image has more pages than the window has room for.
    #[error("more pages than the window has room for")]
    MorePages,
}

/// An image of at most `PAGES` pages, of which a selection says what a device shows. Stores change the selection alone.
#[derive(Debug, Drop)]
pub struct Window<const PAGES: usize> {
    entries: ArrayVec<(Key, Page), PAGES>,
    selecting: Option<PageAddressing>,
    selection: MappedPage,
}

impl<const PAGES: usize> Model for Window<PAGES> {
    ghost use Rattle.std.specs.FinMap as map;
    ghost use Rattle.bus_model.specs.declared.device.Dev.TheVariants.{A0};
    ghost use Rattle.paged_memory.specs.MappedPages.{selecting_on};
    ghost use Rattle.paged_memory.specs.Windows.{Windowed, AreShown};
    ghost use Rattle.paged_memory.specs.WindowCode.{coded_window};

    ghost Value = { Windowed };

    ghost coded = { coded_window };

    ghost view = { λ window. record { memory = map.from_sorted window.entries.items; selection = window.selection } };

    ghost invariant = { λ window. AreShown window.entries.items window.selecting };
}

impl<const PAGES: usize> Window<PAGES> {
    ghost use Rattle.std.specs.Prelude.{◌≡◌, ◌↔◌, ◌<◌, IfOk, IfErr, IsErr};
    ghost use Rattle.std.specs.FinMap as map;
    ghost use Rattle.bus_model.specs.declared.device.Dev.{Dev};
    ghost use Rattle.paged_memory.specs.MappedPages.{selecting_on};
    ghost use Rattle.paged_memory.specs.Windows.{started};

    /// The window of an image, with page 00h of bank 0 selected.
    pub fn of(image: &Image) -> Result<Self, WindowFault>
        ensures ok { IfOk result (λ window. window ≡ started image.now) }
        ensures more { IsErr result ↔ (PAGES < map.len image.now) }
        ensures fault { IfErr result (λ fault. fault ≡ WindowFault.MorePages) }
    {
        match ArrayVec::try_from(image.entries()) {
            Ok(entries) => Ok(Window {
                entries,
                selecting: PageAddressing::on(image, Dev::A0),
                selection: MappedPage::first_page(),
            }),
            Err(_) => Err(WindowFault::MorePages),
        }
    }

    // How pages are selected on a device.
    fn selecting_on(&self, dev: Dev) -> Option<PageAddressing>
        ensures { result ≡ selecting_on self.now.memory dev }
    {
        match dev {
            Dev::A0 => self.selecting,
            Dev::A2 => None,
        }
    }
}

impl<const PAGES: usize> Device for Window<PAGES> {
    ghost use Rattle.paged_memory.specs.Windows.{window_conduct};

    type State = Window<PAGES>;

    ghost state = { λ window. window };

    ghost conduct = { window_conduct };

    fn fetch(&mut self, dev: Dev, offset: u8, count: u8) -> Option<ArrayVec<u8, MAX_FETCH>> {
        let selecting = self.selecting_on(dev);
        let selection = self.selection;
        let half = page_at(&self.entries, selection.key(dev, offset))?;
        Some(bytes_from(selecting, selection, offset, count, half.bytes()))
    }

    fn store(&mut self, dev: Dev, offset: u8, bytes: &[u8]) -> bool {
        let selecting = self.selecting_on(dev);
        if page_at(&self.entries, self.selection.key(dev, offset)).is_none() {
            return false;
        }
        self.selection = select(selecting, self.selection, &self.entries, offset, bytes);
        true
    }

    fn tick(&mut self) {}

    fn low_power_pin(&mut self, _on: bool) {}
}

// So many of a half's bytes from an address upwards.
fn bytes_from(
    selecting: Option<PageAddressing>,
    selection: MappedPage,
    address: u8,
    count: u8,
    half: &[u8; PAGE_LEN],
) -> ArrayVec<u8, MAX_FETCH>
    requires half { address + count ≤ 256 }
    requires room { count ≤ MAX_FETCH }
    ensures bytes { result.items ≡ bytes_from selecting selection address count half.now }
    ensures count { length result.items ≡ count }
{
    let mut bytes = ArrayVec::new();
    for index in 0..count {
        bytes.push(read_at(selecting, selection, half, address + index));
    }
    bytes
}

fn read_at(
    selecting: Option<PageAddressing>,
    selection: MappedPage,
    half: &[u8; PAGE_LEN],
    address: u8,
) -> u8
    ensures { result ≡ read_at selecting selection half.now address }
{
    selection
        .shown_at(selecting, address)
        .unwrap_or(half[usize::from(address) % PAGE_LEN])
}

// The selection after bytes were stored one by one, from an address upwards.
fn select(
    selecting: Option<PageAddressing>,
    selection: MappedPage,
    entries: &[(Key, Page)],
    address: u8,
    bytes: &[u8],
) -> MappedPage
    requires sorted { IsTrue (map.is_sorted key_cmp entries.now) }
    requires half { address + length bytes.now ≤ 256 }
    ensures { result ≡ selected_in_turn selecting (map.from_sorted entries.now) selection address bytes.now }
{
    let mut selection = selection;
    for (index, byte) in bytes.iter().enumerate() {
        selection = selection.selected_among(selecting, entries, address + index as u8, *byte);
    }
    selection
}
