//! The module on a bus.
ghost use Rattle.std.specs.Prelude.{◌≡◌, ◌+◌, ◌≤◌, length};
ghost use Rattle.simulated_statistics.specs.FreezingModules as spec;

use crate::request::Request;
use arrayvec::ArrayVec;
use bus_model::{Dev, Device, MAX_FETCH};
use paged_memory::{LargeImage, MappedPage, PAGE_LEN, PageAddressing};

/// A module of an image. It freezes its statistics when a host asks for that in byte 144 of page 2Fh, and shows in byte 145 when that is
/// done. No other byte but those of the page selection ever reads otherwise than the image has it.
#[derive(Debug, Drop)]
pub struct FreezingModule {
    pub image: LargeImage,
    /// Which page is shown.
    pub selection: MappedPage,
    /// How many units of time a request takes.
    pub delay: u16,
    /// The last request, if one was made.
    pub request: Option<Request>,
}

impl FreezingModule {
    /// The module of an image, with page 00h of bank 0 selected, of which nothing was asked yet.
    pub fn of(image: LargeImage, delay: u16) -> FreezingModule
        ensures { result ≡ spec.begun image delay }
    {
        FreezingModule {
            image,
            selection: MappedPage::first_page(),
            delay,
            request: None,
        }
    }

    // Whether the upper half of a device shows page 2Fh of bank 0.
    fn shows_control(&self, dev: Dev) -> bool
        ensures { result ≡ spec.shows_control self.now dev }
    {
        match dev {
            Dev::A0 => self.selection.bank == 0 && self.selection.page == 0x2F,
            Dev::A2 => false,
        }
    }

    // The request that the upper half of a device shows.
    fn request_on(&self, dev: Dev) -> Option<Request>
        ensures { result ≡ spec.request_on self.now dev }
    {
        if self.shows_control(dev) {
            self.request
        } else {
            None
        }
    }

    fn store_byte(&mut self, dev: Dev, address: u8, byte: u8)
        ensures { self.new ≡ spec.stored_byte self.old dev address byte }
    {
        if self.shows_control(dev) && address == 144 {
            self.request = Some(Request {
                control: byte,
                left: self.delay,
            });
        }
        let selecting = PageAddressing::on(&self.image.view(), dev);
        self.selection = self
            .selection
            .selected(selecting, &self.image.view(), address, byte);
    }

    // Stores bytes one by one, by rising address.
    fn store_bytes(&mut self, dev: Dev, address: u8, bytes: &[u8])
        requires { address + length bytes.now ≤ 256 }
        ensures { self.new ≡ spec.stored_bytes self.old dev address bytes.now }
    {
        for (index, byte) in bytes.iter().enumerate() {
            self.store_byte(dev, address + index as u8, *byte);
        }
    }
}

impl Device for FreezingModule {
    ghost use Rattle.simulated_statistics.specs.FreezingModules.{conduct};

    type State = FreezingModule;

    ghost state = { λ sim. sim };

    ghost conduct = { conduct };

    fn fetch(&mut self, dev: Dev, offset: u8, count: u8) -> Option<ArrayVec<u8, MAX_FETCH>> {
        let selecting = PageAddressing::on(&self.image.view(), dev);
        let request = self.request_on(dev);
        let selection = self.selection;
        let half = self.image.view().page(selection.key(dev, offset))?;
        Some(bytes_from(selecting, selection, request, offset, count, half.bytes()))
    }

    fn store(&mut self, dev: Dev, offset: u8, bytes: &[u8]) -> bool {
        if self
            .image
            .view()
            .page(self.selection.key(dev, offset))
            .is_none()
        {
            return false;
        }
        self.store_bytes(dev, offset, bytes);
        true
    }

    fn tick(&mut self) {
        if let Some(request) = self.request {
            self.request = Some(request.ticked());
        }
    }

    fn low_power_pin(&mut self, _on: bool) {}
}

// So many of a half's bytes from an address upwards.
fn bytes_from(
    selecting: Option<PageAddressing>,
    selection: MappedPage,
    request: Option<Request>,
    address: u8,
    count: u8,
    half: &[u8; PAGE_LEN],
) -> ArrayVec<u8, MAX_FETCH>
    requires half { address + count ≤ 256 }
    requires room { count ≤ MAX_FETCH }
    ensures bytes { result.items ≡ spec.bytes_from selecting selection request address count half.now }
    ensures count { length result.items ≡ count }
{
    let mut bytes = ArrayVec::new();
    for index in 0..count {
        bytes.push(read_at(selecting, selection, request, half, address + index));
    }
    bytes
}

fn read_at(
    selecting: Option<PageAddressing>,
    selection: MappedPage,
    request: Option<Request>,
    half: &[u8; PAGE_LEN],
    address: u8,
) -> u8
    ensures { result ≡ spec.read_at selecting selection request half.now address }
{
    let byte = selection
        .shown_at(selecting, address)
        .unwrap_or(half[usize::from(address) % PAGE_LEN]);
    match request {
        Some(request) => request.shown_at(address, byte),
        None => byte,
    }
}
