// Words of pages of a bank.
ghost use Rattle.std.specs.Prelude.{◌≡◌, ◌<◌, ◌≤◌, ◌-◌};
ghost use Rattle.std.specs.Option.{option_copied};
ghost use Rattle.observables.specs.Words as spec;

use bus_model::Dev;
use paged_memory::{Image, Key, PAGE_LEN, Page};

/// A page of a bank.
pub fn page_of<'a>(image: &Image<'a>, bank: u8, page: u8) -> Option<&'a Page>
    ensures { option_copied result ≡ spec.page_of image.now bank page }
{
    image.page(Key::upper(Dev::A0, bank, page))
}

/// The word whose first byte is at an address.
pub fn word_in(bytes: &[u8; PAGE_LEN], address: u8) -> u16
    requires first { 128 ≤ address }
    requires next { address < 255 }
    ensures { result ≡ spec.word_in bytes.now address }
{
    let first = usize::from(address) - PAGE_LEN;
    u16::from(bytes[first]) * 256 + u16::from(bytes[first + 1])
}

/// The byte at an address.
pub fn byte_in(bytes: &[u8; PAGE_LEN], address: u8) -> u8
    requires { 128 ≤ address }
    ensures { result ≡ spec.byte_in bytes.now address }
{
    bytes[usize::from(address) - PAGE_LEN]
}
