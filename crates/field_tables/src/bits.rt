ghost use Rattle.std.specs.Prelude.{◌≡◌, ◌<◌, ◌≤◌, ◌+◌};
ghost use Rattle.paged_memory.specs.Images.{place_in_half};
ghost use Rattle.field_tables.specs.Layouts.{bits_up, word};
ghost use Rattle.field_tables.specs.Numbers.{number_in};
ghost use Rattle.field_tables.specs.Halves.{byte_in};

use crate::halves::index_in_half;
use byteorder::{BigEndian, ByteOrder};
use paged_memory::PAGE_LEN;

/// So many bits of the byte at an address, from this one up.
pub fn bits_at(bytes: &[u8; PAGE_LEN], address: usize, low: usize, count: usize) -> u16
    requires inside { place_in_half address < PAGE_LEN }
    requires within { low + count ≤ 8 }
    ensures { result ≡ number_in (byte_in bytes.now) (bits_up address low count) }
{
    let shifted = u16::from(bytes[index_in_half(address)]) >> low;
    shifted & ((1 << count) - 1)
}

/// The 16-bit value at an address.
pub fn word_at(bytes: &[u8; PAGE_LEN], address: usize) -> u16
    requires inside { place_in_half address + 1 < PAGE_LEN }
    ensures { result ≡ number_in (byte_in bytes.now) (word address) }
{
    BigEndian::read_u16(&bytes[index_in_half(address)..])
}
