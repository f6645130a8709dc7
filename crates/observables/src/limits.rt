ghost use Rattle.std.specs.Prelude.{◌≡◌, ◌<◌, option_map};
ghost use Rattle.observables.specs.Limits as spec;
ghost use Rattle.observables.specs.Words.{page_of};

use crate::words::{byte_in, page_of, word_in};
use field_tables::PerLimit;
use paged_memory::{Image, PAGE_LEN};

/// The limits of a set of a group, as words.
pub fn limits_in_set(image: &Image, bank: u8, group: u8, set: u8) -> Option<PerLimit<u16>>
    requires group { group < 4 }
    requires set { set < 16 }
    ensures { result ≡ spec.limits_in_set image.now bank group set }
{
    let page = page_of(image, bank, 0x28 + group)?;
    Some(limits_in(page.bytes(), set))
}

fn limits_in(bytes: &[u8; PAGE_LEN], set: u8) -> PerLimit<u16>
    requires { set < 16 }
    ensures { result ≡ spec.limits_in bytes.now set }
{
    let first = 128 + 8 * set;
    PerLimit {
        high_alarm: word_in(bytes, first),
        low_alarm: word_in(bytes, first + 2),
        high_warning: word_in(bytes, first + 4),
        low_warning: word_in(bytes, first + 6),
    }
}

/// Which limits an instance has passed since page 2Ch was last read.
pub fn flags_of(image: &Image, bank: u8, instance: u8) -> Option<PerLimit<bool>>
    ensures { result ≡ spec.flags_of image.now bank instance }
{
    let page = page_of(image, bank, 0x2C)?;
    Some(flags_in(page.bytes(), instance))
}

fn flags_in(bytes: &[u8; PAGE_LEN], instance: u8) -> PerLimit<bool>
    ensures { result ≡ spec.flags_in bytes.now instance }
{
    let nibble = nibble_in(bytes, instance);
    PerLimit {
        high_alarm: has_bit(nibble, 1),
        low_alarm: has_bit(nibble, 2),
        high_warning: has_bit(nibble, 4),
        low_warning: has_bit(nibble, 8),
    }
}

fn nibble_in(bytes: &[u8; PAGE_LEN], instance: u8) -> u8
    ensures { result ≡ spec.nibble_in bytes.now instance }
{
    let byte = byte_in(bytes, 128 + instance / 2);
    if instance % 2 == 0 {
        byte % 16
    } else {
        byte / 16
    }
}

// Whether the bit that counts so much is 1.
fn has_bit(nibble: u8, weight: u8) -> bool
    requires { 0 < weight }
    ensures { result ≡ spec.has_bit nibble weight }
{
    nibble / weight % 2 == 1
}
