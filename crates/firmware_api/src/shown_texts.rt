ghost use Rattle.std.specs.Prelude.{◌≡◌, map};
ghost use Rattle.std.specs.List.{range_with_len};
ghost use Rattle.field_tables.specs.Readings.{text};
ghost use Rattle.firmware_api.specs.ShownTexts.{letter_at, shown_letter, shown_text};

use field_tables::{TextField, text};
use module_decoding::{shown_byte, trimmed};
use paged_memory::Image;

/// Puts into `shown` the bytes of a text field as C is shown them: without the padding at their end, and NUL after the last one.
#[tactic(auto, unfolding(crate::specs::ShownTexts::shown_text))]
pub fn put_text(image: &Image, field: TextField, shown: &mut [u8; 17])
    ensures { shown.new ≡ shown_text (text image.now field) }
{
    put_letters(trimmed(text(image, field).as_slice()), shown);
}

fn put_letters(bytes: &[u8], letters: &mut [u8; 17])
    ensures { letters.new ≡ map (letter_at bytes.now) (range_with_len 0 17) }
{
    for (place, letter) in letters.iter_mut().enumerate() {
        *letter = letter_at(bytes, place);
    }
}

fn letter_at(bytes: &[u8], place: usize) -> u8
    ensures { result ≡ letter_at bytes.now place }
{
    shown_letter(bytes.get(place).copied())
}

fn shown_letter(byte: Option<u8>) -> u8
    ensures { result ≡ shown_letter byte }
{
    match byte {
        Some(byte) => shown_byte(byte),
        None => 0,
    }
}
