ghost use Rattle.std.specs.Prelude.{◌≡◌, IsTrue, ok_or};
ghost use Rattle.std.specs.Result.{result_map_both};
ghost use Rattle.field_tables.specs.Halves.{absent};
ghost use Rattle.field_tables.specs.Texts.{text_fits, text_key, bytes_of_text, text_span};

use crate::fault::FieldFault;
use crate::field::TextField;
use crate::halves::{half_of, key_of};
use crate::spans::{Span, bytes_of};
use crate::text_of;
use arrayvec::ArrayVec;
use bus_model::Dev;
use paged_memory::{Half, Image};

macro_rules! texts {
    ($text:ident; $($of:ident $half:ident $page:literal: $($name:ident $first:literal - $last:literal),*;)*) => {
        match $text {
            $($(text_of!($of $name) => Span {
                dev: Dev::A0,
                half: Half::$half,
                page: $page,
                first: $first,
                last: $last,
            },)*)*
        }
    };
}

/// The bytes of a text as they stand, its padding too.
pub fn text_field(image: &Image, text: TextField) -> Result<ArrayVec<u8, 16>, FieldFault>
    ensures { result_map_both (λ bytes. bytes.items) (λ fault. fault) result ≡ ok_or (bytes_of_text image.now text) (absent (text_key text)) }
{
    let span = span_of(text);
    let page = half_of(image, key_of(span.dev, span.half, span.page))?;
    let mut bytes = ArrayVec::new();
    bytes
        .try_extend_from_slice(bytes_of(page.bytes(), span))
        .unwrap();
    Ok(bytes)
}

fn span_of(text: TextField) -> Span
    ensures span { result ≡ text_span text }
    ensures fits { IsTrue (text_fits result) }
{
    // half and page of device A0, first and last byte of each
    texts! { text;
        Cmis Upper 0x00: Vendor 129-144, Part 148-163, PartRevision 164-165, Serial 166-181, Date 182-189, Clei 190-199;
        Sff8636 Upper 0x00: Vendor 148-163, Part 168-183, PartRevision 184-185, Serial 196-211, Date 212-219;
        Sff8472 Lower 0x00: Vendor 20-35, Part 40-55, PartRevision 56-59, Serial 68-83, Date 84-91;
    }
}
