ghost use Rattle.std.specs.Prelude.{◌≡◌, ◌≤◌, ◌%◌, IsTrue, length, ok_or, sum};
ghost use Rattle.field_tables.specs.Halves.{absent};
ghost use Rattle.field_tables.specs.Sums.{sum_fits, sum_key, sum_right_of};
ghost use Rattle.field_tables.specs.Sums as spec;

use crate::fault::FieldFault;
use crate::field::Sum;
use crate::halves::{half_of, index_in_half, key_of};
use crate::spans::{Span, bytes_of};
use crate::sum_of;
use bus_model::Dev;
use paged_memory::{Half, Image, PAGE_LEN};

macro_rules! sums {
    ($sum:ident; $($of:ident $name:ident: $dev:ident $half:ident $page:literal, $first:literal - $last:literal at $address:literal;)*) => {
        match $sum {
            $(sum_of!($of $name) => (
                Span {
                    dev: Dev::$dev,
                    half: Half::$half,
                    page: $page,
                    first: $first,
                    last: $last,
                },
                $address,
            ),)*
        }
    };
}

/// Whether a sum is right.
pub fn sum_right(image: &Image, sum: Sum) -> Result<bool, FieldFault>
    ensures { result ≡ ok_or (sum_right_of image.now sum) (absent (sum_key sum)) }
{
    let (span, address) = row_of(sum);
    let page = half_of(image, key_of(span.dev, span.half, span.page))?;
    let bytes = page.bytes();
    Ok(low_byte_of_sum(bytes_of(bytes, span)) == bytes[index_in_half(usize::from(address))])
}

fn low_byte_of_sum(bytes: &[u8]) -> u8
    requires { length bytes.now ≤ PAGE_LEN }
    ensures { result ≡ sum bytes.now % 256 }
{
    let total: u32 = bytes.iter().map(|byte| u32::from(*byte)).sum();
    (total % 256) as u8
}

fn row_of(sum: Sum) -> (Span, u8)
    ensures row { result ≡ spec.sum_row sum }
    ensures fits { IsTrue (sum_fits result) }
{
    // device, half and page, first and last byte, address
    sums! { sum;
        Cmis Sum00: A0 Upper 0x00, 128-221 at 222;
        Cmis Sum01: A0 Upper 0x01, 130-254 at 255;
        Cmis Sum02: A0 Upper 0x02, 128-254 at 255;
        Sff8636 SumBase: A0 Upper 0x00, 128-190 at 191;
        Sff8636 SumExt: A0 Upper 0x00, 192-222 at 223;
        Sff8472 SumBase: A0 Lower 0x00, 0-62 at 63;
        Sff8472 SumExt: A0 Lower 0x00, 64-94 at 95;
        Sff8472 SumDmi: A2 Lower 0x00, 0-94 at 95;
    }
}
