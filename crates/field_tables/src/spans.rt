ghost use Rattle.std.specs.Prelude.{◌≡◌, IsTrue};
ghost use Rattle.field_tables.specs.Spans.{bytes_in, span_fits};

use crate::halves::index_in_half;
use bus_model::Dev;
use paged_memory::{Half, PAGE_LEN};

/// Consecutive bytes of a half, by the addresses of the first and the last.
#[derive(Clone, Copy, Debug, PartialEq, Eq)]
pub struct Span {
    pub dev: Dev,
    pub half: Half,
    /// 0 in a lower half.
    pub page: u8,
    pub first: u8,
    pub last: u8,
}

impl Span {
    ghost use Rattle.std.specs.Prelude.{◌≡◌, IsTrue};
    ghost use Rattle.field_tables.specs.Spans.{page_of_half, span_fits, span_len};

    /// How many bytes it has.
    pub fn count(self) -> u8
        requires { IsTrue (span_fits self) }
        ensures { result ≡ span_len self }
    {
        self.last - self.first + 1
    }

    /// The page that has to be selected for it; none for a lower half.
    pub fn page(self) -> Option<u16>
        ensures { result ≡ page_of_half self.half self.page }
    {
        match self.half {
            Half::Lower => None,
            Half::Upper => Some(u16::from(self.page)),
        }
    }
}

/// The bytes of a span, in those of its half.
pub fn bytes_of(bytes: &[u8; PAGE_LEN], span: Span) -> &[u8]
    requires { IsTrue (span_fits span) }
    ensures { result.now ≡ bytes_in bytes.now span }
{
    let first = index_in_half(usize::from(span.first));
    let last = index_in_half(usize::from(span.last));
    &bytes[first..last + 1]
}
