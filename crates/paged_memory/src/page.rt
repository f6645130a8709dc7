ghost use Rattle.std.specs.Prelude.{◌≡◌, length};
ghost use Rattle.hex.specs.Hex.{IsBytes};

use std::marker::Model;

/// How many bytes a half shows.
pub const PAGE_LEN: usize = 128;

/// The 128 bytes of one half: of the lower half, or of one page in the upper half.
#[derive(Clone, Copy, Debug, PartialEq, Eq)]
pub struct Page {
    bytes: [u8; PAGE_LEN],
}

impl Model for Page {
    ghost use Rattle.std.specs.Prelude.{ℕ, List};
    ghost use Rattle.std.specs.Coded.{coded_ℕ, coded_list};

    ghost Value = { List ℕ };

    ghost coded = { coded_list coded_ℕ };

    ghost view = { λ page. page.bytes };

    ghost inverse = { λ bytes. record { bytes = bytes } };
}

impl Page {
    /// The bytes, in the order of their addresses.
    pub fn bytes(&self) -> &[u8; PAGE_LEN]
        ensures same { result.now ≡ self.now }
        ensures len { length self.now ≡ PAGE_LEN }
        ensures bytes { IsBytes self.now }
    {
        are_bytes(&self.bytes);
        &self.bytes
    }
}

// Items of a slice of bytes are below 256.
fn are_bytes(_bytes: &[u8])
    ensures { IsBytes _bytes.now }
{}

impl From<[u8; PAGE_LEN]> for Page {
    ghost from_gives = { λ bytes page. page ≡ bytes };

    fn from(bytes: [u8; PAGE_LEN]) -> Page {
        Page { bytes }
    }
}

impl Default for Page {
    ghost use Rattle.paged_memory.specs.declared.page.TheConstants.{PAGE_LEN};
    ghost use Rattle.std.specs.Prelude.{◌≡◌, replicate};

    ghost is_default = { λ page. page ≡ replicate PAGE_LEN 0 };

    /// The page of zeros.
    fn default() -> Page {
        Page {
            bytes: [0; PAGE_LEN],
        }
    }
}
