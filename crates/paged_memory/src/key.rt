ghost use Rattle.std.specs.Prelude.{◌≡◌};
ghost use Rattle.paged_memory.specs.declared.key.Half.TheVariants.{Lower};

use bus_model::Dev;
use std::fmt;
use text_lines::{HexByte, PrintedWords, ToWords};

/// The two halves of a device's 256 addresses: bytes 0 to 127 stand alone, 128 to 255 show one page of a bank.
#[derive(Clone, Copy, Debug, PartialEq, Eq, PartialOrd, Ord, Hash)]
pub enum Half {
    Lower,
    Upper,
}

/// Where 128 bytes of a module's memory stand. Keys are ordered by device, half, bank and page.
#[derive(Clone, Copy, Debug, PartialEq, Eq, PartialOrd, Ord, Hash)]
pub struct Key {
    pub dev: Dev,
    pub half: Half,
    /// 0 for a lower half.
    pub bank: u8,
    /// 0 for a lower half.
    pub page: u8,
    ghost one_lower_half: { half ≡ Lower → (bank ≡ 0) × (page ≡ 0) },
}

impl Key {
    ghost use Rattle.paged_memory.specs.Keys.{lower_key, page_key, upper_key};

    /// The lower half of a device.
    pub fn lower(dev: Dev) -> Self
        ensures { result ≡ lower_key dev }
    {
        Key {
            dev,
            half: Half::Lower,
            bank: 0,
            page: 0,
        }
    }

    /// A page of a bank in the upper half of a device.
    pub fn upper(dev: Dev, bank: u8, page: u8) -> Self
        ensures { result ≡ upper_key dev bank page }
    {
        Key {
            dev,
            half: Half::Upper,
            bank,
            page,
        }
    }

    /// The page of this number in the upper half of A0: page p of bank b has 256 * b + p.
    pub fn of_page(number: u16) -> Self
        ensures { result ≡ page_key number }
    {
        Key::upper(Dev::A0, (number / 256) as u8, (number % 256) as u8)
    }
}

impl Default for Key {
    ghost use Rattle.bus_model.specs.declared.device.Dev.TheVariants.{A0};
    ghost use Rattle.paged_memory.specs.Keys.{lower_key};

    ghost is_default = { λ key. key ≡ lower_key A0 };

    /// The lower half of the module.
    fn default() -> Key {
        Key::lower(Dev::A0)
    }
}

/// Prints the words of a page line before the page: `lower A0`, or `upper A0 00 01` with the bank and the page.
impl fmt::Display for Key {
    ghost use Rattle.std.specs.Prelude.{Some};
    ghost use Rattle.paged_memory.specs.ImageText.{key_text};

    ghost output = { λ key. Some (key_text key) };

    fn fmt<W: fmt::Write>(&self, f: &mut fmt::Formatter<W>) -> fmt::Result {
        let dev = self.dev;
        match self.half {
            Half::Lower => write!(f, "lower {dev}"),
            Half::Upper => {
                let (bank, page) = (HexByte(self.bank), HexByte(self.page));
                write!(f, "upper {dev} {bank} {page}")
            }
        }
    }
}

/// The words that it prints.
impl ToWords for Key {
    ghost use Rattle.paged_memory.specs.ImageText.{key_words};

    ghost words = { key_words };

    ghost most = { 4 };

    fn to_words(&self) -> PrintedWords {
        match self.half {
            Half::Lower => PrintedWords::of("lower").and(&self.dev),
            Half::Upper => PrintedWords::of("upper")
                .and(&self.dev)
                .and(&HexByte(self.bank))
                .and(&HexByte(self.page)),
        }
    }
}
