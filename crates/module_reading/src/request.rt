ghost use Rattle.std.specs.Prelude.{◌≡◌};
ghost use Rattle.module_reading.specs.Regions as spec;

/// Which halves of a module are read besides the lower half of A0, as far as it has them.
#[derive(Clone, Copy, Debug, PartialEq, Eq)]
pub struct Request {
    /// A bit for each. From bit 0 on: pages 00h, 01h, 02h and 11h of CMIS modules, pages 00h and 03h of SFF-8636 modules, and the
    /// diagnostics of SFF-8472 modules. If it is 80h to 87h, a CMIS module with pages is asked for page 11h of banks 1 to 3 in place of
    /// pages of bank 0, by bits 0 to 2.
    pub halves: u8,
}

impl Request {
    /// All of them, but for further banks.
    pub fn everything() -> Request
        ensures { result ≡ spec.everything }
    {
        Request { halves: 0x7F }
    }

    /// Page 11h of each further bank of a CMIS module that has so many banks, up to four.
    pub fn of_banks(count: u8) -> Request
        ensures { result ≡ spec.of_banks count }
    {
        let halves = match count {
            0 | 1 => 0x80,
            2 => 0x81,
            3 => 0x83,
            _ => 0x87,
        };
        Request { halves }
    }

    /// Whether it is for further banks.
    pub fn is_for_banks(self) -> bool
        ensures { result ≡ spec.is_for_banks self }
    {
        self.halves / 8 == 16
    }

    /// Whether it has this bit, of which there are eight.
    pub fn wants(self, number: u8) -> bool
        ensures { result ≡ spec.wants self number }
    {
        has_bit(self.halves, number)
    }
}

fn has_bit(byte: u8, number: u8) -> bool
    ensures { result ≡ spec.has_bit byte number }
{
    if number < 8 {
        byte >> number & 1 == 1
    } else {
        false
    }
}
