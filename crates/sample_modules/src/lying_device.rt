use arrayvec::ArrayVec;
use bus_model::{Dev, Device, MAX_FETCH};

/// A device that refuses and answers as it likes. A number decides each answer, and each unit of time draws another number:
/// the answer is a refusal, any bytes, or what a host that provisions four pairs of lanes would like.
#[derive(Clone, Copy, Debug, PartialEq, Eq)]
pub struct LyingDevice {
    /// The number that decides now.
    pub number: u32,
    /// So many of 16 numbers are refusals.
    pub refusals: u8,
    /// So many of 16 numbers are lies.
    pub lies: u8,
}

impl LyingDevice {
    ghost use Rattle.std.specs.Prelude.{◌≡◌, ◌≤◌, length};
    ghost use Rattle.sample_modules.specs.Lies as spec;

    fn refuses(&self) -> bool
        ensures { result ≡ spec.refuses self.now }
    {
        self.number / 65536 % 16 < u32::from(self.refusals)
    }

    fn lies(&self) -> bool
        ensures { result ≡ spec.lies self.now }
    {
        self.number / 1_048_576 % 16 < u32::from(self.lies)
    }

    fn told_at(&self, address: u8, place: u8) -> u8
        ensures { result ≡ spec.told_at self.now address place }
    {
        if self.lies() {
            lie(self.number, place)
        } else {
            pleasing(self.number, address, place)
        }
    }

    fn told(&self, address: u8, count: u8) -> ArrayVec<u8, MAX_FETCH>
        requires { count ≤ MAX_FETCH }
        ensures bytes { result.items ≡ spec.told self.now address count }
        ensures count { length result.items ≡ count }
    {
        let mut bytes = ArrayVec::new();
        for place in 0..count {
            bytes.push(self.told_at(address, place));
        }
        bytes
    }
}

ghost use Rattle.std.specs.Prelude.{◌≡◌};
ghost use Rattle.sample_modules.specs.Lies as spec;

fn lie(number: u32, place: u8) -> u8
    ensures { result ≡ spec.lie number place }
{
    ((number / 256 + 31 * u32::from(place)) % 256) as u8
}

fn pleasing(number: u32, address: u8, place: u8) -> u8
    ensures { result ≡ spec.pleasing number address place }
{
    if address == 3 {
        0x06
    } else if address == 126 {
        if place == 0 {
            0x00
        } else {
            0x10 + (number % 2) as u8
        }
    } else if address == 128 {
        0x11
    } else if address == 202 {
        0x11
    } else {
        0x20 + 4 * (place % 8 / 2)
    }
}

/// Neither a refusal nor an answer changes anything: time does.
impl Device for LyingDevice {
    ghost use Rattle.sample_modules.specs.Lies.{lying_conduct};

    type State = LyingDevice;

    ghost state = { λ device. device };

    ghost conduct = { lying_conduct };

    fn fetch(&mut self, _dev: Dev, offset: u8, count: u8) -> Option<ArrayVec<u8, MAX_FETCH>> {
        if self.refuses() {
            None
        } else {
            Some(self.told(offset, count))
        }
    }

    fn store(&mut self, _dev: Dev, _offset: u8, _bytes: &[u8]) -> bool {
        !self.refuses()
    }

    fn tick(&mut self) {
        self.number = (48271 * u64::from(self.number) % 2_147_483_647) as u32;
    }

    fn low_power_pin(&mut self, _on: bool) {}
}
