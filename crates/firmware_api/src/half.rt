ghost use Rattle.std.specs.Prelude.{◌≡◌, ◌≤◌, length, MatchOption, None, Ok, Err};
ghost use Rattle.std.specs.List.{list_all};
ghost use Rattle.std.specs.FinMap as map;
ghost use Rattle.applications.specs.Advertised.{advertised_by};
ghost use Rattle.firmware_api.specs.Halves.{advert_of, conventions_of, has_place, key_of, memory_of, module_refusal, refusal_under};
ghost use Rattle.firmware_api.specs.SimulatedModules.{half_refusal, refusal_over, simulated_refusal};
ghost use Rattle.firmware_api.specs.Statuses.{done, status_by, status_of};
ghost use Rattle.paged_memory.specs.Images.{most_large, most_pages};

use crate::status::{DONE, NO_PLACE, TOO_MANY_HALVES, advert_status};
use applications::{Advert, Conventions};
use paged_memory::{Dev, Key, LARGE, LargeImage, OwnedImage, PAGE_LEN, Page, SMALL, SmallImage};

/// 128 bytes of a module's memory, and where they stand.
#[repr(C)]
#[derive(Clone, Copy)]
pub struct HalfBytes {
    /// The device's address on the bus: A0h or A2h.
    pub device: u8,
    /// 0 for the bytes 0 to 127 of the device, 1 for the bytes 128 to 255.
    pub upper: u8,
    /// 0 for a lower half.
    pub bank: u8,
    /// 0 for a lower half.
    pub page: u8,
    pub bytes: [u8; PAGE_LEN],
}

impl HalfBytes {
    // Whether its numbers say where it stands.
    fn has_place(&self) -> bool
        ensures { result ≡ has_place self.now }
    {
        let has_device = self.device == 0xA0 || self.device == 0xA2;
        let has_half = self.upper == 1 || self.upper == 0 && self.bank == 0 && self.page == 0;
        has_device && has_half
    }

    fn key(&self) -> Key
        ensures { result ≡ key_of self.now }
    {
        let dev = if self.device == 0xA2 {
            Dev::A2
        } else {
            Dev::A0
        };
        if self.upper == 0 {
            Key::lower(dev)
        } else {
            Key::upper(dev, self.bank, self.page)
        }
    }
}

/// How a host reads what a module advertises, by numbers of which those other than 0 say yes: what is active is looked at if staying
/// weighs something.
pub fn conventions_of(paired: u8, counts_by_id: u8, stay: u32) -> Conventions
    ensures { result ≡ conventions_of paired counts_by_id stay }
{
    Conventions {
        paired: paired != 0,
        counts_by_id: counts_by_id != 0,
        now: stay != 0,
    }
}

/// What the module whose memory has these halves advertises, as it stands there, or the status of its refusal.
pub fn read_advert(halves: &[HalfBytes]) -> Result<Advert, u32>
    ensures { MatchOption (module_refusal halves.now) (result ≡ Ok (advertised_by (memory_of halves.now)))
        (λ refusal. result ≡ Err (status_of refusal)) }
{
    let as_it_stands = Conventions {
        paired: false,
        counts_by_id: false,
        now: false,
    };
    read_advert_under(as_it_stands, halves)
}

/// What it advertises to a host that reads it by these conventions.
pub fn read_advert_under(conventions: Conventions, halves: &[HalfBytes]) -> Result<Advert, u32>
    ensures { MatchOption (refusal_under conventions halves.now) (result ≡ Ok (advert_of halves.now conventions))
        (λ refusal. result ≡ Err (status_of refusal)) }
{
    if halves.len() > SMALL {
        return Err(TOO_MANY_HALVES);
    }
    if !all_have_places(halves) {
        return Err(NO_PLACE);
    }
    match Advert::under(conventions, &image_of(halves).view()) {
        Ok(advert) => Ok(advert),
        Err(fault) => Err(advert_status(fault)),
    }
}

pub fn all_have_places(halves: &[HalfBytes]) -> bool
    ensures { result ≡ list_all has_place halves.now }
{
    halves.iter().all(|half| half.has_place())
}

/// The memory that has these halves. Of several halves at one place the first counts.
pub fn image_of(halves: &[HalfBytes]) -> SmallImage
    requires { length halves.now ≤ most_pages }
    ensures { result ≡ memory_of halves.now }
{
    let mut image = SmallImage::new();
    put_halves(&mut image, halves);
    image
}

/// The same of as many halves as a large image has room for.
pub fn large_image_of(halves: &[HalfBytes]) -> LargeImage
    requires { length halves.now ≤ most_large }
    ensures { result ≡ memory_of halves.now }
{
    let mut image = LargeImage::new();
    put_halves(&mut image, halves);
    image
}

// Puts the halves into an empty image. Since the first of several halves at one place counts, the last is put first. The image is lent, since
// one that a further call returns takes its room on the stack twice.
fn put_halves<const MOST: usize>(image: &mut OwnedImage<MOST>, halves: &[HalfBytes])
    requires empty { image.old ≡ map.empty }
    requires few { length halves.now ≤ MOST }
    ensures { image.new ≡ memory_of halves.now }
{
    for place in (0..halves.len()).rev() {
        let half = halves[place];
        image.put(half.key(), Page::from(half.bytes)).unwrap();
    }
}

/// The status of what is wrong with the halves themselves, or 0.
pub fn half_status(halves: &[HalfBytes]) -> u32
    ensures status { result ≡ status_by (half_refusal halves.now) }
    ensures sound { result ≡ done → half_refusal halves.now ≡ None }
    ensures few { result ≡ done → length halves.now ≤ most_pages }
{
    status_over(SMALL, halves)
}

/// The same of the halves of a simulated module.
pub fn simulated_status(halves: &[HalfBytes]) -> u32
    ensures status { result ≡ status_by (simulated_refusal halves.now) }
    ensures sound { result ≡ done → simulated_refusal halves.now ≡ None }
    ensures few { result ≡ done → length halves.now ≤ most_large }
{
    status_over(LARGE, halves)
}

// The same of halves of which there may be so many.
fn status_over(most: usize, halves: &[HalfBytes]) -> u32
    ensures status { result ≡ status_by (refusal_over most halves.now) }
    ensures sound { result ≡ done → refusal_over most halves.now ≡ None }
    ensures few { result ≡ done → length halves.now ≤ most }
{
    if halves.len() > most {
        TOO_MANY_HALVES
    } else if !all_have_places(halves) {
        NO_PLACE
    } else {
        DONE
    }
}
