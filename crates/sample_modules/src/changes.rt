//! How to change bytes of an image.
ghost use Rattle.std.specs.Prelude.{◌≡◌, ◌+◌, ◌≤◌, ◌↔◌, length, IfOk, IsErr, false};
ghost use Rattle.std.specs.FinMap as map;
ghost use Rattle.paged_memory.specs.Images.{place_in_half};
ghost use Rattle.sample_modules.specs.Changes.{half_of, changed, run_over, gathered};

use paged_memory::{Image, ImageFault, Key, OwnedImage, PAGE_LEN, Page, SmallImage};

/// The image with these bytes of a half, each by its address. A half that is absent is one of zeros before.
pub fn with<const MOST: usize>(
    mut image: OwnedImage<MOST>,
    key: Key,
    changes: &[(u8, u8)],
) -> Result<OwnedImage<MOST>, ImageFault>
    ensures ok { IfOk result (λ new. new ≡ map.insert image.entry key (changed (half_of image.entry key) changes.now)) }
    ensures refused { IsErr result ↔ ((map.len image.entry ≡ MOST) × (map.contains_key image.entry key ≡ false)) }
{
    let half = change(half_of(&image.view(), key), changes);
    image.put(key, Page::from(half))?;
    Ok(image)
}

/// The image with these bytes of a half, from an address on. A half that is absent is one of zeros before.
pub fn with_run<const MOST: usize>(
    mut image: OwnedImage<MOST>,
    key: Key,
    address: u8,
    bytes: &[u8],
) -> Result<OwnedImage<MOST>, ImageFault>
    requires { place_in_half address + length bytes.now ≤ PAGE_LEN }
    ensures ok { IfOk result (λ new. new ≡ map.insert image.entry key (run_over (half_of image.entry key) (place_in_half address) bytes.now)) }
    ensures refused { IsErr result ↔ ((map.len image.entry ≡ MOST) × (map.contains_key image.entry key ≡ false)) }
{
    let half = run_over(half_of(&image.view(), key), place_of(address), bytes);
    image.put(key, Page::from(half))?;
    Ok(image)
}

/// The image with those of another's halves that have one of these keys.
pub fn only(image: &Image, keys: &[Key]) -> Result<SmallImage, ImageFault>
    ensures { IfOk result (λ new. new ≡ gathered image.now map.empty keys.now) }
{
    let mut halves = SmallImage::new();
    for key in keys {
        if let Some(page) = image.page(*key) {
            halves.put(*key, *page)?;
        }
    }
    Ok(halves)
}

fn half_of(image: &Image, key: Key) -> [u8; PAGE_LEN]
    ensures { result ≡ half_of image.now key }
{
    match image.page(key) {
        Some(page) => *page.bytes(),
        None => [0; PAGE_LEN],
    }
}

fn place_of(address: u8) -> usize
    ensures place { result ≡ place_in_half address }
    ensures fits { result ≤ 127 }
{
    usize::from(address) % PAGE_LEN
}

fn change(mut half: [u8; PAGE_LEN], changes: &[(u8, u8)]) -> [u8; PAGE_LEN]
    ensures { result ≡ changed half changes.now }
{
    for (address, byte) in changes {
        half[place_of(*address)] = *byte;
    }
    half
}

fn run_over(mut half: [u8; PAGE_LEN], place: usize, bytes: &[u8]) -> [u8; PAGE_LEN]
    requires { place + length bytes.now ≤ PAGE_LEN }
    ensures { result ≡ run_over half place bytes.now }
{
    for (index, byte) in bytes.iter().enumerate() {
        half[place + index] = *byte;
    }
    half
}
