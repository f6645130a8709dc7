//! The lanes of a module's banks: bank b has the lanes from 8 * b + 1 to 8 * b + 8.
ghost use Rattle.std.specs.Prelude.{◌≡◌, ◌+◌, ◌<◌, ◌≤◌};
ghost use Rattle.std.specs.FinMap as map;
ghost use Rattle.paged_memory.specs.Images.{most_pages};
ghost use Rattle.observables.specs.Banks as spec;

use crate::pages::{has_observables, is_cmis};
use crate::words::{byte_in, page_of};
use bus_model::Dev;
use paged_memory::{Image, Key, Page, SmallImage};

/// How many banks the module has: one, or as many as byte 142 of page 01h of a CMIS module advertises.
pub fn bank_count(image: &Image) -> u8
    ensures { result ≡ spec.bank_count image.now }
{
    if is_cmis(image) {
        advertised_banks(image)
    } else {
        1
    }
}

// One if the page is absent, or the code is reserved.
fn advertised_banks(image: &Image) -> u8
    ensures { result ≡ spec.advertised_banks image.now }
{
    match page_of(image, 0, 0x01) {
        None => 1,
        Some(page) => banks_by(byte_in(page.bytes(), 142) % 4),
    }
}

fn banks_by(code: u8) -> u8
    ensures { result ≡ spec.banks_by code }
{
    match code {
        1 => 2,
        2 => 4,
        _ => 1,
    }
}

/// How many banks have statistics (VDM), from bank 0 on: as many as there are, if page 01h of a CMIS module advertises any.
#[tactic(auto, using(crate::proofs::FewBanks::few_banks))]
pub fn statistics_banks(image: &Image) -> u8
    ensures value { result ≡ spec.statistics_banks image.now }
    ensures few { result ≤ 4 }
{
    if is_cmis(image) && has_observables(image) {
        bank_count(image)
    } else {
        0
    }
}

/// The pages that monitors of lanes are read from, with page 11h of a bank in the place of that of bank 0.
pub fn lanes_of_bank(image: &Image, bank: u8) -> SmallImage
    ensures { result ≡ spec.lanes_of_bank image.now bank }
{
    let mut lanes = SmallImage::new();
    take(&mut lanes, image, 0, 0x01);
    take(&mut lanes, image, 0, 0x02);
    take(&mut lanes, image, bank, 0x11);
    lanes
}

// A page of a bank, if the image has it, in the place of that of bank 0.
fn take(lanes: &mut SmallImage, image: &Image, bank: u8, page: u8)
    requires { map.len lanes.old < most_pages }
    ensures page { lanes.new ≡ spec.with_page image.now bank page lanes.old }
    ensures few { map.len lanes.new ≤ map.len lanes.old + 1 }
{
    if let Some(half) = page_of(image, bank, page) {
        let key = Key::upper(Dev::A0, 0, page);
        lanes.put(key, Page::from(*half.bytes())).unwrap();
    }
}
