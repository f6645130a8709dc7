// Which halves of a module are read, by what its image has in the lower half of A0.
ghost use Rattle.std.specs.Prelude.{◌≡◌, ◌≤◌, ◌∷◌, length, slice_get};
ghost use Rattle.bus_model.specs.declared.device.Dev.TheVariants.{A0};
ghost use Rattle.module_reading.specs.declared.region.Region.TheVariants.{Lower};
ghost use Rattle.module_reading.specs.Regions as spec;

use crate::region::Region;
use crate::request::Request;
use arrayvec::ArrayVec;
use field_tables::{bit, field, number};
use paged_memory::{Dev, Family, Image, PageAddressing};

// The most halves that are read of a module.
const MOST: usize = 5;

/// The half that is read in this place, counted from 0.
pub fn region(request: Request, image: &Image, index: usize) -> Option<Region>
    ensures { result ≡ slice_get (spec.regions_of request image.now) index }
{
    regions(request, image).get(index).copied()
}

fn regions(request: Request, image: &Image) -> ArrayVec<Region, MOST>
    ensures { result.items ≡ spec.regions_of request image.now }
{
    match Family::managing(number(image, field!(Cmis Identifier))) {
        Some(family) => requested(request, halves(request, family, decides(family, image))),
        None => requested(request, &[]),
    }
}

// What decides which halves a module of this family has.
fn decides(family: Family, image: &Image) -> bool
    ensures { result ≡ spec.decides family image.now }
{
    match family {
        Family::Cmis => number(image, field!(Cmis FlatMemory)) == 1,
        Family::Sff8636 => bit(image, field!(Sff8636 FlatMemory)),
        Family::Sff8472 => has_diagnostics(image),
    }
}

// The halves that such modules have beside the lower one of A0, each after the bit of a request that asks for it.
fn halves(request: Request, family: Family, holds: bool) -> &'static [(u8, Region)]
    ensures halves { result.now ≡ spec.halves_for request family holds }
    ensures few { length result.now ≤ 4 }
{
    match (family, holds) {
        (Family::Cmis, false) if request.is_for_banks() => &[
            (0, Region::Page(0x111)),
            (1, Region::Page(0x211)),
            (2, Region::Page(0x311)),
        ],
        (Family::Cmis, true) => &[(0, Region::FirstPage)],
        (Family::Cmis, false) => &[
            (0, Region::Page(0x00)),
            (1, Region::Page(0x01)),
            (2, Region::Page(0x02)),
            (3, Region::Page(0x11)),
        ],
        (Family::Sff8636, true) => &[(4, Region::FirstPage)],
        (Family::Sff8636, false) => &[(4, Region::Page(0x00)), (5, Region::Page(0x03))],
        (Family::Sff8472, true) => &[(6, Region::Lower(Dev::A2))],
        (Family::Sff8472, false) => &[],
    }
}

// The lower half of A0, and those of these whose bits a request has.
fn requested(request: Request, halves: &[(u8, Region)]) -> ArrayVec<Region, MOST>
    requires { length halves.now ≤ 4 }
    ensures { result.items ≡ Lower A0 ∷ spec.requested request halves.now }
{
    let mut regions = ArrayVec::new();
    regions.push(Region::Lower(Dev::A0));
    for (bit, region) in halves {
        if request.wants(*bit) {
            regions.push(*region);
        }
    }
    regions
}

// Whether device A2 has diagnostics that are read.
fn has_diagnostics(image: &Image) -> bool
    ensures { result ≡ spec.has_diagnostics image.now }
{
    bit(image, field!(Sff8472 DiagPresent)) && !bit(image, field!(Sff8472 AddressChange))
}

/// How pages are selected.
pub fn addressing(image: &Image) -> PageAddressing
    ensures { result ≡ spec.addressing_of image.now }
{
    PageAddressing::by(number(image, field!(Cmis Identifier))).unwrap_or(
        PageAddressing::BankAndPage,
    )
}
