ghost use Rattle.std.specs.Prelude.{◌≡◌, [], ◌∷◌};
ghost use Rattle.field_tables.specs.Reasons.{lacks, refused_by, wrong};
ghost use Rattle.applications.specs.Refusals.{advert_fault, advert_fault_under, page_fault, is_read_revision};
ghost use Rattle.applications.specs.declared.fault.AdvertFault.TheVariants.{Absent, BadSum};

use crate::conventions::Conventions;
use crate::fault::AdvertFault;
use bus_model::Dev;
use field_tables::{Sum, field, is_sum_right, number, sum_of};
use paged_memory::{Family, Image, Key};

/// Why the Applications of an image are not read: the first reason that applies.
#[tactic(auto, unfolding(crate::specs::Refusals::advert_fault))]
pub fn refusal(image: &Image) -> Option<AdvertFault>
    ensures { result ≡ advert_fault image.now }
{
    let lower = Key::lower(Dev::A0);
    if !image.has(lower) {
        return Some(AdvertFault::Absent(lower));
    }
    let identifier = number(image, field!(Cmis Identifier));
    if !Family::Cmis.has(identifier) {
        return Some(AdvertFault::NotCmis(identifier));
    }
    let revision = number(image, field!(Cmis Revision));
    if !is_read_revision(revision) {
        return Some(AdvertFault::Revision(revision));
    }
    if identifier == 0x1E {
        return Some(AdvertFault::NotEightLanes(identifier));
    }
    if number(image, field!(Cmis FlatMemory)) == 1 {
        return Some(AdvertFault::FlatMemory);
    }
    page_refusal(image)
}

/// Why a host that reads by these conventions does not read them.
pub fn refusal_under(conventions: Conventions, image: &Image) -> Option<AdvertFault>
    ensures { result ≡ advert_fault_under conventions image.now }
{
    let fault = refusal(image);
    if fault.is_none() && conventions.now {
        return absent(image, Key::upper(Dev::A0, 0, 0x11));
    }
    fault
}

/// Why pages 00h and 01h are not read.
pub fn page_refusal(image: &Image) -> Option<AdvertFault>
    ensures { result ≡ page_fault image.now }
{
    if let Some(fault) = absent(image, Key::upper(Dev::A0, 0, 0x00)) {
        return Some(fault);
    }
    if let Some(fault) = absent(image, Key::upper(Dev::A0, 0, 0x01)) {
        return Some(fault);
    }
    if let Some(fault) = bad_sum(image, sum_of!(Cmis Sum00), 0x00) {
        return Some(fault);
    }
    bad_sum(image, sum_of!(Cmis Sum01), 0x01)
}

fn absent(image: &Image, key: Key) -> Option<AdvertFault>
    ensures { result ≡ refused_by image.now (lacks key (Absent key) ∷ []) }
{
    (!image.has(key)).then_some(AdvertFault::Absent(key))
}

fn bad_sum(image: &Image, sum: Sum, page: u8) -> Option<AdvertFault>
    ensures { result ≡ refused_by image.now (wrong sum (BadSum page) ∷ []) }
{
    (!is_sum_right(image, sum)).then_some(AdvertFault::BadSum(page))
}

/// Whether the tables of this project are those of this CMIS revision: its major number is 4 or 5.
pub fn is_read_revision(revision: u8) -> bool
    ensures { result ≡ is_read_revision revision }
{
    let major = revision / 16;
    major == 4 || major == 5
}
