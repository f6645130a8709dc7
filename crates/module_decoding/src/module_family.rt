ghost use Rattle.std.specs.Prelude.{◌≡◌, MatchOption, Ok, Err};
ghost use Rattle.module_decoding.specs.ModuleFamilies as spec;
ghost use Rattle.module_decoding.specs.ModuleFamilies.{detail_fault, fault_in, module_fault};

use applications::is_read_revision;
use bus_model::Dev;
use field_tables::{field, number};
use paged_memory::{Family, Image, Key};
use thiserror::Error;

/// Why a module is not read.
#[derive(Clone, Copy, Debug, PartialEq, Eq, Drop, Error)]
#[error("the module is not read")]
pub enum ModuleFault {
    /// The image has no lower half of device A0.
    Absent(Key),
    /// No family that is read has this identifier (SFF-8024).
    Unknown(u8),
    /// The CMIS revision, as its byte, is of a major number that is not read.
    Revision(u8),
}

/// The family of the module of an image, or why it is not read.
#[tactic(auto, unfolding(crate::specs::ModuleFamilies::module_fault, crate::specs::ModuleFamilies::family_of))]
pub fn family_of(image: &Image) -> Result<Family, ModuleFault>
    ensures { MatchOption (module_fault image.now) (result ≡ Ok (spec.family_of image.now)) (λ fault. result ≡ Err fault) }
{
    let family = Family::of(number(image, field!(Cmis Identifier)));
    let is_read = is_read_revision(number(image, field!(Cmis Revision)));
    judged(image, family, is_read)
}

/// The same, if only the details of the module are to be told: of more modules of CMIS.
#[tactic(auto, unfolding(crate::specs::ModuleFamilies::detail_fault, crate::specs::ModuleFamilies::detail_family_of))]
pub fn detail_family_of(image: &Image) -> Result<Family, ModuleFault>
    ensures { MatchOption (detail_fault image.now) (result ≡ Ok (spec.detail_family_of image.now)) (λ fault. result ≡ Err fault) }
{
    let family = Family::managing(number(image, field!(Cmis Identifier)));
    let is_read = is_detail_revision(number(image, field!(Cmis Revision)));
    judged(image, family, is_read)
}

// The family that was found for an image, or why it is not read; whether its revision is, if it is one of CMIS.
#[tactic(auto, unfolding(crate::specs::ModuleFamilies::fault_in))]
fn judged(image: &Image, family: Option<Family>, is_read: bool) -> Result<Family, ModuleFault>
    ensures { MatchOption (fault_in family is_read image.now) (result ≡ Ok (spec.known family)) (λ fault. result ≡ Err fault) }
{
    let lower = Key::lower(Dev::A0);
    if !image.has(lower) {
        return Err(ModuleFault::Absent(lower));
    }
    let Some(family) = family else {
        return Err(ModuleFault::Unknown(number(image, field!(Cmis Identifier))));
    };
    if family == Family::Cmis && !is_read {
        return Err(ModuleFault::Revision(number(image, field!(Cmis Revision))));
    }
    Ok(family)
}

// Whether the details of a module of this CMIS revision are told: its major number is 3, or all reports are made of it.
fn is_detail_revision(revision: u8) -> bool
    ensures { result ≡ spec.is_detail_revision revision }
{
    revision / 16 == 3 || is_read_revision(revision)
}
