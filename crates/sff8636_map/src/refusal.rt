ghost use Rattle.std.specs.Prelude.{◌≡◌};
ghost use Rattle.sff8636_map.specs.Refusals.{identity_fault, measured_fault, module_fault, threshold_fault};

use bus_model::Dev;
use field_tables::{SffFault, bit, field, number};
use paged_memory::{Family, Image, Key};

/// Why the module of an image is none of this standard.
#[tactic(auto, unfolding(crate::specs::Refusals::module_fault))]
pub fn module_refusal(image: &Image) -> Option<SffFault>
    ensures { result ≡ module_fault image.now }
{
    let lower = Key::lower(Dev::A0);
    if !image.has(lower) {
        return Some(SffFault::Absent(lower));
    }
    let identifier = number(image, field!(Sff8636 Identifier));
    if !Family::Sff8636.has(identifier) {
        return Some(SffFault::WrongIdentifier(identifier));
    }
    None
}

/// Why an image has no identity.
#[tactic(auto, unfolding(crate::specs::Refusals::identity_fault, crate::specs::Refusals::module_fault))]
pub fn identity_refusal(image: &Image) -> Option<SffFault>
    ensures { result ≡ identity_fault image.now }
{
    if let Some(fault) = module_refusal(image) {
        return Some(fault);
    }
    let page = Key::upper(Dev::A0, 0, 0x00);
    if !image.has(page) {
        return Some(SffFault::Absent(page));
    }
    None
}

/// Why an image has no thresholds.
#[tactic(auto, unfolding(crate::specs::Refusals::threshold_fault, crate::specs::Refusals::module_fault))]
pub fn threshold_refusal(image: &Image) -> Option<SffFault>
    ensures { result ≡ threshold_fault image.now }
{
    if let Some(fault) = module_refusal(image) {
        return Some(fault);
    }
    if bit(image, field!(Sff8636 FlatMemory)) {
        return Some(SffFault::FlatMemory);
    }
    let page = Key::upper(Dev::A0, 0, 0x03);
    if !image.has(page) {
        return Some(SffFault::Absent(page));
    }
    None
}

/// Why an image has no measured values, or none of their limits, which a module with flat memory doesn't have.
#[tactic(auto, unfolding(crate::specs::Refusals::measured_fault))]
pub fn measured_refusal(image: &Image) -> Option<SffFault>
    ensures { result ≡ measured_fault image.now }
{
    if let Some(fault) = module_refusal(image) {
        return Some(fault);
    }
    if bit(image, field!(Sff8636 FlatMemory)) {
        return None;
    }
    threshold_refusal(image)
}
