ghost use Rattle.std.specs.Prelude.{◌≡◌};
ghost use Rattle.sff8472_map.specs.Refusals.{diagnostics_fault, flags_fault, measured_fault, module_fault};

use bus_model::Dev;
use field_tables::{SffFault, bit, field, number};
use paged_memory::{Family, Image, Key};

/// Why the module of an image is none of this standard.
#[tactic(auto, unfolding(crate::specs::Refusals::module_fault))]
pub fn module_refusal(image: &Image) -> Option<SffFault>
    ensures { result ≡ module_fault image.now }
{
    let lower = Key::lower(Dev::A0);
    if !image.has(lower) {
        return Some(SffFault::Absent(lower));
    }
    let identifier = number(image, field!(Sff8472 Identifier));
    if !Family::Sff8472.has(identifier) {
        return Some(SffFault::WrongIdentifier(identifier));
    }
    None
}

// Why the diagnostics are not looked for.
#[tactic(auto, unfolding(crate::specs::Refusals::diagnostics_fault, crate::specs::Refusals::module_fault))]
fn diagnostics_refusal(image: &Image) -> Option<SffFault>
    ensures { result ≡ diagnostics_fault image.now }
{
    if let Some(fault) = module_refusal(image) {
        return Some(fault);
    }
    if !bit(image, field!(Sff8472 DiagPresent)) {
        return Some(SffFault::NoDiagnostics);
    }
    if bit(image, field!(Sff8472 AddressChange)) {
        return Some(SffFault::AddressChange);
    }
    None
}

/// Why an image has no flags.
#[tactic(auto, unfolding(crate::specs::Refusals::flags_fault, crate::specs::Refusals::diagnostics_fault))]
pub fn flags_refusal(image: &Image) -> Option<SffFault>
    ensures { result ≡ flags_fault image.now }
{
    if let Some(fault) = diagnostics_refusal(image) {
        return Some(fault);
    }
    let diagnostics = Key::lower(Dev::A2);
    if !image.has(diagnostics) {
        return Some(SffFault::Absent(diagnostics));
    }
    None
}

/// Why an image has no measured values, and no limits of these.
#[tactic(auto, unfolding(crate::specs::Refusals::measured_fault, crate::specs::Refusals::diagnostics_fault))]
pub fn measured_refusal(image: &Image) -> Option<SffFault>
    ensures { result ≡ measured_fault image.now }
{
    if let Some(fault) = diagnostics_refusal(image) {
        return Some(fault);
    }
    if bit(image, field!(Sff8472 External)) {
        return Some(SffFault::ExternalCalibration);
    }
    let diagnostics = Key::lower(Dev::A2);
    if !image.has(diagnostics) {
        return Some(SffFault::Absent(diagnostics));
    }
    None
}
