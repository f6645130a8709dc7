// The power class of a module of SFF-8636.
ghost use Rattle.std.specs.Prelude.{◌≡◌, ◌≤◌};
ghost use Rattle.module_details.specs.PowerClasses as spec;

use field_tables::{bit, field, number};
use paged_memory::Image;

/// The class, 1 to 8.
#[tactic(auto, unfolding(crate::specs::PowerClasses::power_class))]
pub fn power_class(image: &Image) -> u8
    ensures { result ≡ spec.power_class image.now }
{
    if bit(image, field!(Sff8636 PowerClass8)) {
        return 8;
    }
    match number(image, field!(Sff8636 PowerClassHigh)) {
        0 => number(image, field!(Sff8636 PowerClass)) + 1,
        high => high + 4,
    }
}

/// The greatest power that its class or the module allows, in milliwatts.
#[tactic(auto, unfolding(crate::specs::PowerClasses::class_power))]
pub fn class_power(image: &Image) -> u16
    ensures { result ≡ spec.class_power image.now }
{
    if bit(image, field!(Sff8636 PowerClass8)) {
        return u16::from(number(image, field!(Sff8636 MaxPower))) * 100;
    }
    power_of(power_class(image))
}

// Of classes 1 to 7.
fn power_of(class: u8) -> u16
    ensures { result ≡ spec.power_of class }
{
    match class {
        1 => 1500,
        2 => 2000,
        3 => 2500,
        4 => 3500,
        5 => 4000,
        6 => 4500,
        _ => 5000,
    }
}
