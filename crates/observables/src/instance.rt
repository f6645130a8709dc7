ghost use Rattle.std.specs.Prelude.{◌≡◌, ◌<◌, ◌≤◌, IfSome, MatchOption, Some, None, ℕ};
ghost use Rattle.observables.specs.Instances as spec;
ghost use Rattle.observables.specs.Instances.{IsNextInstance};

use crate::descriptor::Descriptor;
use crate::limits::{flags_of, limits_in_set};
use crate::words::{page_of, word_in};
use field_tables::PerLimit;
use paged_memory::Image;

/// How many instances a bank has.
pub const INSTANCES: u16 = 256;

/// An instance of a bank that is used, with what memory has of it.
#[derive(Clone, Copy, Debug, PartialEq, Eq)]
pub struct Instance {
    /// From 0 to 255; the standard counts from 1.
    pub number: u8,
    pub descriptor: Descriptor,
    /// The last value, as a word.
    pub sample: Option<u16>,
    /// Its limits, as words.
    pub limits: Option<PerLimit<u16>>,
    /// Which limits were passed since page 2Ch was last read.
    pub flags: Option<PerLimit<bool>>,
}

/// An instance of a bank, unless it is unused or the page of its descriptor is absent.
#[tactic(auto, unfolding(crate::specs::Instances::instance_at))]
pub fn instance_at(image: &Image, bank: u8, number: u8) -> Option<Instance>
    ensures value { result ≡ spec.instance_at image.now bank number }
    ensures number { IfSome result (λ found. found.number ≡ number) }
    ensures lane { IfSome result (λ found. found.descriptor.lane ≤ 16) }
{
    let descriptor = descriptor_at(image, bank, number)?;
    Some(Instance {
        number,
        descriptor,
        sample: word_of(image, bank, 0x24, number),
        limits: limits_in_set(image, bank, number / 64, descriptor.set),
        flags: flags_of(image, bank, number),
    })
}

/// The first instance from a number on that is used.
#[tactic(auto, using(crate::proofs::NextInstances::next))]
pub fn next_instance(image: &Image, bank: u8, from: u16) -> Option<Instance>
    ensures { MatchOption result ((k : ℕ) → from ≤ k → k < 256 → spec.instance_at image.now bank k ≡ None) (IsNextInstance image.now bank from) }
{
    for number in from..INSTANCES {
        if let Some(found) = instance_at(image, bank, number as u8) {
            return Some(found);
        }
    }
    None
}

#[tactic(auto, unfolding(crate::specs::Instances::descriptor_at))]
fn descriptor_at(image: &Image, bank: u8, number: u8) -> Option<Descriptor>
    ensures value { result ≡ spec.descriptor_at image.now bank number }
    ensures set { IfSome result (λ descriptor. descriptor.set < 16) }
    ensures lane { IfSome result (λ descriptor. descriptor.lane ≤ 16) }
{
    let word = word_of(image, bank, 0x20, number)?;
    Descriptor::of((word / 256) as u8, (word % 256) as u8)
}

// The word of an instance, if the page of the first group is this one.
fn word_of(image: &Image, bank: u8, first: u8, number: u8) -> Option<u16>
    requires { first < 252 }
    ensures { result ≡ spec.word_of image.now bank first number }
{
    let page = page_of(image, bank, first + number / 64)?;
    Some(word_in(page.bytes(), 128 + 2 * (number % 64)))
}
