ghost use Rattle.std.specs.Prelude.{◌≡◌, IfOk};
ghost use Rattle.observables.specs.Instances.{instances_before};

use crate::instance::{INSTANCES, Instance, instance_at};
use paged_memory::Image;
use std::alloc::{AllocError, Global};

/// The instances of a bank that are used, by rising number.
#[tactic(auto, using(crate::proofs::OneMoreInstance::one_more, crate::proofs::OneMoreInstance::none_more))]
pub fn all_instances(alloc: Global, image: &Image, bank: u8) -> Result<Vec<Instance>, AllocError>
    ensures { IfOk result (λ all. all.items ≡ instances_before image.now bank 256) }
{
    let mut all = Vec::new(alloc);
    for number in 0..INSTANCES {
        if let Some(found) = instance_at(image, bank, number as u8) {
            all.push(found)?;
        }
    }
    Ok(all)
}
