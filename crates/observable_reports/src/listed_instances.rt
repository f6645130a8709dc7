// What a CMIS module lists itself (VDM).
ghost use Rattle.std.specs.Prelude.{◌≡◌, ◌++◌, IfOk, OnOk, Some};
ghost use Rattle.observable_reports.specs.ListedInstances.{all_listed, listed};

use observables::{MONITOR_PLACES, Observation, next_observation};
use paged_memory::Image;
use std::alloc::{AllocError, Global};

/// An instance that a module advertises, by its number: 256 for each bank, the first is 1.
#[derive(Clone, Copy, Drop)]
pub struct Seen {
    pub number: u16,
    pub observation: Observation,
}

/// The instances that a module advertises, by rising number.
#[tactic(auto, using(crate::proofs::ListedInstances::one_more, crate::proofs::ListedInstances::no_more))]
pub fn all_listed(alloc: Global, image: &Image) -> Result<Vec<Seen>, AllocError>
    ensures { IfOk result (λ seen. seen.items ≡ all_listed image.now) }
{
    let mut seen = Vec::new(alloc);
    let mut from = MONITOR_PLACES;
    while let Some((place, observation)) = next_observation(image, from) {
        from = place + 1;
        add_seen(&mut seen, from - MONITOR_PLACES, observation)?;
    }
    Ok(seen)
}

fn add_seen(seen: &mut Vec<Seen>, number: u16, observation: Observation) -> Result<(), AllocError>
    ensures { OnOk result (seen.new.items ≡ seen.old.items ++ listed number (Some observation)) }
{
    if observation.advertised {
        seen.push(Seen {
            number,
            observation,
        })?;
    }
    Ok(())
}
