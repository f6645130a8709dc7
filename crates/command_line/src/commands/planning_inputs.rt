// What a plan is made for, read of the inputs.
ghost use Rattle.std.specs.Prelude.{◌≢◌, IfErr, MatchResult};
ghost use Rattle.command_line.specs.Inputs.{inputs_of};
ghost use Rattle.command_line.specs.PlanningInputs.{AreKept, AreNotKept, IsAdvertText, IsAdvertRefusal, IsModuleText, IsPlanning, IsPlanningRefusal};

use super::inputs::Inputs;
use crate::fault::Fault;
use applications::{Advert, Conventions, Weights};
use paged_memory::LargeImage;
use plan_certificate::{KeptFault, Plan, kept_fault, kept_of};
use std::alloc::Global;

/// What a plan is made for: a module's image, what the module advertises, what its paths weigh, and those that are to be kept.
#[derive(Drop)]
pub struct Planning {
    pub image: LargeImage,
    pub advert: Advert,
    pub weights: Weights,
    pub kept: Plan,
}

impl Planning {
    /// That of these inputs, read by these conventions. Inlined, since what it returns has thousands of bytes.
    #[inline(always)]
    pub fn read(
        alloc: Global,
        conventions: Conventions,
        inputs: &Inputs<'_>,
    ) -> Result<Planning, Fault>
        ensures answer { MatchResult result (IsPlanning conventions (inputs_of inputs.now)) (IsPlanningRefusal conventions (inputs_of inputs.now)) }
        ensures read { IfErr result (λ fault. fault ≢ Fault.Io) }
    {
        let (image, advert) = read_module(conventions, inputs.image)?;
        let weights = Weights::read(alloc, inputs.weights)?;
        let kept = read_kept(&advert, inputs.kept)?;
        Ok(Planning {
            image,
            advert,
            weights,
            kept,
        })
    }
}

// The image of this text, and what its module advertises, read by these conventions.
fn read_module(conventions: Conventions, text: &[u8]) -> Result<(LargeImage, Advert), Fault>
    ensures { MatchResult result (λ read. IsModuleText conventions text.now read.0 read.1) (IsAdvertRefusal conventions text.now) }
{
    let image = LargeImage::read(text)?;
    let advert = Advert::under(conventions, &image.view())?;
    Ok((image, advert))
}

/// What the module advertises whose image has this text, read by these conventions.
pub fn read_advert(conventions: Conventions, text: &[u8]) -> Result<Advert, Fault>
    ensures { MatchResult result (IsAdvertText conventions text.now) (IsAdvertRefusal conventions text.now) }
{
    let (_image, advert) = read_module(conventions, text)?;
    Ok(advert)
}

// The kept paths of this text, which the module can carry together.
fn read_kept(advert: &Advert, text: &[u8]) -> Result<Plan, KeptFault>
    ensures { MatchResult result (AreKept advert.now text.now) (AreNotKept advert.now text.now) }
{
    let kept = kept_of(text)?;
    match kept_fault(advert, &kept) {
        Some(number) => Err(KeptFault::NotAdmissible(number)),
        None => Ok(kept),
    }
}
