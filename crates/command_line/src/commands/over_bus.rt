// The image of a report: that of the input, or what is read of it over a bus.
ghost use Rattle.std.specs.Prelude.{◌≡◌, ◌≤◌, IfOk, MatchResult, Ok};
ghost use Rattle.std.specs.FinMap as map;
ghost use Rattle.bus_model.specs.ScriptBuses.{seen_at};
ghost use Rattle.command_line.specs.OverBus.{IsBusRefusal, IsFetchedFrom, IsInputRefusal, IsObservedFrom, IsReading, window_at_start};
ghost use Rattle.paged_memory.specs.Images.{most_large};

use crate::fault::Fault;
use bus_model::{Script, ScriptBus};
use control_sets::MAX_STEPS;
use observable_reports::fetch_observables;
use paged_memory::{Image, LARGE, LargeImage, Window};
use reports::fetch_image;
use std::alloc::{AllocError, Global};

/// The most steps: more than the two readings of a module's halves and those of its banks' statistics may make.
const ROOM: usize = 3 * MAX_STEPS as usize;

/// The image of this text, or, over a bus, what is read of the module that has it.
pub fn image_to_report(alloc: Global, text: &[u8], is_over_bus: bool) -> Result<LargeImage, Fault>
    ensures { MatchResult result
        (λ read. IsReading IsFetchedFrom is_over_bus text.now (Ok read))
        (IsInputRefusal IsFetchedFrom is_over_bus text.now) }
{
    let image = LargeImage::read(text)?;
    if is_over_bus {
        read_for_reports(alloc, &image.view())
    } else {
        Ok(image)
    }
}

/// The same for its details, observables and metrics: over a bus also what is read of the module's statistics (VDM).
pub fn image_to_observe(alloc: Global, text: &[u8], is_over_bus: bool) -> Result<LargeImage, Fault>
    ensures { MatchResult result
        (λ read. IsReading IsObservedFrom is_over_bus text.now (Ok read))
        (IsInputRefusal IsObservedFrom is_over_bus text.now) }
{
    let image = LargeImage::read(text)?;
    if is_over_bus {
        read_for_observables(alloc, &image.view())
    } else {
        Ok(image)
    }
}

// What is read over a bus of a module that has this image.
fn read_for_reports(alloc: Global, image: &Image) -> Result<LargeImage, Fault>
    requires { map.len image.now ≤ most_large }
    ensures { MatchResult result (λ read. IsFetchedFrom image.now (Ok read)) (IsBusRefusal IsFetchedFrom image.now) }
{
    let mut bus = bus_to(alloc, image)?;
    Ok(fetch_image(&mut bus)?)
}

// The same for its observables.
fn read_for_observables(alloc: Global, image: &Image) -> Result<LargeImage, Fault>
    requires { map.len image.now ≤ most_large }
    ensures { MatchResult result (λ read. IsObservedFrom image.now (Ok read)) (IsBusRefusal IsObservedFrom image.now) }
{
    let mut bus = bus_to(alloc, image)?;
    Ok(fetch_observables(&mut bus)?)
}

// A bus that refuses nothing, with a module that has this image.
fn bus_to(alloc: Global, image: &Image) -> Result<ScriptBus<Window<LARGE>>, AllocError>
    requires { map.len image.now ≤ most_large }
    ensures { IfOk result (λ bus. seen_at bus ≡ window_at_start image.now) }
{
    let module = Window::<LARGE>::of(image).unwrap();
    ScriptBus::new(alloc, module, Script::new(), ROOM)
}
