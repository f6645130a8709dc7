//! The memory of a module as it is read over a bus.
ghost use Rattle.std.specs.Prelude.{◌≡◌, ◌+◌, ◌<◌, ◌≤◌, IfOk};
ghost use Rattle.std.specs.FinMap as map;
ghost use Rattle.bus_model.specs.Runs.{IsFull};
ghost use Rattle.control_sets.specs.Procedures.{MakesHistory};
ghost use Rattle.paged_memory.specs.Images.{most_large};
ghost use Rattle.reports.specs.FetchedImages.{AreFetched, IsFetching, with_banks, with_page};

use crate::fault::ReportFault;
use bus_model::Bus;
use conversations::run;
use module_reading::{Halves, Request};
use observables::bank_count;
use paged_memory::{Image, Key, LargeImage, Page, SmallImage};

/// Reads over a bus the halves of a module that its reports speak of, then page 11h of each further bank that page 01h advertises, whatever
/// the bus refuses on the way.
pub fn fetch_image<B: Bus>(bus: &mut B) -> Result<LargeImage, ReportFault>
    ensures fetched { IsFetching B.rules (B.seen bus.old) (B.seen bus.new) result }
    ensures few { IfOk result (λ image. map.len image ≤ 8) }
{
    let read = fetch_halves(bus, Request::everything())?;
    let image = LargeImage::of(&read.view()).unwrap();
    let banks = bank_count(&read.view());
    if banks < 2 {
        return Ok(image);
    }
    let lanes = fetch_halves(bus, Request::of_banks(banks))?;
    Ok(with_banks(image, &lanes.view()))
}

// The halves of a module that are requested, in one reading.
fn fetch_halves<B: Bus>(bus: &mut B, request: Request) -> Result<SmallImage, ReportFault>
    ensures read { MakesHistory B.rules (B.seen bus.old) (B.seen bus.new) (λ history.
        AreFetched request (IsFull (B.seen bus.new)) history result) }
    ensures few { IfOk result (λ image. map.len image ≤ 5) }
{
    let mut reading = Halves::reading(request);
    match run(bus, &mut reading) {
        Ok(spent) => match spent.end {
            Some(()) => Ok(reading.conversation.conversation.image),
            None => Err(ReportFault::GaveUp),
        },
        Err(fault) => Err(ReportFault::Bus(fault)),
    }
}

// The image with page 11h of banks 1 to 3 of another.
fn with_banks(image: LargeImage, from: &Image) -> LargeImage
    requires { map.len image ≤ 5 }
    ensures put { result ≡ with_banks from.now image }
    ensures few { map.len result ≤ 8 }
{
    let mut all = image;
    put_page(&mut all, from, 0x111);
    put_page(&mut all, from, 0x211);
    put_page(&mut all, from, 0x311);
    all
}

/// Puts the page of this number of another image into an image, if the other has it.
pub fn put_page(image: &mut LargeImage, from: &Image, page: u16)
    requires { map.len image.old < most_large }
    ensures put { image.new ≡ with_page from.now page image.old }
    ensures few { map.len image.new ≤ map.len image.old + 1 }
{
    let key = Key::of_page(page);
    if let Some(half) = from.page(key) {
        image.put(key, Page::from(*half.bytes())).unwrap();
    }
}
