//! The memory of a module as observables need it, as it is read over a bus.
ghost use Rattle.std.specs.Prelude.{◌≡◌, ◌+◌, ◌≤◌, length};
ghost use Rattle.std.specs.FinMap as map;
ghost use Rattle.paged_memory.specs.Images.{most_large};
ghost use Rattle.observable_reports.specs.FetchedObservables.{IsBankRead, IsObserving, with_pages, with_statistics};

use bus_model::Bus;
use control_sets::MAX_STEPS;
use conversations::{Within, run};
use observables::statistics_banks;
use paged_memory::{Image, LargeImage};
use reports::{ReportFault, fetch_image, put_page};
use vdm_reading::{VdmReading, VdmRequest, groups_page};

/// Reads over a bus what the reports of a module need (`fetch_image`), then the statistics (VDM) of each bank, if page 01h advertises any. It
/// doesn't answer whether these were frozen and released, nor which of their pages were lost.
pub fn fetch_observables<B: Bus>(bus: &mut B) -> Result<LargeImage, ReportFault>
    ensures { IsObserving B.rules (B.seen bus.old) (B.seen bus.new) result }
{
    let mut image = fetch_image(bus)?;
    for bank in 0..statistics_banks(&image.view()) {
        read_bank(bus, bank, &mut image)?;
    }
    Ok(image)
}

// Reads the statistics of a bank, and puts them into an image.
fn read_bank<B: Bus>(bus: &mut B, bank: u8, image: &mut LargeImage) -> Result<(), ReportFault>
    requires { map.len image.old + 14 ≤ most_large }
    ensures read { IsBankRead B.rules bank (B.seen bus.old) (B.seen bus.new) image.old image.new result }
    ensures few { map.len image.new ≤ map.len image.old + 14 }
{
    let request = VdmRequest { pause: 0, bank };
    let mut reading = Within::new(VdmReading::begin(request), MAX_STEPS);
    match run(bus, &mut reading) {
        Ok(_spent) => {
            put_statistics(image, &reading.conversation);
            Ok(())
        }
        Err(fault) => Err(ReportFault::Bus(fault)),
    }
}

// Puts the pages that a reading of statistics has into an image.
#[tactic(auto, unfolding(crate::specs::FetchedObservables::with_pages))]
fn put_statistics(image: &mut LargeImage, reading: &VdmReading)
    requires { map.len image.old + length reading.now.pages.items + 1 ≤ most_large }
    ensures put { image.new ≡ with_statistics image.old reading.now }
    ensures few { map.len image.new ≤ map.len image.old + length reading.now.pages.items + 1 }
{
    let from = reading.image.view();
    put_page(image, &from, groups_page(reading.request.bank));
    put_pages(image, &from, &reading.pages);
}

#[tactic(auto, unfolding(crate::specs::FetchedObservables::with_pages))]
fn put_pages(image: &mut LargeImage, from: &Image, pages: &[u16])
    requires { map.len image.old + length pages.now ≤ most_large }
    ensures put { image.new ≡ with_pages from.now pages.now image.old }
    ensures few { map.len image.new ≤ map.len image.old + length pages.now }
{
    for page in pages {
        put_page(image, from, *page);
    }
}
