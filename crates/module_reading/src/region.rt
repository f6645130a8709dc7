ghost use Rattle.std.specs.Prelude.{◌≡◌};
ghost use Rattle.bus_model.specs.Operations.{IsWellShaped};

use bus_model::{Dev, Op};
use paged_memory::Key;

/// A half of a module's memory that is read over the bus.
#[derive(Clone, Copy)]
pub enum Region {
    /// The lower half of a device.
    Lower(Dev),
    /// Page 00h of a module with flat memory, which shows no other page.
    FirstPage,
    /// The page of this number, which has to be selected.
    Page(u16),
}

impl Default for Region {
    ghost use Rattle.std.specs.Prelude.{◌≡◌};
    ghost use Rattle.module_reading.specs.declared.region.Region.TheVariants.{FirstPage};

    ghost is_default = { λ region. region ≡ FirstPage };

    fn default() -> Self {
        Region::FirstPage
    }
}

impl Region {
    ghost use Rattle.module_reading.specs.Regions.{key_of, operation, page_of};

    /// The fetch that reads it.
    pub fn op(self) -> Op
        ensures operation { result ≡ operation self }
        ensures shape { IsWellShaped result }
    {
        let (dev, offset) = match self {
            Region::Lower(dev) => (dev, 0),
            Region::FirstPage | Region::Page(_) => (Dev::A0, 128),
        };
        Op::Fetch {
            dev,
            offset,
            count: 128,
        }
    }

    /// The number of the page that has to be selected for it.
    pub fn page(self) -> Option<u16>
        ensures { result ≡ page_of self }
    {
        match self {
            Region::Lower(_) | Region::FirstPage => None,
            Region::Page(page) => Some(page),
        }
    }

    /// Where an image has it.
    pub fn key(self) -> Key
        ensures { result ≡ key_of self }
    {
        match self {
            Region::Lower(dev) => Key::lower(dev),
            Region::FirstPage => Key::upper(Dev::A0, 0, 0),
            Region::Page(page) => Key::of_page(page),
        }
    }
}
