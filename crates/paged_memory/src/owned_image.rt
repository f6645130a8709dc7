mod text;

use crate::entries::put_entry;
use crate::fault::ImageFault;
use crate::image::Image;
use crate::key::Key;
use crate::page::Page;
use arrayvec::ArrayVec;
use std::marker::Model;

/// How many pages a small image holds at most.
pub const SMALL: usize = 16;

/// How many pages a large image holds at most.
pub const LARGE: usize = 64;

/// An image with its pages, so many at most.
#[derive(Debug, Drop)]
pub struct OwnedImage<const MOST: usize> {
    entries: ArrayVec<(Key, Page), MOST>,
}

/// An image with room for the pages that are needed to plan, to provision and to report a module (2 KB).
pub type SmallImage = OwnedImage<SMALL>;

/// An image with room for all that a module has, statistics and monitors of two banks among them (8 KB).
pub type LargeImage = OwnedImage<LARGE>;

impl<const MOST: usize> Model for OwnedImage<MOST> {
    ghost use Rattle.std.specs.Prelude.{ℕ, List};
    ghost use Rattle.std.specs.Coded.{coded_ℕ, coded_list};
    ghost use Rattle.std.specs.FinMap as map;
    ghost use Rattle.paged_memory.specs.KeyOrder.{key_cmp};
    ghost use Rattle.paged_memory.specs.KeyCode.{coded_key};
    ghost use Rattle.paged_memory.specs.ImageText.{AreEntries};

    ghost Value = { map.FinMap key_cmp (List ℕ) };

    ghost coded = { map.code coded_key (coded_list coded_ℕ) };

    ghost view = { λ image. map.from_sorted image.entries.items };

    ghost invariant = { λ image. AreEntries image.entries.items };
}

impl<const MOST: usize> OwnedImage<MOST> {
    ghost use Rattle.std.specs.Prelude.{◌≡◌, ◌↔◌, ◌<◌, ◌≤◌, IfOk, OnOk, OnErr, IfErr, IsErr, false};
    ghost use Rattle.std.specs.FinMap as map;
    ghost use Rattle.paged_memory.specs.ImageText.{IsImage};

    /// The image with no page.
    #[tactic(auto, using(crate::proofs::ImageViews::no_pages))]
    pub fn new() -> Self
        ensures empty { result ≡ map.empty }
        ensures image { IsImage result }
    {
        OwnedImage {
            entries: ArrayVec::new(),
        }
    }

    /// A copy of an image, if there is room for its pages.
    pub fn of(image: &Image) -> Result<Self, ImageFault>
        ensures ok { IfOk result (λ owned. owned ≡ image.now) }
        ensures more { IsErr result ↔ (MOST < map.len image.now) }
        ensures fault { IfErr result (λ fault. fault ≡ ImageFault.TooManyPages) }
    {
        match ArrayVec::try_from(image.entries()) {
            Ok(entries) => Ok(OwnedImage { entries }),
            Err(_) => Err(ImageFault::TooManyPages),
        }
    }

    /// The same image.
    pub fn copy(&self) -> Self
        ensures { result ≡ self.now }
    {
        OwnedImage {
            entries: ArrayVec::try_from(self.entries.as_slice()).unwrap(),
        }
    }

    /// The image, for whoever reads it.
    pub fn view(&self) -> Image<'_>
        ensures same { result ≡ self.now }
        ensures few { map.len self.now ≤ MOST }
        ensures image { IsImage self.now }
    {
        Image::of(&self.entries)
    }

    /// Puts a page under a key, in the place of the page that was there. A refusal changes nothing.
    pub fn put(&mut self, key: Key, page: Page) -> Result<(), ImageFault>
        ensures ok { OnOk result (self.new ≡ map.insert self.old key page) }
        ensures refused { IsErr result ↔ ((map.len self.old ≡ MOST) × (map.contains_key self.old key ≡ false)) }
        ensures fault { IfErr result (λ fault. fault ≡ ImageFault.TooManyPages) }
        ensures err { OnErr result (self.new ≡ self.old) }
        ensures image { IsImage self.new }
    {
        // Read here, it is known to be of bytes.
        let _bytes = page.bytes();
        if !put_entry(&mut self.entries, key, page) {
            return Err(ImageFault::TooManyPages);
        }
        Ok(())
    }
}
