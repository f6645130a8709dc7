mod text;

use crate::entries::page_at;
use crate::key::Key;
use crate::page::{PAGE_LEN, Page};
use bus_model::Dev;
use std::marker::Model;

/// A module's memory, as whoever keeps its pages shows it: pages under their keys. It is two words, and takes no room for pages.
#[derive(Debug, Drop)]
pub struct Image<'a> {
    entries: &'a [(Key, Page)],
}

impl<'a> Model for Image<'a> {
    ghost use Rattle.std.specs.Prelude.{ℕ, List};
    ghost use Rattle.std.specs.Coded.{coded_ℕ, coded_list};
    ghost use Rattle.std.specs.FinMap as map;
    ghost use Rattle.paged_memory.specs.KeyOrder.{key_cmp};
    ghost use Rattle.paged_memory.specs.KeyCode.{coded_key};
    ghost use Rattle.paged_memory.specs.ImageText.{AreEntries};

    ghost Value = { map.FinMap key_cmp (List ℕ) };

    ghost coded = { map.code coded_key (coded_list coded_ℕ) };

    ghost view = { λ image. map.from_sorted image.entries.now };

    ghost invariant = { λ image. AreEntries image.entries.now };
}

impl<'a> Image<'a> {
    ghost use Rattle.std.specs.Prelude.{◌≡◌, length};
    ghost use Rattle.std.specs.Option.{option_copied};
    ghost use Rattle.std.specs.FinMap as map;
    ghost use Rattle.paged_memory.specs.KeyOrder.{key_cmp};
    ghost use Rattle.paged_memory.specs.Images.{byte_at};
    ghost use Rattle.paged_memory.specs.ImageText.{AreEntries, IsImage};

    // The image of such pages.
    pub(crate) fn of(entries: &'a [(Key, Page)]) -> Self
        requires { AreEntries entries.now }
        ensures { result ≡ map.from_sorted entries.now }
    {
        Image { entries }
    }

    /// The page under a key.
    pub fn page(&self, key: Key) -> Option<&'a Page>
        ensures page { option_copied result ≡ map.get self.now key }
        ensures image { IsImage self.now }
    {
        page_at(self.entries, key)
    }

    // The pages with their keys, in the order of the keys.
    pub(crate) fn entries(&self) -> &'a [(Key, Page)]
        ensures image { map.from_sorted result.now ≡ self.now }
        ensures len { length result.now ≡ map.len self.now }
        ensures are { AreEntries result.now }
    {
        self.entries
    }

    /// Whether there is a page under a key.
    pub fn has(&self, key: Key) -> bool
        ensures { result ≡ map.contains_key self.now key }
    {
        self.page(key).is_some()
    }

    /// The byte that a device has at an address (0 to 255) while a page of bank 0 is selected.
    pub fn byte(&self, dev: Dev, page: u8, offset: u8) -> Option<u8>
        ensures { result ≡ byte_at self.now dev page offset }
    {
        let address = usize::from(offset);
        if address < PAGE_LEN {
            Some(self.page(Key::lower(dev))?.bytes()[address])
        } else {
            Some(self.page(Key::upper(dev, 0, page))?.bytes()[address - PAGE_LEN])
        }
    }
}
