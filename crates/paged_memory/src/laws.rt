//! What holds of images, their texts and windows, over all of them.
ghost use Rattle.std.specs.Prelude.{◌≡◌, ◌≤◌, ℕ, List, Result};
ghost use Rattle.paged_memory.specs.declared.key.Key.{Key};
ghost use Rattle.paged_memory.specs.KeyOrder.{key_cmp};
ghost use Rattle.text_lines.specs.Lines.{lines_of, text_of};
ghost use Rattle.paged_memory.specs.declared.fault.ImageFault.{ImageFault};
ghost use Rattle.std.specs.FinMap as map;
ghost use Rattle.paged_memory.specs.declared.text_version.TextVersion.TheVariants.{Two};
ghost use Rattle.paged_memory.specs.Images.{Memory};
ghost use Rattle.paged_memory.specs.TextVersions.{most_in, version_for};
ghost use Rattle.paged_memory.specs.ImageText.{image_lines, IsImage, IsTextOf};
ghost use Rattle.paged_memory.specs.ImageFaults.{IsAnswer};
ghost use Rattle.bus_model.specs.declared.device.Dev.{Dev};
ghost use Rattle.paged_memory.specs.Windows.{Windowed, window_stored};

use crate::key::Key;

/// Lines have one answer at most: two images share no text, no text has both an image and a fault, and the
/// first fault of a text is one.
pub fn one_answer()
    ensures { (lines : List (List ℕ)) (a b : Result Memory ImageFault) → IsAnswer lines a → IsAnswer lines b → a ≡ b }
{}

/// The written text of an image of at most 64 pages is read as this image.
pub fn written_is_read()
    ensures { (memory : Memory) → IsImage memory → map.len memory ≤ most_in Two →
        IsTextOf (lines_of (text_of (image_lines (version_for (map.len memory)) memory))) memory }
{}

/// Keys are ordered by device, the lower half before the upper, then by bank and page.
pub fn keys_are_ordered()
    ensures { (a b : Key) → ⟦<Key as Ord>⟧.cmp a b ≡ key_cmp a b }
{}

/// No store changes the memory that a window shows.
pub fn memory_stays()
    ensures { (window : Windowed) (dev : Dev) (address : ℕ) (bytes : List ℕ) → (window_stored window dev address bytes).1.memory ≡ window.memory }
{}
