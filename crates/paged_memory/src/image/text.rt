// How an image's text is written: its version's first line, a line for each page by rising keys, and `end`.
ghost use Rattle.std.specs.Prelude.{◌≡◌, ◌++◌, ◌∷◌, [], List, ℕ, IfOk, OnOk, map, length};
ghost use Rattle.std.specs.String.{string_bytes};
ghost use Rattle.std.specs.List.{AllByRecursion};
ghost use Rattle.std.specs.FinMap as finmap;
ghost use Rattle.text_lines.specs.Lines.{text_of};
ghost use Rattle.paged_memory.specs.declared.key.Key.{Key};
ghost use Rattle.paged_memory.specs.declared.page.TheConstants.{PAGE_LEN};
ghost use Rattle.paged_memory.specs.TextVersions.{version_for};
ghost use Rattle.paged_memory.specs.ImageText.{page_line, image_lines, IsEntry, IsImage};

use super::Image;
use crate::key::Key;
use crate::page::{PAGE_LEN, Page};
use crate::text_version::TextVersion;
use std::alloc::{AllocError, Global};
use std::fmt::Write;
use text_lines::Hexadecimal;

impl<'a> Image<'a> {
    /// The text of the image, in the first version that has room for its pages.
    pub fn write(&self, alloc: Global) -> Result<Vec<u8>, AllocError>
        ensures written { IfOk result (λ text. text.items ≡ text_of (image_lines (version_for (finmap.len self.now)) self.now)) }
        ensures image { OnOk result (IsImage self.now) }
    {
        let version = TextVersion::for_pages(self.entries.len());
        let mut text = String::from_str(alloc, version.header())?;
        text.push_str("\n")?;
        push_pages(&mut text, self.entries)?;
        text.push_str("end\n")?;
        Ok(text.into_bytes())
    }
}

fn push_pages(text: &mut String, entries: &[(Key, Page)]) -> Result<(), AllocError>
    ensures written { OnOk result (string_bytes text.new ≡ string_bytes text.old ++ text_of (map (λ entry. page_line entry.0 entry.1) entries.now)) }
    ensures each { OnOk result (AllByRecursion (λ entry. IsEntry entry.0 entry.1) entries.now) }
{
    for entry in entries {
        push_page(text, entry.0, entry.1.bytes())?;
    }
    Ok(())
}

fn push_page(text: &mut String, key: Key, page: &[u8]) -> Result<(), AllocError>
    requires { length page.now ≡ PAGE_LEN }
    ensures written { OnOk result (string_bytes text.new ≡ string_bytes text.old ++ (page_line key page.now ++ 10 ∷ [])) }
    ensures fits { OnOk result (IsEntry key page.now) }
{
    // Read here, both are known to be bytes, as `fits` says.
    let (_bank, _number) = (key.bank, key.page);
    let digits = Hexadecimal(page);
    writeln!(text, "{key} {digits}")
}
