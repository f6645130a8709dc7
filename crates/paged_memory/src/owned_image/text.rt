// How an image's text is read.
ghost use Rattle.std.specs.Prelude.{◌≡◌, ◌≢◌, ◌↔◌, ◌≤◌, ◌++◌, ◌∷◌, [], List, ℕ, IsTrue, IfOk, IfErr, OnOk, MatchOption, length};
ghost use Rattle.std.specs.List.{All};
ghost use Rattle.std.specs.FinMap as finmap;
ghost use Rattle.std.specs.declared.cmp.Ordering.TheVariants.{Less};
ghost use Rattle.text_lines.specs.Lines.{lines_of};
ghost use Rattle.paged_memory.specs.declared.key.Key.{Key};
ghost use Rattle.paged_memory.specs.declared.text_version.TextVersion.{TextVersion};
ghost use Rattle.paged_memory.specs.KeyOrder.{key_cmp};
ghost use Rattle.paged_memory.specs.TextVersions.{header, most_in};
ghost use Rattle.paged_memory.specs.ImageText.{end_line, IsTextOf};
ghost use Rattle.paged_memory.specs.ImageFaults.{IsPageLine, IsLineFault, IsFirstFault};

use super::{LARGE, OwnedImage};
use crate::entries::is_below;
use crate::fault::ImageFault;
use crate::key::Key;
use crate::page::Page;
use crate::page_line::read_page_line;
use crate::text_version::TextVersion;
use arrayvec::ArrayVec;
use text_lines::split_long_line;

const END: &[u8] = b"end";

impl OwnedImage<LARGE> {
    /// The image of a text of either version, or the text's first fault.
    pub fn read(text: &[u8]) -> Result<Self, ImageFault>
        ensures ok { IfOk result (IsTextOf (lines_of text.now)) }
        ensures err { IfErr result (IsFirstFault (lines_of text.now)) }
    {
        let Some((version, mut rest)) = split_header(text) else {
            return Err(ImageFault::BadHeader);
        };
        let mut entries = ArrayVec::new();
        while let Some((line, after)) = split_long_line(rest) {
            if is_end(line) {
                return match split_long_line(after) {
                    None => Ok(OwnedImage { entries }),
                    Some(_) => Err(ImageFault::AfterEnd),
                };
            }
            if let Err(fault) = take_line(version, &mut entries, line) {
                return Err(fault);
            }
            rest = after;
        }
        Err(ImageFault::NoEnd)
    }
}

// The version of a text, and what follows its first line.
fn split_header(text: &[u8]) -> Option<(TextVersion, &[u8])>
    ensures { MatchOption result ((version : TextVersion) (rest : List (List ℕ)) → lines_of text.now ≢ header version ∷ rest)
        (λ split. lines_of text.now ≡ header split.0 ∷ lines_of split.1.now) }
{
    let Some((first, rest)) = split_long_line(text) else {
        return None;
    };
    for version in [TextVersion::One, TextVersion::Two] {
        if first == version.header().as_bytes() {
            return Some((version, rest));
        }
    }
    None
}

#[tactic(auto, unfolding(crate::specs::ImageText::end_line))]
fn is_end(line: &[u8]) -> bool
    ensures { IsTrue result ↔ (line.now ≡ end_line) }
{
    line == END
}

// Adds the page of the line that follows the lines of these entries.
fn take_line(
    version: TextVersion,
    entries: &mut ArrayVec<(Key, Page), LARGE>,
    line: &[u8],
) -> Result<(), ImageFault>
    requires sorted { IsTrue (finmap.is_sorted key_cmp entries.old.items) }
    requires room { length entries.old.items ≤ most_in version }
    requires goes_on { line.now ≢ end_line }
    ensures sorted { OnOk result (IsTrue (finmap.is_sorted key_cmp entries.new.items)) }
    ensures room { OnOk result (length entries.new.items ≤ most_in version) }
    ensures added { OnOk result ((key : Key) × (page : List ℕ) × IsPageLine line.now key page × (entries.new.items ≡ entries.old.items ++ (key, page) ∷ [])) }
    ensures fault { IfErr result (IsLineFault version (finmap.from_sorted entries.old.items) line.now) }
{
    let number = entries.len() + 2;
    let Some((key, page)) = read_page_line(line) else {
        return Err(ImageFault::BadLine(number));
    };
    if !is_above_all(entries, key) {
        return Err(ImageFault::OutOfOrder(number));
    }
    if entries.len() == version.most_pages() {
        return Err(version.full());
    }
    entries.push((key, page));
    Ok(())
}

fn is_above_all(entries: &[(Key, Page)], key: Key) -> bool
    ensures { IsTrue result ↔ All (λ entry. key_cmp entry.0 key ≡ Less) entries.now }
{
    entries.iter().all(|entry| is_below(entry.0, key))
}
