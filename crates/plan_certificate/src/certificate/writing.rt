// Writing a certificate's text: the lines before those of the entries, the line of an entry, and the last line.
ghost use Rattle.std.specs.Prelude.{◌≡◌, ◌+◌, ◌*◌, ◌≤◌, ◌++◌, ◌∷◌, [], IfOk, OnOk, codes, length, map};
ghost use Rattle.std.specs.Fmt.{decimal};
ghost use Rattle.hex.specs.Hex.{encode_lower};
ghost use Rattle.std.specs.List.{AllByRecursion};
ghost use Rattle.text_lines.specs.Lines.{lines_of, text_of};
ghost use Rattle.text_lines.specs.Words.{spaced};
ghost use Rattle.plan_certificate.specs.declared.line.Line.{Line};
ghost use Rattle.plan_certificate.specs.CertificateText.{header_of, line_text, path_values, certificate_lines, IsPathInRange, IsEntryInRange, IsHead, IsReadable, IsTextOf};

use super::{Certificate, Entries, Entry};
use crate::path::Path;
use crate::plan::Plan;
use arrayvec::ArrayVec;
use itoa::Buffer;
use std::alloc::{AllocError, Global};
use text_lines::{HexByte, LF};

/// The most bytes of the lines before those of the entries: 14 of the header, 28 of the weight, 17 of each path.
pub const HEAD: usize = 314;

/// The most bytes of the line of an entry.
pub const ENTRY_LINE: usize = 32;

impl<const STATES: usize> Certificate<'_, STATES> {
    /// The text of the certificate.
    pub fn write(&self, alloc: Global) -> Result<Vec<u8>, AllocError>
        ensures written { IfOk result (λ text. text.items ≡ text_of (certificate_lines self.now)) }
        ensures readable { OnOk result (IsReadable STATES self.now) }
        ensures read_back { IfOk result (λ text. IsTextOf STATES (lines_of text.items) self.now) }
    {
        let head = head_of(self.paired, self.weight, &self.kept, &self.plan);
        let mut text = Vec::from_slice(alloc, head.as_slice())?;
        write_entries(&mut text, &self.entries)?;
        text.extend_from_slice(&end_line())?;
        Ok(text)
    }
}

// Most lines are states, so these are put together byte by byte.
fn write_entries<const STATES: usize>(
    text: &mut Vec<u8>,
    entries: &Entries<'_, STATES>,
) -> Result<(), AllocError>
    ensures written { OnOk result (text.new.items ≡ text.old.items ++ text_of (map line_text (map (λ entry. Line.StateLine entry) entries.now.entries))) }
    ensures each { OnOk result (AllByRecursion IsEntryInRange entries.now.entries) }
    ensures few { OnOk result (length entries.now.entries ≤ STATES) }
{
    let mut from = 0;
    while let Some(entry) = entries.first_from(from) {
        text.extend_from_slice(entry_line(entry).as_slice())?;
        from = entry.place() + 1;
    }
    Ok(())
}

/// The lines of a certificate before those of its entries.
pub fn head_of(paired: bool, weight: u64, kept: &Plan, plan: &Plan) -> ArrayVec<u8, HEAD>
    ensures { IsHead paired weight kept.now plan.now result.items }
{
    let (kept, paths) = (kept.paths.as_slice(), plan.paths.as_slice());
    let mut head = ArrayVec::new();
    add(&mut head, header_of(paired, kept));
    add_weight(&mut head, weight);
    add_kept(&mut head, kept);
    add_paths(&mut head, paths);
    head
}

// The first line of a certificate for a module that pairs first lanes or does not, which keeps these paths.
#[tactic(auto, unfolding(crate::specs::CertificateText::line_words))]
fn header_of(paired: bool, kept: &[Path]) -> &'static [u8]
    ensures line { result.now ≡ line_text (header_of paired kept.now) ++ 10 ∷ [] }
    ensures small { length result.now ≤ 14 }
{
    match (paired, kept.is_empty()) {
        (false, true) => b"certificate 1\n",
        (false, false) => b"certificate 2\n",
        (true, true) => b"certificate 3\n",
        (true, false) => b"certificate 4\n",
    }
}

#[tactic(auto, unfolding(crate::specs::CertificateText::line_words))]
fn add_weight(head: &mut ArrayVec<u8, HEAD>, weight: u64)
    requires room { length head.old.items + 28 ≤ 314 }
    ensures written { head.new.items ≡ head.old.items ++ (line_text (Line.Weight weight) ++ 10 ∷ []) }
    ensures small { length head.new.items ≤ length head.old.items + 28 }
{
    add(head, b"weight ");
    add(head, Buffer::new().format(weight).as_bytes());
    head.push(LF);
}

fn add_kept(head: &mut ArrayVec<u8, HEAD>, paths: &[Path])
    requires room { length head.old.items + 17 * length paths.now ≤ 314 }
    ensures written { head.new.items ≡ head.old.items ++ text_of (map line_text (map (λ path. Line.KeepLine path) paths.now)) }
    ensures small { length head.new.items ≤ length head.old.items + 17 * length paths.now }
    ensures each { AllByRecursion IsPathInRange paths.now }
{
    for path in paths {
        add_keep(head, *path);
    }
}

#[tactic(auto, unfolding(crate::specs::CertificateText::line_words))]
fn add_keep(head: &mut ArrayVec<u8, HEAD>, path: Path)
    requires room { length head.old.items + 17 ≤ 314 }
    ensures written { head.new.items ≡ head.old.items ++ (line_text (Line.KeepLine path) ++ 10 ∷ []) }
    ensures small { length head.new.items ≤ length head.old.items + 17 }
    ensures fits { IsPathInRange path }
{
    add_words(head, b"keep", path);
}

fn add_paths(head: &mut ArrayVec<u8, HEAD>, paths: &[Path])
    requires room { length head.old.items + 17 * length paths.now ≤ 314 }
    ensures written { head.new.items ≡ head.old.items ++ text_of (map line_text (map (λ path. Line.PathLine path) paths.now)) }
    ensures small { length head.new.items ≤ length head.old.items + 17 * length paths.now }
    ensures each { AllByRecursion IsPathInRange paths.now }
{
    for path in paths {
        add_path(head, *path);
    }
}

#[tactic(auto, unfolding(crate::specs::CertificateText::line_words))]
fn add_path(head: &mut ArrayVec<u8, HEAD>, path: Path)
    requires room { length head.old.items + 17 ≤ 314 }
    ensures written { head.new.items ≡ head.old.items ++ (line_text (Line.PathLine path) ++ 10 ∷ []) }
    ensures small { length head.new.items ≤ length head.old.items + 17 }
    ensures fits { IsPathInRange path }
{
    add_words(head, b"path", path);
}

// Adds the line of a word and a path's numbers.
fn add_words(head: &mut ArrayVec<u8, HEAD>, word: &[u8], path: Path)
    requires word { length word.now ≤ 4 }
    requires room { length head.old.items + 17 ≤ 314 }
    ensures written { head.new.items ≡ head.old.items ++ (spaced (word.now ∷ path_values path) ++ 10 ∷ []) }
    ensures small { length head.new.items ≤ length head.old.items + 17 }
    ensures fits { IsPathInRange path }
{
    add(head, word);
    add_number(head, path.app);
    add_number(head, path.host);
    add_number(head, path.media);
    head.push(LF);
}

// Adds a space and a number.
fn add_number(head: &mut ArrayVec<u8, HEAD>, number: u8)
    requires room { length head.old.items + 4 ≤ 314 }
    ensures written { head.new.items ≡ head.old.items ++ 32 ∷ decimal number }
    ensures small { length head.new.items ≤ length head.old.items + 4 }
{
    head.push(b' ');
    add(head, Buffer::new().format(number).as_bytes());
}

fn add(head: &mut ArrayVec<u8, HEAD>, bytes: &[u8])
    requires room { length head.old.items + length bytes.now ≤ 314 }
    ensures { head.new.items ≡ head.old.items ++ bytes.now }
{
    head.try_extend_from_slice(bytes).unwrap();
}

/// The line of an entry.
pub fn entry_line(entry: Entry) -> ArrayVec<u8, ENTRY_LINE>
    requires { entry.boundary ≤ 8 }
    ensures written { result.items ≡ line_text (Line.StateLine entry) ++ 10 ∷ [] }
    ensures fits { IsEntryInRange entry }
{
    let mut line = ArrayVec::try_from(state_words(entry.boundary, entry.used).as_slice()).unwrap();
    line.try_extend_from_slice(Buffer::new().format(entry.potential).as_bytes())
        .unwrap();
    line.push(LF);
    line
}

// A state's line before its potential.
#[tactic(auto, unfolding(hex::specs::Hex::encode_with))]
fn state_words(boundary: u8, used: u8) -> [u8; 11]
    requires { boundary ≤ 8 }
    ensures { result ≡ codes "state " ++ decimal boundary ++ 32 ∷ (encode_lower (used ∷ []) ++ 32 ∷ []) }
{
    let [high, low] = HexByte(used).digits();
    [
        b's',
        b't',
        b'a',
        b't',
        b'e',
        b' ',
        b'0' + boundary,
        b' ',
        high,
        low,
        b' ',
    ]
}

/// The last line.
#[tactic(auto, unfolding(crate::specs::CertificateText::line_words))]
pub fn end_line() -> [u8; 4]
    ensures { result ≡ line_text Line.End ++ 10 ∷ [] }
{
    *b"end\n"
}
