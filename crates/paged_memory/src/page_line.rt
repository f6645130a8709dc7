// A page line of an image's text.
ghost use Rattle.std.specs.Prelude.{◌≡◌, ◌≢◌, ℕ, List, [], ◌∷◌, map, MatchOption};
ghost use Rattle.hex.specs.Hex.{encode_lower};
ghost use Rattle.paged_memory.specs.declared.key.Key.{Key};
ghost use Rattle.paged_memory.specs.ImageText.{key_words, page_words, IsKey, IsPage, IsEntry};
ghost use Rattle.paged_memory.specs.ImageFaults.{IsPageLine};

use crate::key::Key;
use crate::page::{PAGE_LEN, Page};
use bus_model::Dev;
use text_lines::{read_hex_byte, read_hexadecimal, split_words};

/// The key and the page that a line has, if it has the form of a page line.
pub fn read_page_line(line: &[u8]) -> Option<(Key, Page)>
    ensures { MatchOption result ((key : Key) (page : List ℕ) → IsPageLine line.now key page → ⊥) (λ entry. IsPageLine line.now entry.0 entry.1) }
{
    let Some(words) = split_words::<5>(line) else {
        return None;
    };
    read_entry(&words)
}

fn read_entry(words: &[&[u8]]) -> Option<(Key, Page)>
    ensures { MatchOption result ((key : Key) (page : List ℕ) → IsEntry key page → map (λ word. word.now) words.now ≢ page_words key page)
        (λ entry. IsEntry entry.0 entry.1 × (map (λ word. word.now) words.now ≡ page_words entry.0 entry.1)) }
{
    let Some((page, key)) = words.split_last() else {
        return None;
    };
    let Some(key) = read_key(key) else {
        return None;
    };
    let Some(page) = read_page(page) else {
        return None;
    };
    Some((key, page))
}

fn read_page(word: &[u8]) -> Option<Page>
    ensures { MatchOption result ((page : List ℕ) → IsPage page → word.now ≢ encode_lower page) (λ page. IsPage page × (word.now ≡ encode_lower page)) }
{
    let Some(bytes) = read_hexadecimal::<PAGE_LEN>(word) else {
        return None;
    };
    Some(Page::from(bytes))
}

fn read_key(words: &[&[u8]]) -> Option<Key>
    ensures { MatchOption result ((key : Key) → IsKey key → map (λ word. word.now) words.now ≢ key_words key)
        (λ key. IsKey key × (map (λ word. word.now) words.now ≡ key_words key)) }
{
    match words {
        [half, device] => read_lower(half, device),
        [half, device, bank, page] => read_upper(half, device, bank, page),
        _ => None,
    }
}

fn read_lower(half: &[u8], device: &[u8]) -> Option<Key>
    ensures { MatchOption result ((key : Key) → IsKey key → half.now ∷ device.now ∷ [] ≢ key_words key)
        (λ key. IsKey key × (half.now ∷ device.now ∷ [] ≡ key_words key)) }
{
    if half != b"lower".as_slice() {
        return None;
    }
    match Dev::named(device) {
        Some(dev) => Some(Key::lower(dev)),
        None => None,
    }
}

fn read_upper(half: &[u8], device: &[u8], bank: &[u8], page: &[u8]) -> Option<Key>
    ensures { MatchOption result ((key : Key) → IsKey key → half.now ∷ device.now ∷ bank.now ∷ page.now ∷ [] ≢ key_words key)
        (λ key. IsKey key × (half.now ∷ device.now ∷ bank.now ∷ page.now ∷ [] ≡ key_words key)) }
{
    if half != b"upper".as_slice() {
        return None;
    }
    let Some(dev) = Dev::named(device) else {
        return None;
    };
    let Some(bank) = read_hex_byte(bank) else {
        return None;
    };
    let Some(page) = read_hex_byte(page) else {
        return None;
    };
    Some(Key::upper(dev, bank, page))
}
