// Entries in the order of their keys, as a list.
ghost use Rattle.std.specs.Prelude.{◌≡◌, ◌<◌, ◌≤◌, ℕ, List, length, slice_index_or, slice_set, IsTrue, ◌↔◌, IfOk, IfErr, Some, None, false};
ghost use Rattle.std.specs.Bool.{OnTrue, OnFalse};
ghost use Rattle.std.specs.List.{insert};
ghost use Rattle.std.specs.declared.cmp.Ordering.TheVariants.{Less};
ghost use Rattle.std.specs.Ordering.{is_eq};
ghost use Rattle.std.specs.FinMap.{find, is_sorted};
ghost use Rattle.std.specs.FinMap as map;
ghost use Rattle.std.specs.Option.{option_copied};
ghost use Rattle.std.specs.FinMap.Entries.{put};
ghost use Rattle.paged_memory.specs.declared.key.Key.{Key};
ghost use Rattle.paged_memory.specs.KeyOrder.{key_cmp};

use crate::key::Key;
use crate::page::Page;
use arrayvec::ArrayVec;
use std::cmp::Ordering;

/// Where the entry of a key is, or where it goes.
pub fn place_of(entries: &[(Key, Page)], key: Key) -> Result<usize, usize>
    requires { IsTrue (is_sorted key_cmp entries.now) }
    ensures held { IfOk result (λ place. place < length entries.now) }
    ensures found { IfOk result (λ place. (entry : Key × List ℕ) → find key_cmp key entries.now ≡ Some (slice_index_or entries.now place entry).1) }
    ensures over { IfOk result (λ place. (page : List ℕ) → put key_cmp key page entries.now ≡ slice_set entries.now place (key, page)) }
    ensures room { IfErr result (λ place. place ≤ length entries.now) }
    ensures absent { IfErr result (λ place. find key_cmp key entries.now ≡ None) }
    ensures between { IfErr result (λ place. (page : List ℕ) → put key_cmp key page entries.now ≡ insert entries.now place (key, page)) }
{
    for (place, entry) in entries.iter().enumerate() {
        match order_of(key, entry.0) {
            Ordering::Less => return Err(place),
            Ordering::Equal => return Ok(place),
            Ordering::Greater => {}
        }
    }
    Err(entries.len())
}

/// The page under a key.
pub fn page_at(entries: &[(Key, Page)], key: Key) -> Option<&Page>
    requires { IsTrue (is_sorted key_cmp entries.now) }
    ensures { option_copied result ≡ map.get {R = key_cmp} (map.from_sorted entries.now) key }
{
    for (place, entry) in entries.iter().enumerate() {
        if is_same(key, entry.0) {
            return Some(&entries[place].1);
        }
    }
    None
}

fn is_same(a: Key, b: Key) -> bool
    ensures { result ≡ is_eq (key_cmp a b) }
{
    a == b
}

/// Puts an entry in its place, if the key is held or there is room.
pub fn put_entry<const MOST: usize>(
    entries: &mut ArrayVec<(Key, Page), MOST>,
    key: Key,
    page: Page,
) -> bool
    requires { IsTrue (is_sorted key_cmp entries.old.items) }
    ensures put { OnTrue result (entries.new.items ≡ put key_cmp key page entries.old.items) }
    ensures full { (result ≡ false) ↔ ((length entries.old.items ≡ MOST) × (find key_cmp key entries.old.items ≡ None)) }
    ensures same { OnFalse result (entries.new ≡ entries.old) }
{
    match place_of(entries, key) {
        Ok(place) => {
            entries[place] = (key, page);
            true
        }
        Err(place) => entries.try_insert(place, (key, page)).is_ok(),
    }
}

fn order_of(a: Key, b: Key) -> Ordering
    ensures { result ≡ key_cmp a b }
{
    a.cmp(&b)
}

pub fn is_below(a: Key, b: Key) -> bool
    ensures { IsTrue result ↔ (key_cmp a b ≡ Less) }
{
    a < b
}
