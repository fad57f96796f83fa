// An index of a list of numbers: each number has a slot. A slot that is 0 says that no number of the list has it; else it is a place in the
// list, from 1, at which to look first.
ghost use Rattle.std.specs.Prelude.{◌≡◌, ◌≤◌, ◌+◌, min, length, get_or, set, take, map, replicate};
ghost use Rattle.std.specs.List.{list_all};
ghost use Rattle.storage.specs.Bytes.{packed};
ghost use Rattle.entries.specs.Entries.{listed, entries_of};
ghost use Rattle.pgn_list.specs.PgnList.{list_size};
ghost use Rattle.pgn_list.specs.Steps.{Extending, Keeping};
ghost use Rattle.pgn_list.specs.Slots.{slots, slot_of, Indexed};

use crate::LIST_SIZE;
use entries::ENTRY_SIZE;

// How many slots there are.
const SLOTS: usize = 128;

// The slot of a number: by its two low bytes, since all PGNs with a destination have 0 for the last.
fn slot(x: u64) -> usize
    ensures { result ≡ slot_of x }
{
    ((x / 256 % 128 + x % 128) % 128) as usize
}

// The index of no list.
fn empty() -> [u8; SLOTS]
    ensures { result ≡ replicate slots 0 }
{
    [0; SLOTS]
}

// Notes that a number stands at a place. A place too high for a slot is noted as the highest one: it is a place to look at, no more.
fn note(index: &mut [u8; SLOTS], x: u64, place: usize)
    ensures { index.new ≡ set index.old (slot_of x) (min place 255) }
{
    index[slot(x)] = place.min(255) as u8;
}

// Notes a list.
fn note_list(index: &mut [u8; SLOTS], list: &[u64])
    requires { Indexed list.now 0 index.old }
    ensures { Indexed list.now (length list.now) index.new }
{
    for (i, x) in list.iter().enumerate() {
        note(index, *x, i + 1);
    }
}

// Notes entries.
fn note_entries(index: &mut [u8; SLOTS], entries: &[[u8; ENTRY_SIZE]])
    requires { Indexed (map packed entries.now) 0 index.old }
    ensures { Indexed (map packed entries.now) (length entries.now) index.new }
{
    for (i, entry) in entries.iter().enumerate() {
        note(index, entries::number(entry) as u64, i + 1);
    }
}

// Whether x is in a list, by its index.
fn is_listed(index: &[u8; SLOTS], list: &[u64], x: u64) -> bool
    requires { Indexed list.now (length list.now) index.now }
    ensures { result ≡ listed x list.now }
{
    let place = usize::from(index[slot(x)]);
    if place == 0 {
        return false;
    }
    if list[place - 1] == x {
        return true;
    }
    crate::is_listed(list, x)
}

// Whether entries name x, by their index.
fn names(index: &[u8; SLOTS], entries: &[[u8; ENTRY_SIZE]], x: u64) -> bool
    requires { Indexed (map packed entries.now) (length entries.now) index.now }
    ensures { result ≡ listed x (map packed entries.now) }
{
    let place = usize::from(index[slot(x)]);
    if place == 0 {
        return false;
    }
    if entries::number(&entries[place - 1]) as u64 == x {
        return true;
    }
    entries::has(entries, x)
}

// Adds the entries to the first n of a list, as `extend` of this crate does.
pub fn extend(list: &mut [u64], n: usize, entries: &[[u8; ENTRY_SIZE]]) -> Option<usize>
    requires { (length list.old ≡ list_size) × (n ≤ list_size) }
    ensures { Extending list.old list.new n (map packed entries.now) result }
{
    let mut index = empty();
    note_list(&mut index, &list[..n]);
    let mut held = n;
    for entry in entries {
        let x = entries::number(entry) as u64;
        if !is_listed(&index, &list[..held], x) {
            if held == LIST_SIZE {
                return None;
            }
            list[held] = x;
            held += 1;
            note(&mut index, x, held);
        }
    }
    Some(held)
}

// Whether each entry is in a list.
fn lists_noted(index: &[u8; SLOTS], list: &[u64], entries: &[[u8; ENTRY_SIZE]]) -> bool
    requires { Indexed list.now (length list.now) index.now }
    ensures { result ≡ list_all (λ entry. listed (packed entry) list.now) entries.now }
{
    entries.iter().all(|entry| is_listed(index, list, entries::number(entry) as u64))
}

// The same, with an index of the list.
pub fn lists_each(list: &[u64], entries: &[[u8; ENTRY_SIZE]]) -> bool
    ensures { result ≡ list_all (λ entry. listed (packed entry) list.now) entries.now }
{
    let mut index = empty();
    note_list(&mut index, list);
    lists_noted(&index, list, entries)
}

// Moves the PGNs that no entry names to the front, as `keep_others` of this crate does.
pub fn keep_others(list: &mut [u64], n: usize, entries: &[[u8; ENTRY_SIZE]]) -> usize
    requires { n ≤ length list.old }
    ensures { Keeping list.old list.new n (map packed entries.now) result }
{
    let mut index = empty();
    note_entries(&mut index, entries);
    let mut kept = 0;
    for i in 0..n {
        let x = list[i];
        if !names(&index, entries, x) {
            list[kept] = x;
            kept += 1;
        }
    }
    kept
}
