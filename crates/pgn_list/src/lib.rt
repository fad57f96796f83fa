// A list of PGNs in lent words, its first n in use: a search in it, and what Add and Delete do to it, in place.
#![tactic(auto)]

mod index;

ghost use Rattle.std.specs.Prelude.{◌≡◌, ◌==◌, ◌*◌, ◌/◌, [], ◌∷◌, ◌≤◌, ◌<◌, length, take, map, position, is_some, IfNone};
ghost use Rattle.std.specs.List.{list_any, list_all};
ghost use Rattle.std.specs.Simd.{first_chunks};
ghost use Rattle.storage.specs.Bytes.{packed};
ghost use Rattle.entries.specs.Entries.{listed, every, entries_of};
ghost use Rattle.pgn_list.specs.PgnList.{list_size};
ghost use Rattle.pgn_list.specs.Steps.{Finding, Extending, Keeping};

use entries::ENTRY_SIZE;

// The most PGNs that a list holds.
pub const LIST_SIZE: usize = 32;

// The place at which x first stands, by looking at one after the other.
fn first(list: &[u64], x: u64) -> Option<usize>
    ensures { result ≡ position (λ y. y == x) list.now }
{
    list.iter().position(|y| *y == x)
}

// The place of the first four that have x.
fn first_four(fours: &[[u64; 4]], x: u64) -> Option<usize>
    ensures { result ≡ position (λ four. list_any (λ y. y == x) four) fours.now }
{
    fours.iter().position(|four| four.contains(&x))
}

// `find`, fours that do not have x passed over: one of 32 PGNs is found in 12 ns, where `first` alone takes 22. Not inlined, else the library is 3.5 KB larger.
#[inline(never)]
fn first_by_fours(list: &[u64], x: u64) -> Option<usize>
    ensures { result ≡ position (λ y. y == x) list.now }
{
    let fours = list.as_chunks().0;
    let passed = 4 * first_four(fours, x).unwrap_or(fours.len());
    let place = first(&list[passed..], x)?;
    Some(passed + place)
}

// The place at which x first stands. A list shorter than four takes no call.
pub fn find(list: &[u64], x: u64) -> Option<usize>
    ensures { result ≡ position (λ y. y == x) list.now }
{
    if list.len() < 4 {
        return first(list, x);
    }
    first_by_fours(list, x)
}

// Whether x is in a list.
pub fn is_listed(list: &[u64], x: u64) -> bool
    ensures { result ≡ listed x list.now }
{
    find(list, x).is_some()
}

// From how many entries on an index pays.
const MANY: usize = 4;

// `extend`, with a search for each entry.
fn extend_by_search(list: &mut [u64], n: usize, entries: &[[u8; ENTRY_SIZE]]) -> Option<usize>
    requires { (length list.old ≡ list_size) × (n ≤ list_size) }
    ensures { Extending list.old list.new n (map packed entries.now) result }
{
    let mut held = n;
    for entry in entries {
        let x = entries::number(entry) as u64;
        if !is_listed(&list[..held], x) {
            if held == LIST_SIZE {
                return None;
            }
            list[held] = x;
            held += 1;
        }
    }
    Some(held)
}

// `extend` with a single entry. A list that does not hold it stays as it is.
pub fn extend_by_one(list: &mut [u64], n: usize, x: u64) -> Option<usize>
    requires { (length list.old ≡ list_size) × (n ≤ list_size) }
    ensures { Extending list.old list.new n (x ∷ []) result × IfNone result (list.new ≡ list.old) }
{
    if is_listed(&list[..n], x) {
        return Some(n);
    }
    if n == LIST_SIZE {
        return None;
    }
    list[n] = x;
    Some(n + 1)
}

// Adds the entries to the first n of a list: one that is not listed goes to the end. Tells how many they are then, if the list holds them.
pub fn extend(list: &mut [u64], n: usize, bytes: &[u8]) -> Option<usize>
    requires { (length list.old ≡ list_size) × (n ≤ list_size) }
    ensures { Extending list.old list.new n (entries_of bytes.now) result }
{
    let entries = entries::all(bytes);
    if entries.len() < MANY {
        return extend_by_search(list, n, entries);
    }
    index::extend(list, n, entries)
}

// Whether each entry is in a list, by a search for each.
fn lists_each(list: &[u64], entries: &[[u8; ENTRY_SIZE]]) -> bool
    ensures { result ≡ list_all (λ entry. listed (packed entry) list.now) entries.now }
{
    entries
        .iter()
        .all(|entry| is_listed(list, entries::number(entry) as u64))
}

// Whether every entry is in a list.
pub fn lists_all(list: &[u64], bytes: &[u8]) -> bool
    ensures { result ≡ every (λ x. listed x list.now) (entries_of bytes.now) }
{
    let entries = entries::all(bytes);
    if entries.len() < MANY {
        return lists_each(list, entries);
    }
    index::lists_each(list, entries)
}

// Takes x, which first stands at `start` or nowhere, out of the first n of a list, the others closing up. Tells how many they are then.
pub fn close_up(list: &mut [u64], start: usize, n: usize, x: u64) -> usize
    requires { (n ≤ length list.old) × Finding list.old n x start }
    ensures { Keeping list.old list.new n (x ∷ []) result }
{
    let mut kept = start;
    for i in start..n {
        let y = list[i];
        if y != x {
            list[kept] = y;
            kept += 1;
        }
    }
    kept
}

// Takes x out of the first n of a list. Tells how many they are then.
pub fn remove(list: &mut [u64], n: usize, x: u64) -> usize
    requires { n ≤ length list.old }
    ensures { Keeping list.old list.new n (x ∷ []) result }
{
    let start = find(&list[..n], x).unwrap_or(n);
    close_up(list, start, n, x)
}

// `keep_others`, one entry after the other.
fn keep_others_by_search(list: &mut [u64], n: usize, entries: &[[u8; ENTRY_SIZE]]) -> usize
    requires { n ≤ length list.old }
    ensures { Keeping list.old list.new n (map packed entries.now) result }
{
    let mut kept = n;
    for entry in entries {
        kept = remove(list, kept, entries::number(entry) as u64);
    }
    kept
}

// Moves the PGNs that no entry names to the front, in their order, and tells how many they are.
pub fn keep_others(list: &mut [u64], n: usize, bytes: &[u8]) -> usize
    requires { n ≤ length list.old }
    ensures { Keeping list.old list.new n (entries_of bytes.now) result }
{
    let entries = entries::all(bytes);
    if entries.len() < MANY {
        return keep_others_by_search(list, n, entries);
    }
    index::keep_others(list, n, entries)
}
