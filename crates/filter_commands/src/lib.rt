// The commands on one pair's filter: Add, Delete, Create, Clear and Add by NAME, and the questions that refuse them with 14 to 17.
#![tactic(auto)]

pub mod pairs;

ghost use Rattle.std.specs.Prelude.{◌≡◌, true, false, [], ◌∷◌, ◌≤◌, ◌<◌, length, get_or, take, drop};
ghost use Rattle.entries.specs.Entries.{entries_of};
ghost use Rattle.pgn_list.specs.PgnList.{list_size, delete_all};
ghost use Rattle.sorted_list.specs.SortedList.{put_all, fitted};
ghost use Rattle.filter.specs.Filter.{mode_place, list_of, sorted_in, block_size, filter_of, is_cleared, Counting};
ghost use Rattle.filter_commands.specs.Changes.{would_pass, lacks, passes_names, Adding, Deleting, Creating, Naming, Clearing};
ghost use Rattle.filter_commands.specs.Steps.{Resorted, Growing};

use filter::{BLOCK, BLOCK_NAMED, BLOCK_SIZE, CLEARED, COUNT, LIST, LIST_END, MODE, PASS, SORTED};
use pgn_list::LIST_SIZE;

// Whether an entry is absent from the list: refusal 17.
pub fn lacks(block: &[u64], bytes: &[u8]) -> bool
    requires { length block.now ≡ block_size }
    ensures { result ≡ lacks (filter_of block.now) (entries_of bytes.now) }
{
    let n = filter::count(block);
    !pgn_list::lists_all(&block[LIST..LIST + n], bytes)
}

// The block's PGNs, its free part too.
fn copied(block: &[u64]) -> [u64; LIST_SIZE]
    requires { length block.now ≡ block_size }
    ensures { result ≡ list_of block.now }
{
    let mut list = [0u64; LIST_SIZE];
    list.copy_from_slice(&block[LIST..LIST_END]);
    list
}

// Whether list and entries together are more different PGNs than a list holds: refusal 16. Few entries can't be; others are tried on a copy.
pub fn would_pass(block: &[u64], bytes: &[u8]) -> bool
    requires { length block.now ≡ block_size }
    ensures { result ≡ would_pass (filter_of block.now) (entries_of bytes.now) }
{
    let n = filter::count(block);
    if entries::count(bytes) <= LIST_SIZE - n {
        return false;
    }
    let mut list = copied(block);
    pgn_list::extend(&mut list, n, bytes).is_none()
}

// Puts the PGNs of a block's list from index n up to `held` in among those that are searched, of which there are n.
fn sort_in(block: &mut [u64], n: usize, held: usize)
    requires { (length block.old ≡ block_size) × (n ≤ held) × (held ≤ list_size) }
    ensures { Resorted block.old block.new (put_all (take n (sorted_in block.old)) (drop n (take held (list_of block.old)))) held }
{
    for i in n..held {
        let x = block[LIST + i];
        sorted_list::insert(&mut block[SORTED..BLOCK_SIZE], i, x);
    }
}

// Adds the entries to the first n of a block's list, in place where they are few, else by a copy. Tells whether it was done: not where they
// would pass LIST_SIZE.
fn grow(block: &mut [u64], n: usize, bytes: &[u8]) -> bool
    requires { (length block.old ≡ block_size) × (n ≤ list_size) }
    ensures { Growing block.old block.new n (entries_of bytes.now) result }
{
    if entries::count(bytes) <= LIST_SIZE - n {
        let held = pgn_list::extend(&mut block[LIST..LIST_END], n, bytes).unwrap();
        block[COUNT] = held as u64;
        sort_in(block, n, held);
        return true;
    }
    let mut list = copied(block);
    let Some(held) = pgn_list::extend(&mut list, n, bytes) else {
        return false;
    };
    block[LIST..LIST_END].copy_from_slice(&list);
    block[COUNT] = held as u64;
    sort_in(block, n, held);
    true
}

// `grow` with a single entry, which is handed over as a number: the way to a call with a slice takes longer than this.
fn grow_by_one(block: &mut [u64], n: usize, x: u64) -> bool
    requires { (length block.old ≡ block_size) × (n ≤ list_size) }
    ensures { Growing block.old block.new n (x ∷ []) result }
{
    let Some(held) = pgn_list::extend_by_one(&mut block[LIST..LIST_END], n, x) else {
        return false;
    };
    block[COUNT] = held as u64;
    sort_in(block, n, held);
    true
}

// Add: the entries join the list's end, a listed one stays where it is. Tells whether it was done.
pub fn add(block: &mut [u64], bytes: &[u8]) -> bool
    requires { length block.old ≡ block_size }
    ensures { Adding block.old block.new (entries_of bytes.now) result }
{
    if filter::is_cleared(block) {
        return false;
    }
    let n = filter::count(block);
    if entries::count(bytes) == 1 {
        return grow_by_one(block, n, entries::entry_at(bytes, 0));
    }
    grow(block, n, bytes)
}

// Takes one PGN out of those that are searched, of which there are n. They become `held`, as many as the list holds.
fn sort_out_one(block: &mut [u64], n: usize, held: usize, x: u64)
    requires { (length block.old ≡ block_size) × (n ≤ list_size) × (held ≤ list_size) }
    ensures { Resorted block.old block.new (fitted held (delete_all (take n (sorted_in block.old)) (x ∷ []))) held }
{
    let kept = pgn_list::remove(&mut block[SORTED..BLOCK_SIZE], n, x);
    sorted_list::fit(&mut block[SORTED..BLOCK_SIZE], kept, held);
}

// The same with the entries of a command.
fn sort_out(block: &mut [u64], n: usize, held: usize, bytes: &[u8])
    requires { (length block.old ≡ block_size) × (n ≤ list_size) × (held ≤ list_size) }
    ensures { Resorted block.old block.new (fitted held (delete_all (take n (sorted_in block.old)) (entries_of bytes.now))) held }
{
    let kept = pgn_list::keep_others(&mut block[SORTED..BLOCK_SIZE], n, bytes);
    sorted_list::fit(&mut block[SORTED..BLOCK_SIZE], kept, held);
}

// Deletes one PGN from the first n of a block's list. Tells whether it was done: not where it is absent.
fn delete_one(block: &mut [u64], n: usize, x: u64) -> bool
    requires { (length block.old ≡ block_size) × Counting block.old n × (is_cleared (filter_of block.old).mode ≡ false) }
    ensures { Deleting block.old block.new (x ∷ []) result }
{
    let Some(i) = pgn_list::find(&block[LIST..LIST + n], x) else {
        return false;
    };
    let kept = pgn_list::close_up(&mut block[LIST..LIST_END], i, n, x);
    block[COUNT] = kept as u64;
    sort_out_one(block, n, kept, x);
    true
}

// Delete: the entries leave the list, the others keep their order. Tells whether it was done.
pub fn delete(block: &mut [u64], bytes: &[u8]) -> bool
    requires { length block.old ≡ block_size }
    ensures { Deleting block.old block.new (entries_of bytes.now) result }
{
    if filter::is_cleared(block) {
        return false;
    }
    let n = filter::count(block);
    if entries::count(bytes) == 1 {
        return delete_one(block, n, entries::entry_at(bytes, 0));
    }
    if lacks(block, bytes) {
        return false;
    }
    let kept = pgn_list::keep_others(&mut block[LIST..LIST_END], n, bytes);
    block[COUNT] = kept as u64;
    sort_out(block, n, kept, bytes);
    true
}

// The entries become a block's list. Tells whether it was done: not where they are more than LIST_SIZE.
fn begin(block: &mut [u64], bytes: &[u8]) -> bool
    requires { length block.old ≡ block_size }
    ensures { Growing block.old block.new 0 (entries_of bytes.now) result }
{
    if entries::count(bytes) == 1 {
        return grow_by_one(block, 0, entries::entry_at(bytes, 0));
    }
    grow(block, 0, bytes)
}

// Create: a cleared pair gets a mode and a list. Tells whether it was done.
pub fn create(block: &mut [u64], pass: bool, bytes: &[u8]) -> bool
    requires { length block.old ≡ block_size }
    ensures { Creating pass block.old block.new (entries_of bytes.now) result }
{
    if !filter::is_cleared(block) {
        return false;
    }
    if !begin(block, bytes) {
        return false;
    }
    if pass {
        block[MODE] = PASS;
    } else {
        block[MODE] = BLOCK;
    }
    true
}

// Clear: the pair is cleared.
pub fn clear(block: &mut [u64])
    requires { length block.old ≡ block_size }
    ensures { Clearing block.old block.new }
{
    block[MODE] = CLEARED;
}

// The first entry, or 0 where there is none.
fn first_entry(bytes: &[u8]) -> u64
    ensures { result ≡ get_or (entries_of bytes.now) 0 0 }
{
    match entries::all(bytes) {
        [] => 0,
        [first, ..] => entries::number(first) as u64,
    }
}

// Whether a NAME entry would be the ninth: refusal 16. One already there is none.
pub fn names_full(block: &[u64], pgn: u64, name: u64, mask: u64) -> bool
    requires { length block.now ≡ block_size }
    ensures { result ≡ passes_names (filter_of block.now) (record { pgn = pgn; name = name; mask = mask }) }
{
    if block[MODE] < BLOCK_NAMED {
        return false;
    }
    let n = name_entries::count(&block[LIST_END..SORTED]);
    if n < name_entries::MOST {
        return false;
    }
    !name_entries::holds(&block[LIST_END..SORTED], n, pgn, name, mask)
}

// The first NAME entry of a pair, whose mode word from then on says that there are some.
fn begin_names(block: &mut [u64], mode: u64, pgn: u64, name: u64, mask: u64)
    requires { (length block.old ≡ block_size) × (mode ≡ get_or block.old mode_place 0) × (1 ≤ mode) × (mode < 3) }
    ensures { Naming block.old block.new (record { pgn = pgn; name = name; mask = mask }) true }
{
    name_entries::append(&mut block[LIST_END..SORTED], 0, pgn, name, mask);
    block[MODE] = mode + 2;
}

// A further NAME entry, behind the others. Tells whether it was done: not where it would be the ninth.
fn grow_names(block: &mut [u64], pgn: u64, name: u64, mask: u64) -> bool
    requires { (length block.old ≡ block_size) × (3 ≤ get_or block.old mode_place 0) }
    ensures { Naming block.old block.new (record { pgn = pgn; name = name; mask = mask }) result }
{
    let n = name_entries::count(&block[LIST_END..SORTED]);
    if name_entries::holds(&block[LIST_END..SORTED], n, pgn, name, mask) {
        return true;
    }
    if n == name_entries::MOST {
        return false;
    }
    name_entries::append(&mut block[LIST_END..SORTED], n, pgn, name, mask);
    true
}

// Add by NAME: the NAME entry joins those of the pair, one already there stays where it is. Tells whether it was done.
pub fn add_name(block: &mut [u64], pgn: u64, name: u64, mask: u64) -> bool
    requires { length block.old ≡ block_size }
    ensures { Naming block.old block.new (record { pgn = pgn; name = name; mask = mask }) result }
{
    let mode = block[MODE];
    if mode == CLEARED {
        return false;
    }
    if mode < BLOCK_NAMED {
        begin_names(block, mode, pgn, name, mask);
        return true;
    }
    grow_names(block, pgn, name, mask)
}
