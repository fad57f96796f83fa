// The NAME entries of a pair, in a lent block of words: how many there are, then a PGN, a NAME and a mask for each.
#![tactic(auto)]

ghost use Rattle.std.specs.Prelude.{◌≡◌, ◌≤◌, ◌<◌, min, length, drop, get_or, map, position};
ghost use Rattle.std.specs.List.{list_any};
ghost use Rattle.name_entries.specs.NameEntries.{agrees, matches, is_same, is_there, most_names, names_length, entry_at, entries_in, Searching, Appending};

// How many entries a block holds at most.
pub const MOST: usize = 8;

// The words of an entry.
const ENTRY_LENGTH: usize = 3;

// Where a block has its first entry: behind the word that says how many there are.
const FIRST: usize = 1;

// Whether two NAMEs agree in every bit that is set in a mask.
fn agree(mask: u64, a: u64, b: u64) -> bool
    ensures { result ≡ agrees mask a b }
{
    (a ^ b) & mask == 0
}

// Whether an entry matches.
#[tactic(auto, unfolding(crate::specs::NameEntries::matches))]
fn is_match(entry: &[u64; ENTRY_LENGTH], pgn: u64, name: u64) -> bool
    ensures { result ≡ matches pgn name (entry_at entry.now 0) }
{
    let [of, sender, mask] = *entry;
    of == pgn && agree(mask, sender, name)
}

// The place of the first entry that a PGN and a sender's NAME match.
fn first_match(entries: &[[u64; ENTRY_LENGTH]], pgn: u64, name: u64) -> Option<usize>
    ensures { result ≡ position (λ entry. matches pgn name (entry_at entry 0)) entries.now }
{
    entries.iter().position(|entry| is_match(entry, pgn, name))
}

// How many entries a block holds.
pub fn count(block: &[u64]) -> usize
    requires { length block.now ≡ names_length }
    ensures { (result ≡ min (get_or block.now 0 0) most_names) × (result ≤ most_names) }
{
    block[0].min(MOST as u64) as usize
}

// The first n entries of a block.
fn first_entries(block: &[u64], n: usize) -> &[[u64; ENTRY_LENGTH]]
    requires { (n ≤ most_names) × (length block.now ≡ names_length) }
    ensures { (map (λ entry. entry_at entry 0) result.now ≡ entries_in n (drop 1 block.now)) × (length result.now ≡ n) }
{
    &block[FIRST..].as_chunks().0[..n]
}

// Whether an entry matches, and how many were compared.
#[derive(Clone, Copy, Debug, PartialEq, Eq)]
pub struct Searched {
    pub found: bool,
    pub compared: u32,
}

// Whether a PGN from a sender, if the address table gives it a NAME, matches an entry, and how many were compared: up to the first match.
pub fn search(block: &[u64], pgn: u64, sender: Option<u64>) -> Searched
    requires { length block.now ≡ names_length }
    ensures { Searching block.now pgn sender result.found result.compared }
{
    let n = count(block);
    let nothing = Searched {
        found: false,
        compared: n as u32,
    };
    let Some(name) = sender else {
        return nothing;
    };
    let Some(i) = first_match(first_entries(block, n), pgn, name) else {
        return nothing;
    };
    Searched {
        found: true,
        compared: i as u32 + 1,
    }
}

// Whether an entry is that of a PGN, a NAME and a mask.
#[tactic(auto, unfolding(crate::specs::NameEntries::is_same))]
fn is_entry(entry: &[u64; ENTRY_LENGTH], pgn: u64, name: u64, mask: u64) -> bool
    ensures { result ≡ is_same (record { pgn = pgn; name = name; mask = mask }) (entry_at entry.now 0) }
{
    *entry == [pgn, name, mask]
}

// Whether one of the entries is that of a PGN, a NAME and a mask.
fn has(entries: &[[u64; ENTRY_LENGTH]], pgn: u64, name: u64, mask: u64) -> bool
    ensures { result ≡ list_any (λ entry. is_same (record { pgn = pgn; name = name; mask = mask }) (entry_at entry 0)) entries.now }
{
    entries.iter().any(|entry| is_entry(entry, pgn, name, mask))
}

// Whether the entry of a PGN, a NAME and a mask is among the first n.
pub fn holds(block: &[u64], n: usize, pgn: u64, name: u64, mask: u64) -> bool
    requires { (n ≤ most_names) × (length block.now ≡ names_length) }
    ensures { result ≡ is_there (record { pgn = pgn; name = name; mask = mask }) (entries_in n (drop 1 block.now)) }
{
    has(first_entries(block, n), pgn, name, mask)
}

// Puts the entry of a PGN, a NAME and a mask behind the first n.
pub fn append(block: &mut [u64], n: usize, pgn: u64, name: u64, mask: u64)
    requires { (n < most_names) × (length block.old ≡ names_length) }
    ensures { Appending block.old block.new n (record { pgn = pgn; name = name; mask = mask }) }
{
    let at = FIRST + ENTRY_LENGTH * n;
    block[at] = pgn;
    block[at + 1] = name;
    block[at + 2] = mask;
    block[0] = n as u64 + 1;
}
