// The entries of a command, three bytes to a PGN, least significant first.
#![tactic(auto)]

ghost use Rattle.std.specs.Prelude.{◌≡◌, ◌^◌, ◌<◌, ◌==◌, length, get_or, map};
ghost use Rattle.std.specs.List.{list_any};
ghost use Rattle.storage.specs.Bytes.{packed};
ghost use Rattle.entries.specs.Entries.{listed, entries_of, entry_at, whole, first_wrong};

// The bytes of an entry.
pub const ENTRY_SIZE: usize = 3;

// The entries, as far as there are three bytes for one.
pub fn all(bytes: &[u8]) -> &[[u8; ENTRY_SIZE]]
    ensures { map packed result.now ≡ entries_of bytes.now }
{
    bytes.as_chunks().0
}

// The number that an entry's bytes make.
pub fn number(entry: &[u8; ENTRY_SIZE]) -> u32
    ensures { result ≡ packed entry.now }
{
    let [low, middle, high] = *entry;
    u32::from_le_bytes([low, middle, high, 0])
}

// How many entries there are.
pub fn count(bytes: &[u8]) -> usize
    ensures { result ≡ length (entries_of bytes.now) }
{
    bytes.len() / ENTRY_SIZE
}

// Entry i, whether it is a PGN or not.
pub fn entry_at(bytes: &[u8], i: usize) -> u64
    requires { i < length (entries_of bytes.now) }
    ensures { result ≡ get_or (entries_of bytes.now) i 0 }
{
    number(&all(bytes)[i]) as u64
}

// The PGN at a byte, if three bytes are there and make one.
pub fn read_entry(bytes: &[u8], at: usize) -> Option<u32>
    ensures { result ≡ entry_at bytes.now at }
{
    let pgn = number(bytes.get(at..)?.first_chunk()?);
    if identifier::is_pgn(pgn) {
        Some(pgn)
    } else {
        None
    }
}

// Whether bytes are entries to the last one.
pub fn is_whole(bytes: &[u8]) -> bool
    ensures { result ≡ whole bytes.now }
{
    bytes.len() % ENTRY_SIZE == 0
}

// The number from 1 of the first entry that is no PGN, or 0, as 22's answer tells it: `first_wrong` of the specs.
pub fn first_wrong(bytes: &[u8]) -> usize
    ensures { result ≡ first_wrong (entries_of bytes.now) }
{
    for place in 0..count(bytes) {
        let Some(_) = read_entry(bytes, ENTRY_SIZE * place) else {
            return place + 1;
        };
    }
    0
}

// Whether one of the entries is x.
pub fn has(entries: &[[u8; ENTRY_SIZE]], x: u64) -> bool
    ensures { result ≡ list_any (λ entry. packed entry == x) entries.now }
{
    entries.iter().any(|entry| number(entry) as u64 == x)
}

// Whether the entries name x.
pub fn names(bytes: &[u8], x: u64) -> bool
    ensures { result ≡ listed x (entries_of bytes.now) }
{
    has(all(bytes), x)
}
