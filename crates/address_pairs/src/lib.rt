// The address pairs of the ports other than 1, in lent words: for each such port, from 2 on, a table of how many pairs
// there are, then an outer and an inner address for each.
#![tactic(auto)]

ghost use Rattle.std.specs.Prelude.{◌≡◌, ◌+◌, ◌-◌, ◌*◌, ◌/◌, ◌%◌, ◌≤◌, ◌<◌, map, min, length, get_or};
ghost use Rattle.checks.specs.Refusals.{number_in};
ghost use Rattle.address_pairs.specs.AddressPairs.{address_count, most_pairs, pairs_length, pairs_of, tables_of, table_of};
ghost use Rattle.address_pairs.specs.AddressPairs.{look_up, out_of, in_to, stands, any_outer, refusal_of};
ghost use Rattle.address_pairs.specs.Calls.{pair_in, Appending, Adding};

use checks::Refusal;

// The addresses that a NAME may hold: 0 to 253.
const ADDRESSES: u32 = 254;

// How many pairs a table holds at most.
const MOST: usize = 16;

// The words of a table: how many pairs there are, and two for each.
pub const TABLE_LENGTH: usize = 33;

// The words of a pair: the address on port 1's segment, and the one behind the table's own port.
const OUTER: usize = 0;

const INNER: usize = 1;

// The address that a word stands for. A remainder is taken only where there is need of one: it costs.
fn address_in(word: u64) -> u8
    ensures { result ≡ word % address_count }
{
    if word < 254 {
        word as u8
    } else {
        (word % 254) as u8
    }
}

// How many pairs a table holds.
fn count(table: &[u64]) -> usize
    requires { length table.now ≡ pairs_length }
    ensures { (result ≡ length (pairs_of table.now)) × (result ≡ min (get_or table.now 0 0) most_pairs) }
{
    table[0].min(MOST as u64) as usize
}

// The pairs of a table.
fn pairs(table: &[u64; TABLE_LENGTH]) -> &[[u64; 2]]
    ensures { map pair_in result.now ≡ pairs_of table.now }
{
    let (all, _) = table[1..].as_chunks();
    &all[..count(table)]
}

// The other side of the first of a table's pairs that has an address on one side.
fn look_up(table: &[u64; TABLE_LENGTH], from: usize, address: u32) -> Option<u8>
    requires { from < 2 }
    ensures { result ≡ look_up from (1 - from) (pairs_of table.now) address }
{
    let pair = pairs(table)
        .iter()
        .find(|pair| address_in(pair[from]) as u32 == address)?;
    Some(address_in(pair[1 - from]))
}

// Whether an address stands on a side of a table.
fn stands(table: &[u64; TABLE_LENGTH], side: usize, address: u32) -> bool
    requires { side < 2 }
    ensures { result ≡ stands side (pairs_of table.now) address }
{
    look_up(table, side, address).is_some()
}

// The tables, as many as there are whole ones.
fn whole(tables: &[u64]) -> &[[u64; TABLE_LENGTH]]
    ensures value { map pairs_of result.now ≡ tables_of tables.now }
    ensures many { length result.now ≡ length tables.now / pairs_length }
{
    let (whole, _) = tables.as_chunks();
    whole
}

// The table of a port.
fn table(tables: &[u64], port: usize) -> &[u64; TABLE_LENGTH]
    requires { (2 ≤ port) × (pairs_length * (port - 1) ≤ length tables.now) }
    ensures { pairs_of result.now ≡ table_of (tables_of tables.now) port }
{
    &whole(tables)[port - 2]
}

// The outer address that a port's table gives an inner one.
pub fn out_of(tables: &[u64], port: usize, address: u32) -> Option<u8>
    requires { (2 ≤ port) × (pairs_length * (port - 1) ≤ length tables.now) }
    ensures { result ≡ out_of (table_of (tables_of tables.now) port) address }
{
    look_up(table(tables, port), INNER, address)
}

// The inner address that a port's table gives an outer one.
pub fn in_to(tables: &[u64], port: usize, address: u32) -> Option<u8>
    requires { (2 ≤ port) × (pairs_length * (port - 1) ≤ length tables.now) }
    ensures { result ≡ in_to (table_of (tables_of tables.now) port) address }
{
    look_up(table(tables, port), OUTER, address)
}

// Whether an outer address stands in one of the tables.
fn any_outer(tables: &[u64], address: u32) -> bool
    ensures { result ≡ any_outer (tables_of tables.now) address }
{
    whole(tables)
        .iter()
        .any(|table| stands(table, OUTER, address))
}

// Whether an entry may go into the table of a port.
fn check(tables: &[u64], port: usize, outer: u32, inner: u32) -> Result<(), Refusal>
    requires { (2 ≤ port) × (pairs_length * (port - 1) ≤ length tables.now) }
    ensures { number_in result ≡ refusal_of (tables_of tables.now) port outer inner }
{
    let greater = outer.max(inner);
    if ADDRESSES <= greater {
        return Err(Refusal::WrongAddress);
    }
    let own = table(tables, port);
    if stands(own, INNER, inner) || any_outer(tables, outer) {
        return Err(Refusal::TwicePaired);
    }
    if MOST <= count(own) {
        return Err(Refusal::FullTable);
    }
    Ok(())
}

// Puts a pair behind the others of a table.
fn append(table: &mut [u64], outer: u32, inner: u32)
    requires long { length table.old ≡ pairs_length }
    requires room { length (pairs_of table.old) < most_pairs }
    requires addresses { (outer < address_count) × (inner < address_count) }
    ensures { Appending table.old table.new outer inner }
{
    let n = count(table);
    let at = 1 + 2 * n;
    table[at] = outer as u64;
    table[at + 1] = inner as u64;
    table[0] = n as u64 + 1;
}

// Adds an entry to the table of a port, if it is not refused.
pub fn add(tables: &mut [u64], port: usize, outer: u32, inner: u32) -> Result<(), Refusal>
    requires { (2 ≤ port) × (pairs_length * (port - 1) ≤ length tables.old) }
    ensures { Adding tables.old tables.new port outer inner result }
{
    check(tables, port, outer, inner)?;
    let start = TABLE_LENGTH * (port - 2);
    append(&mut tables[start..start + TABLE_LENGTH], outer, inner);
    Ok(())
}
