// Replies and acknowledgments, written at the start of a buffer. Every byte past them is left as it was.
#![tactic(auto)]

ghost use Rattle.std.specs.Prelude.{◌≡◌, ◌∷◌, ◌++◌, ◌+◌, ◌≤◌, ◌<◌, length, take, drop};
ghost use Rattle.std.proofs.lemmas.List.Edits.{sets};
ghost use Rattle.storage.specs.Bytes.{bytes_of};
ghost use Rattle.filter.specs.Filter.{block_size, filter_of};
ghost use Rattle.addresses.specs.Table.{table_length, table_of};
ghost use Rattle.network_message.specs.Decoding.{longest};
ghost use Rattle.replies.specs.Replies.{control_of, acknowledgment, filled, list_body, list_reply, address_reply, parameter_reply, Writing};

// An acknowledgment's first byte, by the number that refuses the command, or 0.
pub fn control(number: u32) -> u8
    ensures { result ≡ control_of number }
{
    match number {
        0 => 0,
        11 => 2,
        _ => 1,
    }
}

// Writes an acknowledgment, in place: a copy of an array is written byte by byte and read as one word, for which the processor waits 4 ns.
#[tactic(auto, unfolding(crate::specs::Replies::acknowledgment))]
pub fn acknowledge(reply: &mut [u8], control: u8, function: u8, requester: u8)
    requires { 8 ≤ length reply.old }
    ensures { reply.new ≡ acknowledgment control function requester ++ drop 8 reply.old }
{
    if let Some(first) = reply.first_chunk_mut::<8>() {
        *first = [control, function, 0xFF, 0xFF, requester, 0x00, 0xED, 0x00];
    }
}

// Writes an entry's three bytes, least significant first.
fn put_entry(out: &mut [u8], at: usize, pgn: u64)
    requires { at + 3 ≤ length out.old }
    ensures { out.new ≡ sets out.old at (bytes_of 3 pgn) }
{
    out[at] = storage::byte_at(pgn, 0);
    out[at + 1] = storage::byte_at(pgn, 1);
    out[at + 2] = storage::byte_at(pgn, 2);
}

// Writes a pair's mode and its list, and tells how many bytes they are.
fn put_list(block: &[u64], out: &mut [u8]) -> usize
    requires { (length block.now ≡ block_size) × (97 ≤ length out.old) }
    ensures { Writing (list_body (filter_of block.now)) out.old out.new 97 result }
{
    out[0] = filter::reported_mode(block);
    let n = filter::count(block);
    for i in 0..n {
        put_entry(out, 1 + 3 * i, filter::pgn_at(block, i));
    }
    1 + 3 * n
}

// Fills a reply of n bytes to 8, and tells how many it then has.
fn fill(reply: &mut [u8], n: usize) -> usize
    requires { (8 ≤ length reply.old) × (n ≤ length reply.old) }
    ensures { Writing (filled (take n reply.old)) reply.old reply.new (n + 8) result }
{
    if 8 <= n {
        return n;
    }
    reply[n..8].fill(0xFF);
    8
}

// Makes a reply of two first bytes and n that stand after them, and tells how many it then has.
fn finish(reply: &mut [u8], function: u8, named: u8, n: usize) -> usize
    requires { (longest ≤ length reply.old) × (n ≤ 254) }
    ensures { Writing (filled (function ∷ named ∷ take n (drop 2 reply.old))) reply.old reply.new longest result }
{
    reply[0] = function;
    reply[1] = named;
    fill(reply, 2 + n)
}

// Writes the reply to a Request: the pair's mode and list. Tells its length.
pub fn reply_list(block: &[u64], pair: u8, reply: &mut [u8]) -> usize
    requires { (length block.now ≡ block_size) × (longest ≤ length reply.old) }
    ensures { Writing (list_reply pair (filter_of block.now)) reply.old reply.new longest result }
{
    let n = put_list(block, &mut reply[2..]);
    finish(reply, 1, pair, n)
}

// Writes the reply to function 64: the addresses recorded on a port, without the address `except`. Tells its length.
pub fn reply_addresses(table: &[u64], port: u32, except: usize, reply: &mut [u8]) -> usize
    requires { (length table.now ≡ table_length) × (port < 256) × (longest ≤ length reply.old) }
    ensures { Writing (address_reply port except (table_of table.now)) reply.old reply.new longest result }
{
    let n = addresses::list_on(table, port as u64, except, &mut reply[2..]);
    finish(reply, 65, port as u8, n)
}

// Writes the reply to a request for a parameter: its value in two bytes. Tells its length.
pub fn reply_parameter(
    reply: &mut [u8],
    function: u8,
    named: u8,
    parameter: u8,
    value: u32,
) -> usize
    requires { longest ≤ length reply.old }
    ensures { Writing (parameter_reply function named parameter value) reply.old reply.new longest result }
{
    reply[2] = parameter;
    reply[3] = storage::byte_at(value as u64, 0);
    reply[4] = storage::byte_at(value as u64, 1);
    finish(reply, function, named, 3)
}
