// One session of the transport protocol, in a lent block of words: eight words of its own, and a word for each packet, as
// the packet's frame holds it.
#![tactic(auto)]

mod opening;

ghost use Rattle.std.specs.Prelude.{◌≡◌, ◌-◌, ◌≤◌, min, length, get_or};
ghost use Rattle.packets.specs.Words.{cut_words};
ghost use Rattle.session.specs.Session.{most_bytes, packet_words, session_of, with_packet, with_packets, timed, asking, is_last, is_asked, is_due};
ghost use Rattle.session.specs.Way.{word_in};
ghost use Rattle.session.specs.Opening.{opened_by};
ghost use Rattle.session.specs.Calls.{Writing};

pub use opening::{Opening, Way};

// Where a block has whether the session receives or sends.
const WAY: usize = 0;

// The peer's address.
const PEER: usize = 1;

// How many bytes the message has.
const LENGTH: usize = 2;

// How many packets are there.
const STORED: usize = 3;

// The number of the last packet that was asked for.
const THROUGH: usize = 4;

// How many packets may be asked for at a time.
const LIMIT: usize = 5;

// How many milliseconds without an answer end the session.
const TIMER: usize = 6;

// Since when they are counted.
const SINCE: usize = 7;

// The first packet.
const PACKETS: usize = 8;

// How many packets a message has at most.
const MOST: usize = 255;

// How many words a block has.
pub const BLOCK_LENGTH: usize = 263;

pub type Block = [u64; BLOCK_LENGTH];

// Which way a session goes, if it goes one.
#[tactic(auto, unfolding(crate::specs::Session::session_of))]
pub fn way(block: &Block) -> Option<Way>
    ensures { word_in result ≡ (session_of block.now).way }
{
    match block[WAY] {
        0 => None,
        1 => Some(Way::Receiving),
        _ => Some(Way::Sending),
    }
}

// The address of the peer.
#[tactic(auto, unfolding(crate::specs::Session::session_of))]
pub fn peer(block: &Block) -> u8
    ensures { result ≡ (session_of block.now).peer }
{
    (block[PEER] % 256) as u8
}

// How many bytes the message has.
#[tactic(auto, unfolding(crate::specs::Session::session_of))]
pub fn size(block: &Block) -> u64
    ensures { (result ≡ (session_of block.now).size) × (result ≤ most_bytes) }
{
    block[LENGTH].min(1785)
}

// How many packets may be asked for at a time.
#[tactic(auto, unfolding(crate::specs::Session::session_of))]
pub fn limit(block: &Block) -> u64
    ensures { (result ≡ (session_of block.now).limit) × (result ≤ 16) }
{
    block[LIMIT].min(16)
}

// How many packets are there.
pub fn stored(block: &Block) -> u64
    ensures { (result ≡ length (session_of block.now).packets) × (result ≡ min (get_or block.now 3 0) packet_words) × (result ≤ 255) }
{
    block[STORED].min(255)
}

// Whether the packet that is to come next is the last of the message.
#[tactic(auto, unfolding(crate::specs::Session::session_of))]
pub fn is_last(block: &Block) -> bool
    ensures { result ≡ is_last (session_of block.now) }
{
    stored(block) + 1 == (size(block) + 6) / 7
}

// Whether the packet that is to come next is the last that was asked for, or past it.
#[tactic(auto, unfolding(crate::specs::Session::session_of))]
pub fn is_asked(block: &Block) -> bool
    ensures { result ≡ is_asked (session_of block.now) }
{
    block[THROUGH] <= stored(block) + 1
}

// Whether the session is at its limit: "elapsed" counts from the start of its timer.
#[tactic(auto, unfolding(crate::specs::Session::session_of))]
pub fn is_due(block: &Block, time: u64) -> bool
    ensures { result ≡ is_due time (session_of block.now) }
{
    let since = block[SINCE];
    since <= time && block[TIMER] <= time - since
}

// Opens a session without packets.
pub fn open(block: &mut Block, opening: Opening)
    ensures { session_of block.new ≡ opened_by opening }
{
    block[WAY] = opening.way.map_or(0, Way::word);
    block[PEER] = opening.peer as u64;
    block[LENGTH] = opening.size;
    block[STORED] = 0;
    block[THROUGH] = opening.through;
    block[LIMIT] = opening.limit;
    block[TIMER] = opening.timer;
    block[SINCE] = opening.since;
}

// Puts a packet behind those that are there; a 256th is none.
pub fn store(block: &mut Block, word: u64)
    ensures { session_of block.new ≡ with_packet word (session_of block.old) }
{
    let k = stored(block) as usize;
    if k < MOST {
        block[PACKETS + k] = word;
        block[STORED] = (k + 1) as u64;
    }
}

// Starts a timer.
pub fn set_timer(block: &mut Block, timer: u64, since: u64)
    ensures { session_of block.new ≡ timed timer since (session_of block.old) }
{
    block[TIMER] = timer;
    block[SINCE] = since;
}

// Notes that packets up to a number were asked for.
pub fn ask_through(block: &mut Block, through: u64)
    ensures { session_of block.new ≡ asking through (session_of block.old) }
{
    block[THROUGH] = through;
}

// Packet k, counted from 1.
pub fn packet(block: &Block, k: usize) -> u64
    requires { (1 ≤ k) × (k ≤ length (session_of block.now).packets) }
    ensures { result ≡ get_or (session_of block.now).packets (k - 1) 0 }
{
    block[PACKETS - 1 + k]
}

// Cuts a message into packets.
pub fn fill(block: &mut Block, bytes: &[u8])
    requires { length bytes.now ≤ most_bytes }
    ensures { session_of block.new ≡ with_packets (cut_words bytes.now) (session_of block.old) }
{
    let n = (bytes.len() + 6) / 7;
    for i in 0..n {
        block[PACKETS + i] = packets::packet(&bytes[7 * i..], (i + 1) as u8);
    }
    block[STORED] = n as u64;
}

// Puts the message together at the front of `out`: of each packet all bytes but its number. Tells how many bytes it has.
pub fn write_out(block: &Block, out: &mut [u8]) -> usize
    requires { most_bytes ≤ length out.old }
    ensures { Writing block.now out.old out.new result }
{
    let n = size(block).min(7 * stored(block)) as usize;
    for k in 0..(n + 6) / 7 {
        let at = 7 * k;
        let end = n.min(at + 7);
        out[at..end].copy_from_slice(&block[PACKETS + k].to_le_bytes()[1..1 + end - at]);
    }
    n
}
