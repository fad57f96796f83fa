// A port's sessions in 1,053 lent words: how many are open, and four blocks, the open ones in order of opening, the oldest
// first. What each frame of the transport protocol does to them, and which are at their limit.
#![tactic(auto)]

ghost use Rattle.std.specs.Prelude.{◌≡◌, [], ◌∷◌, ◌++◌, ◌+◌, ◌-◌, ◌*◌, ◌≤◌, ◌<◌, length, get_or, set, map, IfSome};
ghost use Rattle.std.specs.Fn.{FnOnceReturnsAtMut};
ghost use Rattle.packets.specs.Words.{cut_words};
ghost use Rattle.session.specs.Way.{word};
ghost use Rattle.session.specs.Opening.{opened_by};
ghost use Rattle.session.specs.Session.{most_bytes, block_length, session_of, is_due, with_packet, with_packets, timed, asking};
ghost use Rattle.sessions.specs.Sessions.{most, blocks_in, talk_of, none, place_in, is_with, receiving, sending, remove_at, removed_if, without};
ghost use Rattle.sessions.specs.Heard.{ask_count, kept, Hearing, is_right, Requesting, is_busy, sending_of, Clearing};
ghost use Rattle.sessions.specs.Steps.{Lending, LendingFirst, AskingNext, TakingAsked, TakingLast};
ghost use Rattle.sessions.specs.Due.{Ending};
ghost use Rattle.sessions.specs.Region.{region_length, Telling, Dropping};

use checks::Refusal;
use session::{BLOCK_LENGTH, Block, Opening, Way};

// How many sessions are open on a port at most, both ways together.
pub const MOST: usize = 4;

// How many words a port has.
pub const PORT_LENGTH: usize = 1053;

pub type Port = [u64; PORT_LENGTH];

// What a data packet comes to that a session takes: it is stored, it is stored and more are to be asked for, or it was the
// last and the message was given out.
#[derive(Clone, Copy, Debug, PartialEq, Eq)]
pub enum Data {
    Stored,
    Ask { count: u64, first: u64 },
    Given(usize),
}

// Packets to be sent, of the session at a place: from a number through another.
#[derive(Clone, Copy, Debug, PartialEq, Eq)]
pub struct Window {
    pub at: usize,
    pub first: u64,
    pub through: u64,
}

// Milliseconds for the next packet, after one.
const T1: u64 = 750;

// For the first packet, after a clear to send.
const T2: u64 = 1250;

// For an answer, after a request to send or a packet.
const T3: u64 = 1250;

// For a clear to send, after one that holds the session.
const T4: u64 = 1050;

// How many packets are asked for or sent at a time at most.
const WINDOW: u64 = 16;

// How many sessions are open.
pub fn count(port: &Port) -> usize
    ensures { (result ≡ length (talk_of port.now)) × (result ≤ most) × (result ≤ get_or port.now 0 0) }
{
    port[0].min(MOST as u64) as usize
}

// The blocks of the sessions that are open.
fn open_blocks(port: &Port) -> &[Block]
    ensures value { map session_of result.now ≡ talk_of port.now }
    ensures many { length result.now ≡ length (talk_of port.now) }
{
    let (all, _) = port[1..].as_chunks();
    &all[..count(port)]
}

// Changes the block at the front of some words. Apart from `change`, since a proof follows an array that is lent from a
// slice only where that slice is the argument itself, and no part of it.
fn change_first<F: FnOnce(&mut Block)>(words: &mut [u64], change: F)
    requires callable { F.IsAlwaysCallable change }
    requires long { block_length ≤ length words.old }
    ensures { LendingFirst (FnOnceReturnsAtMut F.FnOnce change) words.old words.new }
{
    if let Some(block) = words.first_chunk_mut() {
        change(block);
    }
}

// Changes block i of a port.
fn change<F: FnOnce(&mut Block)>(port: &mut Port, i: usize, change: F)
    requires callable { F.IsAlwaysCallable change }
    requires inside { i < most }
    ensures { Lending (FnOnceReturnsAtMut F.FnOnce change) i port.old port.new }
{
    change_first(&mut port[1 + BLOCK_LENGTH * i..], change);
}

// Whether a session goes one way and is with a peer.
fn is_with(session: &Block, way: u64, peer: u64) -> bool
    ensures { result ≡ is_with way peer (session_of session.now) }
{
    session::way(session).map_or(0, Way::word) == way && session::peer(session) as u64 == peer
}

// The place of the session that goes one way, by its word, and is with a peer.
pub fn find(port: &Port, way: u64, peer: u64) -> Option<usize>
    ensures place { result ≡ place_in (is_with way peer) (talk_of port.now) }
    ensures inside { IfSome result (λ i. i < length (talk_of port.now)) }
{
    open_blocks(port)
        .iter()
        .position(|session| is_with(session, way, peer))
}

// The place of the oldest session that is at its limit.
pub fn first_due(port: &Port, time: u64) -> Option<usize>
    ensures place { result ≡ place_in (is_due time) (talk_of port.now) }
    ensures inside { IfSome result (λ i. i < length (talk_of port.now)) }
{
    open_blocks(port)
        .iter()
        .position(|session| session::is_due(session, time))
}

// Copies the block behind block i into it.
fn move_down(port: &mut Port, i: usize)
    requires { i + 1 < most }
    ensures { blocks_in port.new ≡ set (blocks_in port.old) i (get_or (blocks_in port.old) (i + 1) none) }
{
    let start = 1 + BLOCK_LENGTH * i;
    let next = start + BLOCK_LENGTH;
    port.copy_within(next..next + BLOCK_LENGTH, start);
}

// Ends the session at a place; those behind it move up.
pub fn close(port: &mut Port, i: usize)
    requires { i < length (talk_of port.old) }
    ensures { talk_of port.new ≡ remove_at i (talk_of port.old) }
{
    let last = count(port) - 1;
    for place in i..last {
        move_down(port, place);
    }
    port[0] = last as u64;
}

// Opens a session, the youngest.
pub fn open(port: &mut Port, opening: Opening)
    requires { length (talk_of port.old) < most }
    ensures { talk_of port.new ≡ talk_of port.old ++ (opened_by opening ∷ []) }
{
    let n = count(port);
    change(port, n, |session| session::open(session, opening));
    port[0] = (n + 1) as u64;
}

// Puts a packet behind those of the session at a place.
pub fn store(port: &mut Port, i: usize, word: u64)
    requires { i < length (talk_of port.old) }
    ensures { talk_of port.new ≡ set (talk_of port.old) i (with_packet word (get_or (talk_of port.old) i none)) }
{
    change(port, i, |session| session::store(session, word));
}

// Starts a timer.
fn set_timer(port: &mut Port, i: usize, timer: u64, since: u64)
    requires { i < length (talk_of port.old) }
    ensures { talk_of port.new ≡ set (talk_of port.old) i (timed timer since (get_or (talk_of port.old) i none)) }
{
    change(port, i, |session| session::set_timer(session, timer, since));
}

// Notes that packets up to a number were asked for.
fn ask_through(port: &mut Port, i: usize, through: u64)
    requires { i < length (talk_of port.old) }
    ensures { talk_of port.new ≡ set (talk_of port.old) i (asking through (get_or (talk_of port.old) i none)) }
{
    change(port, i, |session| session::ask_through(session, through));
}

// Cuts a message into the packets of the session at a place.
fn fill(port: &mut Port, i: usize, bytes: &[u8])
    requires { (i < length (talk_of port.old)) × (length bytes.now ≤ most_bytes) }
    ensures { talk_of port.new ≡ set (talk_of port.old) i (with_packets (cut_words bytes.now) (get_or (talk_of port.old) i none)) }
{
    change(port, i, |session| session::fill(session, bytes));
}

// How many packets are to be asked for next.
fn ask_count(session: &Block) -> u64
    ensures { (result ≡ ask_count (session_of session.now)) × (result ≤ 16) }
{
    let packets = (session::size(session) + 6) / 7;
    packets
        .saturating_sub(session::stored(session))
        .min(session::limit(session))
}

// Asks for the next packets.
fn ask_next(port: &mut Port, i: usize, time: u64) -> Data
    requires { i < length (talk_of port.old) }
    ensures { AskingNext port.old port.new i time result }
{
    let session = &open_blocks(port)[i];
    let count = ask_count(session);
    let stored = session::stored(session);
    ask_through(port, i, stored + count);
    set_timer(port, i, T2, time);
    Data::Ask {
        count,
        first: stored + 1,
    }
}

// Stores a packet and asks for the next.
fn take_asked(port: &mut Port, i: usize, word: u64, time: u64) -> Data
    requires { i < length (talk_of port.old) }
    ensures { TakingAsked port.old port.new i word time result }
{
    store(port, i, word);
    ask_next(port, i, time)
}

// Stores a packet; the next is awaited.
fn take_kept(port: &mut Port, i: usize, word: u64, time: u64)
    requires { i < length (talk_of port.old) }
    ensures { talk_of port.new ≡ set (talk_of port.old) i (kept word time (get_or (talk_of port.old) i none)) }
{
    store(port, i, word);
    set_timer(port, i, T1, time);
}

// Stores the last packet: the message is given out, and the session ends.
fn take_last(port: &mut Port, i: usize, word: u64, out: &mut [u8]) -> usize
    requires { (i < length (talk_of port.old)) × (most_bytes ≤ length out.old) }
    ensures { TakingLast port.old port.new i word out.old out.new result }
{
    store(port, i, word);
    let n = session::write_out(&open_blocks(port)[i], out);
    close(port, i);
    n
}

// A data packet from a peer: None where no session is there for it.
pub fn heard_data(
    port: &mut Port,
    peer: u64,
    word: u64,
    time: u64,
    out: &mut [u8],
) -> Result<Option<Data>, Refusal>
    requires { most_bytes ≤ length out.old }
    ensures { Hearing port.old port.new (receiving peer (talk_of port.old)) word time out.old out.new result }
{
    let Some(i) = find(port, Way::Receiving as u64, peer) else {
        return Ok(None);
    };
    let session = &open_blocks(port)[i];
    if word % 256 != session::stored(session) + 1 {
        return Err(Refusal::WrongPacket);
    }
    if session::is_last(session) {
        return Ok(Some(Data::Given(take_last(port, i, word, out))));
    }
    if session::is_asked(session) {
        return Ok(Some(take_asked(port, i, word, time)));
    }
    take_kept(port, i, word, time);
    Ok(Some(Data::Stored))
}

// Ends the session at a place, if it is one.
fn drop_at(port: &mut Port, place: Option<usize>)
    requires { IfSome place (λ i. i < length (talk_of port.old)) }
    ensures { talk_of port.new ≡ removed_if place (talk_of port.old) }
{
    if let Some(i) = place {
        close(port, i);
    }
}

// Whether a size and a number of packets agree, and the size is one of a long message.
fn is_right(size: u64, packets: u64) -> bool
    ensures { result ≡ is_right size packets }
{
    9 <= size && size <= 1785 && packets == (size + 6) / 7
}

// A request to send from a peer: 19, 21, or a session that is to ask for so many packets. It replaces its sender's first.
pub fn heard_request(
    port: &mut Port,
    peer: u8,
    size: u64,
    packets: u64,
    limit: u64,
    time: u64,
) -> Result<u64, Refusal>
    ensures { Requesting port.old port.new (receiving peer (talk_of port.old)) peer size packets limit time result }
{
    let first = find(port, Way::Receiving as u64, peer as u64);
    let place = first.unwrap_or(count(port));
    if MOST <= place {
        return Err(Refusal::ManySessions);
    }
    if !is_right(size, packets) {
        return Err(Refusal::WrongSize);
    }
    drop_at(port, first);
    let limit = limit.min(WINDOW);
    let count = packets.min(limit);
    open(
        port,
        Opening {
            way: Some(Way::Receiving),
            peer,
            size,
            through: count,
            limit,
            timer: T2,
            since: time,
        },
    );
    Ok(count)
}

// Opens a session that sends a message, the youngest.
pub fn open_reply(port: &mut Port, peer: u8, bytes: &[u8], time: u64)
    requires { (length (talk_of port.old) < most) × (length bytes.now ≤ most_bytes) }
    ensures { talk_of port.new ≡ talk_of port.old ++ (sending_of peer bytes.now time ∷ []) }
{
    let n = count(port);
    open(
        port,
        Opening {
            way: Some(Way::Sending),
            peer,
            size: bytes.len() as u64,
            through: 0,
            limit: 0,
            timer: T3,
            since: time,
        },
    );
    fill(port, n, bytes);
}

// Whether a reply to a peer is refused with 19: four are open, or one is there already replying to that address.
pub fn is_busy(port: &Port, peer: u64) -> bool
    ensures { result ≡ is_busy peer (talk_of port.now) }
{
    MOST <= count(port) || find(port, Way::Sending as u64, peer).is_some()
}

// Ends the session that goes one way and is with a peer, if there is one.
fn drop_with(port: &mut Port, way: Way, peer: u64)
    ensures { talk_of port.new ≡ without (word way) peer (talk_of port.old) }
{
    let place = find(port, way.word(), peer);
    drop_at(port, place);
}

// An end from a peer.
pub fn heard_end(port: &mut Port, peer: u64)
    ensures { talk_of port.new ≡ without 2 peer (talk_of port.old) }
{
    drop_with(port, Way::Sending, peer);
}

// An abort from a peer: it does not say which way, so that both end.
pub fn heard_abort(port: &mut Port, peer: u64)
    ensures { talk_of port.new ≡ without 2 peer (without 1 peer (talk_of port.old)) }
{
    drop_with(port, Way::Receiving, peer);
    drop_with(port, Way::Sending, peer);
}

// A clear to send from a peer, for so many packets from the one numbered `first` on: what is to be sent, if anything is.
pub fn heard_clear(port: &mut Port, peer: u64, asked: u64, first: u64, time: u64) -> Option<Window>
    ensures { Clearing port.old port.new (sending peer (talk_of port.old)) asked first time result }
{
    let at = find(port, Way::Sending as u64, peer)?;
    if asked == 0 {
        set_timer(port, at, T4, time);
        return None;
    }
    let last = session::stored(&open_blocks(port)[at]);
    if first == 0 || last < first {
        return None;
    }
    set_timer(port, at, T3, time);
    let through = (first + asked.min(WINDOW) - 1).min(last);
    Some(Window { at, first, through })
}

// Packet k, counted from 1, of the session at a place.
pub fn packet(port: &Port, i: usize, k: usize) -> u64
    requires { (i < length (talk_of port.now)) × (1 ≤ k) × (k ≤ length (get_or (talk_of port.now) i none).packets) }
    ensures { result ≡ get_or (get_or (talk_of port.now) i none).packets (k - 1) 0 }
{
    session::packet(&open_blocks(port)[i], k)
}

// Ends the oldest session that is at its limit, if there is one. Tells its peer.
pub fn end_due(port: &mut Port, time: u64) -> Option<u8>
    ensures { Ending port.old port.new time result }
{
    let i = first_due(port, time)?;
    let peer = session::peer(&open_blocks(port)[i]);
    close(port, i);
    Some(peer)
}

// Drops every session, silently: at power-on, and where the unit becomes Lost.
pub fn drop_all(port: &mut [u64])
    requires { 0 < length port.old }
    ensures { talk_of port.new ≡ [] }
{
    port[0] = 0;
}

// Tells the time of a region, in milliseconds: an earlier one counts as the last.
pub fn tell_time(words: &mut [u64], ports: usize, told: u64)
    requires { length words.old ≡ region_length ports }
    ensures { Telling words.old words.new ports told }
{
    words[0] = words[0].max(told);
}

// Drops every session of every port of a region.
pub fn drop_every(words: &mut [u64], ports: usize)
    requires { (length words.old ≡ region_length ports) × (ports ≤ 8) }
    ensures { Dropping words.old words.new ports }
{
    for p in 0..ports {
        let start = 1 + PORT_LENGTH * p;
        drop_all(&mut words[start..start + PORT_LENGTH]);
    }
}
