// A line of candump's text and the frame that it is: `(0000000000.000000) can1 18FEF121#0102` and a line feed, can1 to can4 naming the arrival port.
#![tactic(auto)]

ghost use Rattle.std.specs.Prelude.{◌≡◌, ◌&&◌, ◌||◌, ◌+◌, ◌-◌, ◌*◌, ◌≤◌, ◌<◌, eqb, length, drop};
ghost use Rattle.text.specs.Writing.{Writing};
ghost use Rattle.candump.specs.Line.{head, tail, written, fits, alike, is_frame, id_in, data_in, arrival_in};
ghost use Rattle.candump.specs.Calls.{line_read, line_refusal, WritingLine};

pub use refusal::Refusal;

mod refusal;

// A frame and the port at which it arrived. Its bytes are a word, the first the least significant.
#[derive(Clone, Copy)]
pub struct Arrival {
    pub port: u32,
    pub id: u32,
    pub len: u32,
    pub bytes: u64,
}

// can1 to can4.
const LAST_PORT: u32 = 4;

// Identifiers have 29 bits.
const IDENTIFIERS: u32 = 536870912;

// The bytes of the time of a line, and of the shortest and the longest line.
const STAMP: usize = 19;

pub const SHORTEST: usize = 35;

pub const LONGEST: usize = 51;

// The line up to the identifier: the time is 0.
fn put_head(out: &mut [u8], port: u32) -> usize
    requires { (51 ≤ length out.old) × (port ≤ 4) }
    ensures { Writing out.old out.new 0 (head port) result }
{
    let next = text::copy(out, 0, b"(0000000000.000000) can");
    let next = text::byte(out, next, b'0' + port as u8);
    text::byte(out, next, b' ')
}

// The rest of it: identifier and bytes.
fn put_tail(out: &mut [u8], at: usize, id: u32, len: usize, bytes: u64) -> usize
    requires { (51 ≤ length out.old) × (at ≡ 25) × (len ≤ 8) }
    ensures { Writing out.old out.new at (tail id len bytes) result }
{
    let next = text::eight_digits(out, at, id);
    let next = text::byte(out, next, b'#');
    let next = text::word(out, next, bytes, len);
    text::byte(out, next, b'\n')
}

// The whole line.
fn put(out: &mut [u8], a: Arrival) -> usize
    requires { (51 ≤ length out.old) × (a.port ≤ 4) × (a.len ≤ 8) }
    ensures { Writing out.old out.new 0 (written a) result }
{
    let next = put_head(out, a.port);
    put_tail(out, next, a.id, a.len as usize, a.bytes)
}

// Whether there is such a frame: port 1 to 4, identifier below 2^29, at most eight bytes.
#[tactic(auto, using(std::proofs::lemmas::Bool::Decides::nat_tests), unfolding(crate::specs::Line::is_frame, crate::specs::Calls::line_refusal))]
fn is_frame(a: Arrival) -> bool
    ensures { result ≡ is_frame a }
{
    check_frame(LONGEST, a).is_ok()
}

// Whether a character may stand for another: it is the same, or both are digits of the time.
fn fits_in(c: u8, d: u8, timed: bool) -> bool
    ensures { result ≡ fits timed c d }
{
    c == d || timed && c.is_ascii_digit() && d.is_ascii_digit()
}

// Whether a line is a text, the time's digits aside.
fn is_alike(line: &[u8], characters: &[u8]) -> bool
    ensures { result ≡ alike 19 line.now characters.now }
{
    if line.len() != characters.len() {
        return false;
    }
    for (i, c) in line.iter().enumerate() {
        if !fits_in(*c, characters[i], i < STAMP) {
            return false;
        }
    }
    true
}

// The bytes that a line shows, as a word; `rest` is what follows the time.
fn data_in(rest: &[u8], len: usize) -> u64
    requires { (15 + 2 * len ≤ length rest.now) × (len ≤ 8) }
    ensures { result ≡ data_in rest.now len }
{
    let mut word: u64 = 0;
    for i in (0..len).rev() {
        word = u64::from(text::pair_value(rest, 15 + 2 * i)) + 256 * word;
    }
    word
}

// The identifier that a line shows.
#[tactic(auto, unfolding(crate::specs::Line::id_in))]
fn id_in(rest: &[u8]) -> u32
    requires { 16 ≤ length rest.now }
    ensures { result ≡ id_in rest.now }
{
    u32::from_be_bytes([
        text::pair_value(rest, 6),
        text::pair_value(rest, 8),
        text::pair_value(rest, 10),
        text::pair_value(rest, 12),
    ])
}

// What a line shows at the places of a frame's parts, whatever else stands there.
#[tactic(auto, unfolding(crate::specs::Line::arrival_in))]
fn arrival_in(rest: &[u8]) -> Arrival
    requires { (16 ≤ length rest.now) × (length rest.now ≤ 33) }
    ensures { result ≡ arrival_in rest.now }
{
    let len = (rest.len() - 16) / 2;
    Arrival {
        port: u32::from(rest[4].saturating_sub(b'0')),
        id: id_in(rest),
        len: len as u32,
        bytes: data_in(rest, len),
    }
}

// Whether a frame is written as this line, the time's digits aside.
fn is_written(line: &[u8], a: Arrival) -> bool
    requires { (a.port ≤ 4) × (a.len ≤ 8) }
    ensures { result ≡ alike 19 line.now (written a) }
{
    let mut out = [0u8; LONGEST];
    let end = put(&mut out, a);
    is_alike(line, &out[..end])
}

// A line, its line feed with it, as a frame; refused where no frame is written so, the time's digits aside.
pub fn read_line(line: &[u8]) -> Result<Arrival, Refusal>
    ensures { result ≡ line_read line.now }
{
    if line.len() < SHORTEST || LONGEST + 1 < line.len() {
        return Err(Refusal::NoFrame);
    }
    let a = arrival_in(&line[STAMP..]);
    if is_frame(a) && is_written(line, a) {
        Ok(a)
    } else {
        Err(Refusal::NoFrame)
    }
}

// Why writing a frame is refused.
#[tactic(auto, using(std::proofs::lemmas::Bool::Decides::nat_tests), unfolding(crate::specs::Calls::line_refusal))]
fn check_frame(room: usize, a: Arrival) -> Result<(), Refusal>
    ensures { result ≡ line_refusal room a }
{
    if a.port < 1 || LAST_PORT < a.port {
        return Err(Refusal::NoPort);
    }
    if room < LONGEST {
        return Err(Refusal::NoRoom);
    }
    if IDENTIFIERS <= a.id {
        return Err(Refusal::WideIdentifier);
    }
    if 8 < a.len {
        return Err(Refusal::LongFrame);
    }
    Ok(())
}

// A frame as a line in a buffer that has room for the longest: the line's length. Of a refusal nothing is written.
pub fn write_line(line: &mut [u8], a: Arrival) -> Result<usize, Refusal>
    ensures { WritingLine line.old line.new a result }
{
    check_frame(line.len(), a)?;
    Ok(put(line, a))
}
