// A frame's call put together from its parts, beside the call itself: the frames of a bench log, from standard input, go to two units, to one whole and to the
// other part by part, and after each the answers and every word of the two records are compared. So with two, four and eight ports. Then what each part refuses.
#![tactic(auto)]

ghost use Rattle.std.specs.Prelude.{◌<◌, ◌≤◌, length, IfSome};

use bench_records::{FRAME_SIZE, TAKE_SIZE};
use bridge::{FrameAnswer, Unit};
use checks::Refusal;
use filter::{Asked, Reason};
use queue::Frame;

// The most bytes that are read.
const MOST: usize = 65536;

const NAME: u64 = 0xA000000000000050;

const ADDRESS: u32 = 0x50;

// The words of a record with eight ports.
const MOST_WORDS: usize = Unit::QUEUES_AT
    + queue::BLOCK_LENGTH * 8
    + filter::BLOCK_SIZE * 56
    + losses::COUNTER_LENGTH * 57;

// The words of a frame's answer.
const WORDS: usize = 8;

// What is counted: for each word of the answer the frames where it is not 0; then all frames, those that are refused, those whose answers or records differ.
const COUNTS: usize = WORDS + 3;

fn text(rt: &impl Print, line: &[u8]) {
    let _ = rt.write_all(line);
}

// A number of a line.
fn number(rt: &impl Print, n: u64) {
    let _ = print!(rt; "{n} ");
}

// The number of a refusal, 0 of none.
fn refusal_number<T: Drop>(answer: Result<T, Refusal>) -> u32 {
    match answer {
        Ok(_) => 0,
        Err(refusal) => refusal.number(),
    }
}

// ---- the call of a frame, from its parts
// What came of a frame at the ports from the eighth down: where it crossed and was accepted, a bit each, and the reasons, four bits each.
#[derive(Drop)]
struct Crossings {
    crossed: u32,
    accepted: u32,
    reasons: u64,
    compared: u32,
}

// One port more, whose pair is asked. A part refuses a port that there isn't: no pair is asked there.
fn cross(words: &mut [u64], from: u32, to: u32, f: Frame, c: Crossings) -> Crossings {
    let asked = frame_parts::ask(words, from, to, f.id).unwrap_or(Asked {
        reason: Reason::NotAsked,
        compared: 0,
    });
    let reason = asked.reason;
    let crosses = reason.crosses();
    let accepted = crosses && frame_parts::join(words, from, to, f) == Ok(true);
    Crossings {
        crossed: (c.crossed << 1) | u32::from(crosses),
        accepted: (c.accepted << 1) | u32::from(accepted),
        reasons: (c.reasons << 4) | reason.number() as u64,
        compared: c.compared.wrapping_add(asked.compared),
    }
}

// At every port up to one.
fn cross_all(words: &mut [u64], from: u32, f: Frame, ports: u32) -> Crossings {
    let mut c = Crossings {
        crossed: 0,
        accepted: 0,
        reasons: 0,
        compared: 0,
    };
    for to in (1..=ports).rev() {
        c = cross(words, from, to, f, c);
    }
    c
}

// The answer's words; or the refusal.
fn frame_by_parts(
    words: &mut [u64],
    port: u32,
    id: u32,
    bytes: &[u8],
    answer: &mut [u64; WORDS],
) -> Result<(), Refusal> {
    let a = frame_parts::arrive(words, port, id, bytes)?;
    let f = a.frame;
    // a consumed frame crosses to no port
    let ports = if a.consumed { 0 } else { Unit::MOST_PORTS };
    let c = cross_all(words, port, f, ports);
    let done = frame_parts::act(words, port, a.consumed, f)?;
    let unsent = frame_parts::announce(words, done.sent)?;
    let told = FrameAnswer {
        consumed: a.consumed,
        accepted: c.accepted,
        lost: c.crossed ^ c.accepted,
        event: done.event,
        unsent,
        compared: c.compared,
        reasons: c.reasons,
    };
    flat_answers::tell_frame(answer, told);
    Ok(())
}

// The call itself.
fn frame_whole(
    words: &mut [u64],
    port: u32,
    id: u32,
    bytes: &[u8],
    answer: &mut [u64; WORDS],
) -> Result<(), Refusal> {
    let a = bridge::frame(words, port, id, bytes)?;
    flat_answers::tell_frame(answer, a);
    Ok(())
}

// ---- both beside each other
// One more where it is so.
fn count(counts: &mut [u64; COUNTS], i: usize, so: bool)
    requires { i < 11 }
{
    if so {
        counts[i] = counts[i].wrapping_add(1);
    }
}

// The words of an answer.
fn count_words(counts: &mut [u64; COUNTS], answer: &[u64; WORDS]) {
    for (i, word) in answer.iter().enumerate() {
        count(counts, i, *word != 0);
    }
}

// A frame on both units.
fn play(
    whole: &mut [u64],
    parts: &mut [u64],
    port: u32,
    id: u32,
    bytes: &[u8],
    counts: &mut [u64; COUNTS],
) {
    let mut answer = [0u64; WORDS];
    let mut other = [0u64; WORDS];
    let refusal = refusal_number(frame_whole(whole, port, id, bytes, &mut answer));
    let refused = refusal_number(frame_by_parts(parts, port, id, bytes, &mut other));
    let is_same = refusal == refused && answer == other && &*whole == &*parts;
    count_words(counts, &answer);
    count(counts, 8, true);
    count(counts, 9, refusal != 0);
    count(counts, 10, !is_same);
}

// Where a frame's bytes end in its record; one that is longer than eight has nine, of which none is read.
fn end_of(len: u8) -> usize
    ensures { (7 ≤ result) × (result ≤ 16) }
{
    if 8 < len {
        return FRAME_SIZE + 1;
    }
    7 + len as usize
}

// The record at the front of a log on both units: its size, none where the log ends. A take follows the last frame.
fn step(
    whole: &mut [u64],
    parts: &mut [u64],
    log: &[u8],
    counts: &mut [u64; COUNTS],
) -> Option<usize>
    ensures { IfSome result (λ n. (0 < n) × (n ≤ length log.now)) }
{
    if log.len() < TAKE_SIZE {
        return None;
    }
    let port = u32::from(log[1]);
    if log[0] == 2 {
        let _ = bridge::take(whole, port);
        let _ = bridge::take(parts, port);
        return Some(TAKE_SIZE);
    }
    if log.len() <= FRAME_SIZE {
        return None;
    }
    let id = bench_records::id_of(log);
    let end = end_of(log[6]);
    play(whole, parts, port, id, &log[7..end], counts);
    Some(FRAME_SIZE)
}

fn play_all(whole: &mut [u64], parts: &mut [u64], log: &[u8], counts: &mut [u64; COUNTS]) {
    let mut rest = log;
    'records: while let Some(size) = step(whole, parts, rest, counts) {
        rest = &rest[size..];
    }
}

// A message of a tool on port 1.
fn command(words: &mut [u64], payload: &[u8; 8]) {
    let mut reply = [0u8; 1785];
    bridge::message(words, 1, 0x21, payload, &mut reply);
}

// Pair 1 to 2 passes 65265 alone, 1 to 3 blocks 61444, 2 to 1 blocks 65265.
fn create_lists(words: &mut [u64]) {
    command(words, b"\x06\x12\x01\xF1\xFE\x00\xFF\xFF");
    command(words, b"\x06\x13\x00\x04\xF0\x00\xFF\xFF");
    command(words, b"\x06\x21\x00\xF1\xFE\x00\xFF\xFF");
}

// Power-on, Start, Quiet, and lists.
fn key_on(words: &mut [u64], ports: u32) {
    let _ = Unit::power_on_ports(words, NAME, ADDRESS, ports);
    let _ = bridge::start(words);
    let _ = bridge::quiet(words);
    create_lists(words);
}

// A line: the number of ports, and what is counted.
fn print_counts(rt: &impl Print, counts: &[u64; COUNTS], ports: u32) {
    number(rt, ports as u64);
    for n in counts {
        number(rt, *n);
    }
    text(rt, b"\n");
}

// Two units of that many ports.
fn morning(rt: &impl Print, whole: &mut [u64], parts: &mut [u64], log: &[u8], ports: u32) {
    let mut counts = [0u64; COUNTS];
    key_on(whole, ports);
    key_on(parts, ports);
    play_all(whole, parts, log, &mut counts);
    print_counts(rt, &counts, ports);
}

// The words of a record.
fn record_length(ports: u32) -> usize
    requires { (2 ≤ ports) × (ports ≤ 8) }
    ensures { result ≤ 6266 }
{
    Unit::record_length(ports as usize).min(MOST_WORDS)
}

fn with_ports(rt: &impl Print, log: &[u8], ports: u32)
    requires { (2 ≤ ports) × (ports ≤ 8) }
{
    let n = record_length(ports);
    let mut record = [0u64; MOST_WORDS];
    let mut other = [0u64; MOST_WORDS];
    morning(rt, &mut record[0..n], &mut other[0..n], log, ports);
}

// ---- what is refused
// Calls in rows: the port, the other port, the identifier, the length.
const ROW: usize = 7;

const ROWS: [[u8; ROW]; 8] = [
    *b"\x01\x02\x0C\xF0\x04\x27\x08",
    *b"\x02\x02\x0C\xF0\x04\x27\x08",
    *b"\x00\x02\x20\xF0\x04\xFF\x09",
    *b"\x01\x05\x20\xF0\x04\xFF\x09",
    *b"\x01\x02\x20\xF0\x04\xFF\x09",
    *b"\x01\x02\x0C\xF0\x04\xFF\x09",
    *b"\x01\x02\x0C\xF0\x04\xFF\x08",
    *b"\x01\x02\x0C\xF0\x04\xFE\x08",
];

// What the parts give that are about a pair.
fn pair_numbers(rt: &impl Print, words: &mut [u64], from: u32, to: u32, f: Frame) {
    let asked = frame_parts::ask(words, from, to, f.id);
    number(rt, refusal_number(asked) as u64);
    let joined = frame_parts::join(words, from, to, f);
    number(rt, refusal_number(joined) as u64);
}

// What the others give that change the record.
fn act_numbers(rt: &impl Print, words: &mut [u64], from: u32, f: Frame) {
    let acted = frame_parts::act(words, from, false, f);
    number(rt, refusal_number(acted) as u64);
    let own = frame_parts::announce(words, None);
    number(rt, refusal_number(own) as u64);
}

// What the first part gives, and the whole call.
fn frame_numbers(rt: &impl Print, words: &mut [u64], from: u32, id: u32, bytes: &[u8]) {
    let arrived = frame_parts::arrive(words, from, id, bytes);
    number(rt, refusal_number(arrived) as u64);
    let whole = bridge::frame(words, from, id, bytes);
    number(rt, refusal_number(whole) as u64);
}

// A row's ports, identifier and length.
fn print_row(rt: &impl Print, from: u32, to: u32, f: Frame) {
    number(rt, from as u64);
    number(rt, to as u64);
    let id = f.id;
    let _ = print!(rt; "{id:08x} ");
    number(rt, f.len as u64);
}

fn refuse_frame(rt: &impl Print, words: &mut [u64], from: u32, to: u32, f: Frame, bytes: &[u8]) {
    print_row(rt, from, to, f);
    pair_numbers(rt, words, from, to, f);
    act_numbers(rt, words, from, f);
    frame_numbers(rt, words, from, f.id, bytes);
    text(rt, b"\n");
}

// A row on a record.
fn refuse(rt: &impl Print, words: &mut [u64], row: [u8; ROW]) {
    let bytes = [0u8; 9];
    let len = u32::from(row[6]) % 10;
    let n = len as usize;
    let id = bench_records::id_of(&row);
    let f = Frame { id, len, bytes: 0 };
    let from = u32::from(row[0]);
    let to = u32::from(row[1]);
    refuse_frame(rt, words, from, to, f, &bytes[..n]);
}

fn refuse_all(rt: &impl Print, words: &mut [u64]) {
    for row in ROWS {
        refuse(rt, words, row);
    }
}

// On a record, and on one that is a word short.
fn refusals(rt: &impl Print) {
    let mut record = [0u64; Unit::RECORD_LENGTH];
    let mut short = [0u64; Unit::RECORD_LENGTH - 1];
    refuse_all(rt, &mut record);
    refuse_all(rt, &mut short);
}

fn mornings(rt: &impl Print, log: &[u8]) {
    with_ports(rt, log, 2);
    with_ports(rt, log, 4);
    with_ports(rt, log, 8);
}

fn main(rt: HostRuntime) {
    let mut log = [0u8; MOST];
    let n = bench_io::read_full(&mut rt.stdin(), &mut log);
    text(
        &rt,
        b"ports; frames consumed, accepted, lost, with an event, taking over, own lost, compared, with reasons; all, refused, DIFFERENT BY PARTS\n",
    );
    mornings(&rt, &log[..n]);
    text(
        &rt,
        b"from, to, identifier, length; refused by ask, join, act, announce, arrive, the whole call; on a record, then on one that is a word short\n",
    );
    refusals(&rt);
}
