// The functions that C calls with a pointer to a struct or to structs: the take on one queue by itself, and a plan by its links. A line for each call: its number, the words of its answer, and
// of a take the bytes and what the queue counts then.
#![tactic(auto)]

ghost use Rattle.std.specs.Prelude.{◌≡◌, length};
ghost use Rattle.queue.specs.Queue.{block_length};
ghost use Rattle.deorasaeng.specs.Interface.{QueueCall};
ghost use Rattle.deorasaeng.specs.PlanCalls.{LinksCall};

use answer_lines::{bytes, head, text, words};
use plan_links::Link;
use queue::Queue;
use unit::Unit;

// Where a record has the queue of port 3.
const QUEUE_AT: usize = Unit::QUEUES_AT + 2 * queue::BLOCK_LENGTH;

const QUEUE_END: usize = QUEUE_AT + queue::BLOCK_LENGTH;

// What the words of a queue count: the frames that wait, those of each priority, those accepted and taken.
fn counted(rt: &impl Print, block: &[u64])
    requires { length block.now ≡ block_length }
{
    text(rt, b" |");
    words(rt, &block[0..11]);
    text(rt, b"\n");
}

// A queue after a take, and the number that the take gave.
#[derive(Drop)]
struct AfterTake {
    queue: Queue,
    number: u32,
}

// The take on a queue, by a reference to it.
fn take_lent(mut queue: Queue, answer: &mut [u64], bytes: &mut [u8]) -> AfterTake
    ensures { QueueCall queue.words result.queue.words answer.old answer.new bytes.old bytes.new result.number }
{
    let number = deorasaeng::deorasaeng_take_queue(&mut queue, answer, bytes);
    AfterTake { queue, number }
}

// A plan of four segments and two units, asked by a reference to its links.
fn hear_lent(links: [Link; 5], lists: &[u64], first: u32, pgn: u32, answer: &mut [u64]) -> u32
    ensures { LinksCall links lists.now 4 2 first pgn answer.old answer.new result }
{
    deorasaeng::deorasaeng_plan_links(&links, lists, 4, 2, first, pgn, answer)
}

// A take's line. What a take does not write stays: 9 in every word and byte.
fn told(
    rt: &impl Print,
    queue: Queue,
    word: &[u8],
    answer: &mut [u64],
    written: &mut [u8],
) -> Queue {
    let after = take_lent(queue, answer, written);
    head(rt, word, after.number);
    words(rt, answer);
    bytes(rt, written);
    let rest = after.queue;
    let block = rest.words;
    counted(rt, &block);
    rest
}

fn take(rt: &impl Print, queue: Queue, word: &[u8]) -> Queue {
    let mut answer = [9u64; deorasaeng::TAKE_WORDS];
    let mut written = [9u8; flat_answers::FRAME_BYTES];
    told(rt, queue, word, &mut answer, &mut written)
}

// An answer that is a word short, and bytes that are one short: the queue is as it was.
fn short_takes(rt: &impl Print, queue: Queue) -> Queue {
    let mut short_answer = [9u64; deorasaeng::TAKE_WORDS - 1];
    let mut answer = [9u64; deorasaeng::TAKE_WORDS];
    let mut short_bytes = [9u8; flat_answers::FRAME_BYTES - 1];
    let mut written = [9u8; flat_answers::FRAME_BYTES];
    let same = told(
        rt,
        queue,
        b"take, answer of 2 words",
        &mut short_answer,
        &mut written,
    );
    told(rt, same, b"take, 7 bytes", &mut answer, &mut short_bytes)
}

// The words of a queue in a record, copied.
fn copied(block: &[u64]) -> Queue
    requires { length block.now ≡ block_length }
{
    let mut words = [0u64; queue::BLOCK_LENGTH];
    words.copy_from_slice(block);
    Queue { words }
}

// A frame from port 2, which joins the queues of the other ports.
fn frame(rt: &impl Print, record: &mut [u64], id: u32, data: &[u8]) {
    let mut answer = [9u64; deorasaeng::FRAME_WORDS];
    head(
        rt,
        b"frame",
        deorasaeng::deorasaeng_frame(record, 2, id, data, &mut answer),
    );
    words(rt, &answer);
    text(rt, b"\n");
}

// Priorities 6, 6 and 3, as in P11, and 7.
fn joined(rt: &impl Print, record: &mut [u64]) {
    deorasaeng::deorasaeng_power_on(record, 0x20001C000AC00123, 0x90);
    let frames: [(u32, &[u8]); 4] = [
        (0x18FEF126, b"\x01"),
        (0x18FEF226, b"\x02\x02"),
        (0x0CFEF326, b"\x03\x03\x03"),
        (0x1CFEF426, b"\x11\x22\x33\x44\x55\x66\x77\x88"),
    ];
    for (id, data) in frames {
        frame(rt, record, id, data);
    }
}

// Taken until nothing waits.
fn emptied(rt: &impl Print, queue: Queue) {
    let block = queue.words;
    text(rt, b"queue of 3");
    counted(rt, &block);
    let q3 = take(rt, queue, b"take");
    let q2 = take(rt, q3, b"take");
    let same = short_takes(rt, q2);
    let q1 = take(rt, same, b"take");
    let q0 = take(rt, q1, b"take");
    take(rt, q0, b"take, nothing waits");
}

// The record's own queue was not lent.
fn unchanged(rt: &impl Print, record: &[u64]) {
    let mut answer = [9u64; deorasaeng::COUNTS_WORDS];
    head(
        rt,
        b"counts of 3",
        deorasaeng::deorasaeng_counts(record, 3, &mut answer),
    );
    words(rt, &answer);
    text(rt, b"\n");
}

fn queues(rt: &impl Print) {
    let mut record = [0u64; Unit::RECORD_LENGTH];
    joined(rt, &mut record);
    let queue = copied(&record[QUEUE_AT..QUEUE_END]);
    emptied(rt, queue);
    unchanged(rt, &record);
}

fn link(unit: u32, port: u32, segment: u32) -> Link {
    Link {
        unit,
        port,
        segment,
    }
}

// A plan's line: unit 1 joins segments 1 and 2, unit 2 joins 2 and 3, and then comes the last link. A refusal leaves the answer, which had 9.
fn ask(rt: &impl Print, lists: &[u64], word: &[u8], last: Link, first: u32, pgn: u32) {
    let links = [
        link(1, 1, 1),
        link(1, 2, 2),
        link(2, 1, 2),
        link(2, 2, 3),
        last,
    ];
    let mut answer = [9u64; deorasaeng::PLAN_WORDS];
    head(rt, word, hear_lent(links, lists, first, pgn, &mut answer));
    words(rt, &answer);
    text(rt, b"\n");
}

// Unit 2 joins segment 4 too.
fn heard(rt: &impl Print, lists: &[u64]) {
    let last = link(2, 3, 4);
    let asked: [(&[u8], u32, u32); 4] = [
        (b"65097 from 1", 1, 65097),
        (b"61444 from 1", 1, 61444),
        (b"61444 from 4", 4, 61444),
        (b"60928 from 1", 1, 60928),
    ];
    for (word, first, pgn) in asked {
        ask(rt, lists, word, last, first, pgn);
    }
}

fn refused(rt: &impl Print, lists: &[u64]) {
    let asked: [(&[u8], Link, u32); 7] = [
        (b"unit 3", link(3, 1, 4), 65097),
        (b"port 9", link(2, 9, 4), 65097),
        (b"segment 5", link(2, 3, 5), 65097),
        (b"port 2 twice", link(2, 2, 4), 65097),
        (b"ring", link(2, 3, 1), 65097),
        (b"two ports on 3", link(2, 3, 3), 65097),
        (b"ring, 61185 asked", link(2, 3, 1), 61185),
    ];
    for (word, last, pgn) in asked {
        ask(rt, lists, word, last, 1, pgn);
    }
    let short = [0u64; plan_shape::BLOCK_SIZE];
    ask(rt, &short, b"lists of 34 words", link(2, 3, 4), 1, 65097);
}

// From port 1 to port 2 unit 1 lets 65097 alone through.
fn plans(rt: &impl Print) {
    let mut lists = [0u64; plan_shape::LISTS_LENGTH];
    lists[0] = 2;
    lists[1] = 1;
    lists[2] = 65097;
    heard(rt, &lists);
    refused(rt, &lists);
}

fn main(rt: HostRuntime) {
    queues(&rt);
    plans(&rt);
}
