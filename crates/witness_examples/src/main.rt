// Any encoded list of calls, run by `witness::replay`. Standard input has numbers in hex: the NAME, the preferred address, the number of ports, how many calls there
// are, five words for each call, and the bytes of all calls; what stands behind a # is passed over. A line for each call, its answer's twelve words, and how many frames
// wait at each port.
#![tactic(auto)]

ghost use Rattle.std.specs.Prelude.{◌+◌, ◌*◌, ◌≤◌, ◌<◌, length, IfSome};

use unit::Unit;
use witness::ANSWER_WORDS;

// The most bytes that are read.
const MOST: usize = 65536;

// How many numbers, bytes and calls there is room for.
const NUMBERS: usize = 32768;

const BYTES: usize = 24576;

const CALLS: usize = 1024;

// The last word of an answer, from 0.
const LAST_WORD: usize = ANSWER_WORDS - 1;

// How many numbers come before the calls.
const HEAD: usize = 4;

// The words of the largest unit's record, one of eight ports.
const MOST_WORDS: usize = 6266;

// What is being read: a number with a digit at least, a comment, or neither.
#[derive(Clone, Copy)]
enum Reading {
    Number(u64),
    Comment,
    Nothing,
}

// The value of a hex digit.
fn digit(byte: u8) -> Option<u32>
    ensures { IfSome result (λ d. d < 16) }
{
    char::from(byte).to_digit(16)
}

// What is read after one byte more; a number is whole where the byte is no digit.
fn after(reading: Reading, byte: u8) -> Reading {
    match (reading, byte, digit(byte)) {
        (_, b'\n', _) => Reading::Nothing,
        (Reading::Comment, _, _) | (_, b'#', _) => Reading::Comment,
        (_, _, None) => Reading::Nothing,
        (Reading::Number(value), _, Some(d)) => Reading::Number((value << 4) | u64::from(d)),
        (Reading::Nothing, _, Some(d)) => Reading::Number(u64::from(d)),
    }
}

// The numbers of the text, each ended by a byte that is no digit, as far as there is room; how many there are.
fn read_numbers(text: &[u8], numbers: &mut [u64]) -> usize
    ensures { result ≤ length numbers.old }
{
    let mut count = 0;
    let mut reading = Reading::Nothing;
    for byte in text {
        if let Reading::Number(value) = reading
            && digit(*byte).is_none()
            && count < numbers.len()
        {
            numbers[count] = value;
            count += 1;
        }
        reading = after(reading, *byte);
    }
    count
}

// The lower eight bits of each number, as many as there is room for; how many.
fn copy_bytes(numbers: &[u64], bytes: &mut [u8]) -> usize
    ensures { result ≤ length bytes.old }
{
    for (byte, n) in bytes.iter_mut().zip(numbers) {
        *byte = (*n % 256) as u8;
    }
    bytes.len().min(numbers.len())
}

// A number in hex and what stands behind it.
fn number(rt: &impl Print, n: u64, behind: &[u8]) {
    let _ = print!(rt; "{n:x}");
    let _ = rt.write_all(behind);
}

// A number of a line; the last ends it.
fn print_word(rt: &impl Print, n: u64, is_last: bool) {
    if is_last {
        number(rt, n, b"\n");
        return;
    }
    number(rt, n, b" ");
}

// The answers' words in hex, those of an answer a line.
fn print_answers(rt: &impl Print, answers: &[u64]) {
    for (i, word) in answers.iter().enumerate() {
        print_word(rt, *word, i % ANSWER_WORDS == LAST_WORD);
    }
}

// How many frames wait at a port, by its index from 0: the first word of its queue.
fn print_waiting(rt: &impl Print, words: &[u64], index: usize, is_last: bool)
    requires { index ≤ 8 }
{
    let place = Unit::QUEUES_AT + queue::BLOCK_LENGTH * index;
    if place < words.len() {
        print_word(rt, words[place], is_last);
    }
}

// How many frames wait at each port.
fn print_record(rt: &impl Print, words: &[u64], ports: usize)
    requires { ports ≤ 8 }
{
    let _ = rt.print("waiting ");
    for i in 0..ports {
        print_waiting(rt, words, i, i + 1 == ports);
    }
}

// How many calls are made: as many as were said, have their words, and there is room for.
fn calls_made(said: u64, numbers: usize) -> usize
    requires { 4 ≤ numbers }
    ensures { (4 + 5 * result ≤ numbers) × (result ≤ 1024) }
{
    let most = ((numbers - HEAD) / 5).min(CALLS);
    most.min(said as usize)
}

// How much of the storage is the record of a unit with so many ports.
fn record_length(ports: usize) -> usize
    requires { (2 ≤ ports) × (ports ≤ 8) }
    ensures { result ≤ 6266 }
{
    Unit::record_length(ports).min(MOST_WORDS)
}

// Power-on and the calls; how many frames wait is told from the record after them.
fn make_calls(rt: &impl Print, words: &mut [u64], numbers: &[u64], answers: &mut [u64], n: usize)
    requires { 4 + 5 * n ≤ length numbers.now }
{
    let end = HEAD + 5 * n;
    let mut bytes = [0u8; BYTES];
    let mut reply = [0u8; 1785];
    let k = copy_bytes(&numbers[end..], &mut bytes);
    let refused = witness::replay(
        words,
        numbers[0],
        (numbers[1] % 4294967296) as u32,
        (numbers[2] % 4294967296) as u32,
        &numbers[HEAD..end],
        &bytes[..k],
        &mut reply,
        answers,
    );
    number(rt, refused as u64, b"\n");
}

// A unit, its calls and their answers.
fn run(rt: &impl Print, numbers: &[u64])
    requires { 4 ≤ length numbers.now }
{
    let n = calls_made(numbers[3], numbers.len());
    let ports = Unit::count_of(numbers[2]) as usize;
    let length = record_length(ports);
    let mut words = [0u64; MOST_WORDS];
    let mut answers = [0u64; ANSWER_WORDS * CALLS];
    make_calls(rt, &mut words[..length], numbers, &mut answers, n);
    print_answers(rt, &answers[..ANSWER_WORDS * n]);
    print_record(rt, &words, ports);
}

fn main(rt: HostRuntime) {
    let mut text = [0u8; MOST];
    let n = bench_io::read_full(&mut rt.stdin(), &mut text);
    let mut numbers = [0u64; NUMBERS];
    let count = read_numbers(&text[..n], &mut numbers);
    if count < HEAD {
        let _ = rt.println(
            "a NAME, a preferred address, a number of ports and of calls come first",
        );
        return;
    }
    run(&rt, &numbers[..count]);
}
