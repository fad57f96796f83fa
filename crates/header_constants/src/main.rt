// The C header: its text comes from standard input, with a mark for each number, and is written with the code's number in the place of each. What is written is include/deorasaeng.h, byte for byte. The numbers of
// refusals are those of calls that are refused so, the words of an answer are told by where the code writes a value.
#![tactic(auto)]

use address_claims::Event;
use bridge::FrameAnswer;
use filter::Reason;
use queue::{Frame, Tally};
use unit::{Claim, Unit};

// The most bytes that are read.
const MOST: usize = 65536;

// What stands for a number.
const MARK: u8 = b'@';

// Where a value stands in an answer.
fn place_of(answer: &[u64], value: u64) -> u64 {
    let place = answer.iter().position(|word| *word == value);
    place.unwrap_or(answer.len()) as u64
}

// The header, and the rest of its text, which is not written yet.
#[derive(Drop)]
struct Header<'a, R: Print> {
    rt: &'a R,
    rest: &'a [u8],
}

impl<R: Print> Header<'_, R> {
    // The text up to the next mark, and a number in its place.
    fn put(&mut self, number: u64) {
        let mark = self.rest.iter().position(|c| *c == MARK);
        let (text, rest) = self.rest.split_at(mark.unwrap_or(self.rest.len()));
        let _ = self.rt.write_all(text);
        self.rest = rest;
        if let Some((_, rest)) = rest.split_first() {
            let _ = self.rt.print(number);
            self.rest = rest;
        }
    }

    // The same with one number after the other.
    fn put_all(&mut self, numbers: &[u64]) {
        for number in numbers {
            self.put(*number);
        }
    }

    // The same with the places of values in an answer.
    fn put_places(&mut self, answer: &[u64], values: &[u64]) {
        for value in values {
            self.put(place_of(answer, *value));
        }
    }
}

// ---- the numbers of refusals, each by a call that is refused so
// The number that a frame is given.
fn frame_number(words: &mut [u64], port: u32, id: u32, bytes: &[u8]) -> u64 {
    let mut answer = [0u64; deorasaeng::FRAME_WORDS];
    deorasaeng::deorasaeng_frame(words, port, id, bytes, &mut answer) as u64
}

// What a message is given: its number, and the words of its answer.
#[derive(Drop)]
struct Given {
    number: u64,
    answer: [u64; deorasaeng::MESSAGE_WORDS],
}

fn message(words: &mut [u64], port: u32, requester: u32, payload: &[u8]) -> Given {
    let mut reply = [0u8; refusals::LONGEST_MESSAGE];
    let mut answer = [0u64; deorasaeng::MESSAGE_WORDS];
    let number = deorasaeng::deorasaeng_message(
        words,
        port,
        requester,
        payload,
        &mut reply,
        &mut answer,
    ) as u64;
    Given { number, answer }
}

// DONE, WRONG_PORT, WRONG_STORAGE.
fn call_numbers(words: &mut [u64]) -> [u64; 3] {
    let mut short = [0u64; 1];
    [
        deorasaeng::deorasaeng_power_on(words, 1, 0x50) as u64,
        frame_number(words, 0, 0, b""),
        deorasaeng::deorasaeng_quiet(&mut short) as u64,
    ]
}

// WRONG_IDENTIFIER, WRONG_LENGTH, WRONG_SOURCE.
fn frame_numbers(words: &mut [u64]) -> [u64; 3] {
    [
        frame_number(words, 1, 0x20000000, b""),
        frame_number(words, 1, 0x18FEF121, b"123456789"),
        frame_number(words, 1, 0x18FEF1FF, b""),
    ]
}

// The number that a message of a tool on port 1 is given.
fn tool(words: &mut [u64], payload: &[u8]) -> u64 {
    message(words, 1, 0x21, payload).number
}

// NOT_CLAIMED, of an Unstarted unit.
fn early_number(words: &mut [u64]) -> u64 {
    tool(words, b"\x00\x12\xFF\xFF\xFF\xFF\xFF\xFF")
}

// WRONG_PAYLOAD, WRONG_ADDRESS, WRONG_FUNCTION.
fn message_numbers(words: &mut [u64]) -> [u64; 3] {
    [
        tool(words, b"\x00\x12\xFF\xFF\xFF\xFF\xFF"),
        message(words, 1, 254, b"\x00\x12\xFF\xFF\xFF\xFF\xFF\xFF").number,
        tool(words, b"\x01\x12\xFF\xFF\xFF\xFF\xFF\xFF"),
    ]
}

// WRONG_PAIR, ACCESS_DENIED, WRONG_BODY, WRONG_MODE.
fn payload_numbers(words: &mut [u64]) -> [u64; 4] {
    [
        tool(words, b"\x00\x11\xFF\xFF\xFF\xFF\xFF\xFF"),
        message(words, 3, 0x21, b"\x00\x12\xFF\xFF\xFF\xFF\xFF\xFF").number,
        tool(words, b"\x00\x12\xFF\xFF\xFF\xFF\xFF\xFF\xFF"),
        tool(words, b"\x06\x12\x02\xF1\xFE\x00\xFF\xFF"),
    ]
}

// WRONG_STATE, WRONG_ENTRY, WRONG_PARAMETER, WRONG_PORT_COUNT, after which the unit is a new one.
fn late_numbers(words: &mut [u64]) -> [u64; 4] {
    [
        deorasaeng::deorasaeng_quiet(words) as u64,
        tool(words, b"\x02\x12\xFF\xFF\xFF\xFF\xFF\xFF"),
        tool(words, b"\x85\x12\x03\xFF\xFF\xFF\xFF\xFF"),
        deorasaeng::deorasaeng_power_on_ports(words, 1, 0x50, 9) as u64,
    ]
}

// Create of pair 1 to 3 with one PGN more than a list holds, 65024 to 65056.
const TOO_MANY: [u8; 6 + 3 * Unit::LIST_SIZE] =
    *b"\x06\x13\x00\x00\xFE\x00\x01\xFE\x00\x02\xFE\x00\x03\xFE\x00\x04\xFE\x00\x05\xFE\x00\x06\xFE\x00\x07\xFE\x00\x08\xFE\x00\x09\xFE\x00\x0A\xFE\x00\x0B\xFE\x00\x0C\xFE\x00\x0D\xFE\x00\x0E\xFE\x00\x0F\xFE\x00\x10\xFE\x00\x11\xFE\x00\x12\xFE\x00\x13\xFE\x00\x14\xFE\x00\x15\xFE\x00\x16\xFE\x00\x17\xFE\x00\x18\xFE\x00\x19\xFE\x00\x1A\xFE\x00\x1B\xFE\x00\x1C\xFE\x00\x1D\xFE\x00\x1E\xFE\x00\x1F\xFE\x00\x20\xFE\x00";

// NOT_CLEARED, IS_CLEARED, LIST_FULL, PGN_ABSENT: pair 1 to 2 has a list, pair 1 to 3 is cleared.
fn list_numbers(words: &mut [u64]) -> [u64; 4] {
    tool(words, b"\x06\x12\x01\xF1\xFE\x00\xFF\xFF");
    [
        tool(words, b"\x06\x12\x01\xF1\xFE\x00\xFF\xFF"),
        tool(words, b"\x02\x13\xF1\xFE\x00\xFF\xFF\xFF"),
        tool(words, &TOO_MANY),
        tool(words, b"\x03\x12\xF2\xFE\x00\xFF\xFF\xFF"),
    ]
}

// A unit that is Claimed, and what its Start told.
fn claim(words: &mut [u64]) -> [u64; deorasaeng::START_WORDS] {
    let mut answer = [9u64; deorasaeng::START_WORDS];
    deorasaeng::deorasaeng_power_on(words, 1, 0x50);
    deorasaeng::deorasaeng_start(words, &mut answer);
    deorasaeng::deorasaeng_quiet(words);
    answer
}

// The PGN of what a tool on port 1 is sent back.
fn pgn(words: &mut [u64], payload: &[u8]) -> u64 {
    let given = message(words, 1, 0x21, payload);
    given.answer[0]
}

// NETWORK_MESSAGE_PGN, ACKNOWLEDGMENT_PGN: a list is reported, and cleared.
fn pgns(words: &mut [u64]) -> [u64; 2] {
    [
        pgn(words, b"\x00\x12\xFF\xFF\xFF\xFF\xFF\xFF"),
        pgn(words, b"\x04\x12\xFF\xFF\xFF\xFF\xFF\xFF"),
    ]
}

// The number that a plan of one segment is given, by the segment on two ports of its unit.
fn plan_number(segment: u64) -> u64 {
    let mut answer = [0u64; deorasaeng::PLAN_WORDS];
    let mut ports = [0u64; plan_shape::PORTS_LENGTH];
    ports[0] = segment;
    ports[1] = segment;
    let lists = [0u64; plan_shape::LISTS_LENGTH];
    deorasaeng::deorasaeng_plan(&ports, &lists, 1, 1, 1, 65097, &mut answer) as u64
}

// WRONG_PLAN, TWO_PATHS.
fn plan_numbers() -> [u64; 2] {
    [plan_number(2), plan_number(1)]
}

// VERSION, and the numbers of an Unstarted unit.
fn early_numbers(header: &mut Header<impl Print>, words: &mut [u64]) {
    header.put(deorasaeng::deorasaeng_version());
    header.put_all(&call_numbers(words));
    header.put_all(&frame_numbers(words));
    header.put(early_number(words));
}

// The numbers of a Claimed one.
fn claimed_numbers(header: &mut Header<impl Print>, words: &mut [u64]) {
    header.put_all(&message_numbers(words));
    header.put_all(&payload_numbers(words));
    header.put_all(&list_numbers(words));
    header.put_all(&late_numbers(words));
}

// ---- published numbers
// FEWEST_PORTS, MOST_PORTS.
const PORT_COUNTS: [u64; 2] = [Unit::FEWEST_PORTS as u64, Unit::MOST_PORTS as u64];

// RECORD_WORDS, QUEUE_WORDS, RECORD_PAIR_WORDS, REPLY_BYTES, FRAME_BYTES, QUEUES_AT.
fn record_lengths() -> [u64; 6] {
    [
        Unit::record_length(4) as u64,
        queue::BLOCK_LENGTH as u64,
        filter::BLOCK_SIZE as u64,
        refusals::LONGEST_MESSAGE as u64,
        flat_answers::FRAME_BYTES as u64,
        Unit::QUEUES_AT as u64,
    ]
}

// The lengths of the answers to a frame, a take, a message, Start, of the unit, of the counts and of a plan; MOST_SEGMENTS, MOST_UNITS, PLAN_PORT_WORDS, PLAN_LIST_WORDS, PAIR_WORDS.
const LENGTHS: [u64; 12] = [
    deorasaeng::FRAME_WORDS as u64,
    deorasaeng::TAKE_WORDS as u64,
    deorasaeng::MESSAGE_WORDS as u64,
    deorasaeng::START_WORDS as u64,
    deorasaeng::UNIT_WORDS as u64,
    deorasaeng::COUNTS_WORDS as u64,
    deorasaeng::PLAN_WORDS as u64,
    plan_shape::SEGMENTS as u64,
    plan_shape::UNITS as u64,
    plan_shape::PORTS_LENGTH as u64,
    plan_shape::LISTS_LENGTH as u64,
    plan_shape::BLOCK_SIZE as u64,
];

// The claim states, and the address of a unit that has none.
fn states() -> [u64; 5] {
    [
        Claim::Unstarted.word(),
        Claim::Claiming.word(),
        Claim::Claimed.word(),
        Claim::Lost.word(),
        unit::NO_ADDRESS as u64,
    ]
}

// The claim events.
fn events() -> [u64; 8] {
    [
        Event::Nothing.number() as u64,
        Event::Withdrew.number() as u64,
        Event::Defended.number() as u64,
        Event::Displaced.number() as u64,
        Event::Recorded.number() as u64,
        Event::Refreshed.number() as u64,
        Event::TookOver(1).number() as u64,
        Event::Beaten.number() as u64,
    ]
}

// Why a frame crossed or not.
fn reasons() -> [u64; 7] {
    [
        Reason::NotAsked.number() as u64,
        Reason::Permanent.number() as u64,
        Reason::Cleared.number() as u64,
        Reason::ListedInPass.number() as u64,
        Reason::NotListedInBlock.number() as u64,
        Reason::StoppedAsListed.number() as u64,
        Reason::StoppedAsNotListed.number() as u64,
    ]
}

// ---- the words of answers: each value that was told stands at its place
// A frame's answer that tells 1 to 8.
fn frame_answer() -> [u64; deorasaeng::FRAME_WORDS] {
    let mut answer = [0u64; deorasaeng::FRAME_WORDS];
    let told = FrameAnswer {
        consumed: true,
        accepted: 2,
        lost: 3,
        event: Event::TookOver(4),
        unsent: 5,
        compared: 7,
        reasons: 8,
    };
    flat_answers::tell_frame(&mut answer, told);
    answer
}

// CONSUMED, ACCEPTED, LOST, EVENT, OLD_NAME, OWN_LOST, COMPARED, REASONS.
const FRAME_VALUES: [u64; 8] = [1, 2, 3, 6, 4, 5, 7, 8];

// A take's answer: a frame is given, its identifier 2, its length 3.
fn take_answer() -> [u64; deorasaeng::TAKE_WORDS] {
    let mut answer = [0u64; deorasaeng::TAKE_WORDS];
    let mut bytes = [0u8; flat_answers::FRAME_BYTES];
    let f = Frame {
        id: 2,
        len: 3,
        bytes: 0,
    };
    flat_answers::tell_taken(&mut answer, &mut bytes, Some(f));
    answer
}

// GIVEN, ID, LENGTH.
const TAKE_VALUES: [u64; 3] = [1, 2, 3];

// The answer to a Delete that is refused with 17: of 65265 and 65266 pair 1 to 3 lists the first.
fn message_answer(words: &mut [u64]) -> [u64; deorasaeng::MESSAGE_WORDS] {
    tool(words, b"\x06\x13\x01\xF1\xFE\x00\xFF\xFF");
    message(words, 1, 0x21, b"\x03\x13\xF1\xFE\x00\xF2\xFE\x00").answer
}

// PGN, WRITTEN, ENTRY, TO, ABSENT: it is acknowledged in 8 bytes.
const MESSAGE_VALUES: [u64; 5] = [59392, 8, 2, 3, 65266];

// START_OWN_LOST, START_STATE: no port lost the claim, and 1 is Claiming.
const START_VALUES: [u64; 2] = [0, 1];

// The answer about a unit that is Lost, 3, with 4 to 7 for the rest.
fn unit_answer() -> [u64; deorasaeng::UNIT_WORDS] {
    let mut answer = [0u64; deorasaeng::UNIT_WORDS];
    let told = Unit {
        claim: Claim::Lost,
        address: 4,
        preferred: 5,
        name: 6,
        ports: 7,
    };
    flat_answers::tell_unit(&mut answer, told);
    answer
}

// UNIT_STATE, UNIT_ADDRESS, UNIT_PREFERRED, UNIT_NAME, UNIT_PORTS.
const UNIT_VALUES: [u64; 5] = [3, 4, 5, 6, 7];

// Counts of 1 to 8 waiting, 9 accepted and 10 taken.
fn counts_answer() -> [u64; deorasaeng::COUNTS_WORDS] {
    let mut answer = [0u64; deorasaeng::COUNTS_WORDS];
    let told = Tally {
        waiting: [1, 2, 3, 4, 5, 6, 7, 8],
        accepted: 9,
        taken: 10,
    };
    flat_answers::tell_counts(&mut answer, told);
    answer
}

// COUNTS_WAITING, COUNTS_ACCEPTED, COUNTS_TAKEN.
const COUNTS_VALUES: [u64; 3] = [1, 9, 10];

// The lengths and numbers that stand in the header before the words of the answers.
fn published(header: &mut Header<impl Print>, words: &mut [u64]) {
    header.put_all(&plan_numbers());
    header.put_all(&pgns(words));
    header.put_all(&PORT_COUNTS);
    header.put_all(&record_lengths());
    // RECORD_WORDS_2, 3, 5, 6, 7, 8
    for ports in 2..9 {
        if ports != 4 {
            header.put(Unit::record_length(ports) as u64);
        }
    }
    header.put_all(&LENGTHS);
}

// What a frame, a take and a message are answered with, and the reasons.
fn answers(header: &mut Header<impl Print>, words: &mut [u64]) {
    header.put_places(&frame_answer(), &FRAME_VALUES);
    header.put_all(&reasons());
    header.put_places(&take_answer(), &TAKE_VALUES);
    header.put_places(&message_answer(words), &MESSAGE_VALUES);
}

// What Start tells, what is read of the unit and of a port, states and events.
fn readings(header: &mut Header<impl Print>, words: &mut [u64]) {
    header.put_places(&claim(words), &START_VALUES);
    header.put_places(&unit_answer(), &UNIT_VALUES);
    header.put_places(&counts_answer(), &COUNTS_VALUES);
    header.put_all(&states());
    header.put_all(&events());
}

// The header.
fn write_header(rt: &impl Print, text: &[u8]) {
    let mut header = Header { rt, rest: text };
    let mut words = [0u64; Unit::RECORD_LENGTH];
    early_numbers(&mut header, &mut words);
    claim(&mut words);
    claimed_numbers(&mut header, &mut words);
    claim(&mut words);
    published(&mut header, &mut words);
    answers(&mut header, &mut words);
    readings(&mut header, &mut words);
    let _ = rt.write_all(header.rest);
}

fn main(rt: HostRuntime) {
    let mut text = [0u8; MOST];
    let n = bench_io::read_full(&mut rt.stdin(), &mut text);
    write_header(&rt, &text[..n]);
}
