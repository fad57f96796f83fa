// What `replay`, which runs the functions that C calls on scripts, does not show of them: storage of a wrong length, refused with 2, or with 1 where the port is wrong too,
// and left as it was; power-on of four ports; a queue of the published size; totals beyond 2^16; plans, with words that no plan's text can have, and a path through fifteen units. A line for some calls: their
// numbers, and the words of the answer, which had 9 in each.
#![tactic(auto)]

ghost use Rattle.std.specs.Prelude.{◌<◌};

use answer_lines::{text, words};
use unit::Unit;

const NAME: u64 = 0x20001C000AC00123;

// A length that no answer has.
const WRONG: usize = 4;

fn tell(rt: &impl Print, word: &[u8], given: &[u64], answer: &[u64]) {
    text(rt, word);
    words(rt, given);
    words(rt, answer);
    text(rt, b"\n");
}

// A record that is a word short, and answers.
fn of_the_unit(rt: &impl Print, record: &mut [u64]) {
    let mut short = [0u64; Unit::RECORD_LENGTH - 1];
    let mut answer = [9u64; WRONG];
    let given = [
        deorasaeng::deorasaeng_power_on(&mut short, NAME, 0x90) as u64,
        deorasaeng::deorasaeng_quiet(&mut short) as u64,
        deorasaeng::deorasaeng_start(record, &mut answer) as u64,
        deorasaeng::deorasaeng_unit(record, &mut answer) as u64,
    ];
    tell(
        rt,
        b"power-on and Quiet on a word less, Start and unit on 4:",
        &given,
        &answer,
    );
}

// Answers to the calls of a port.
fn of_a_port(rt: &impl Print, record: &mut [u64], word: &[u8], port: u32) {
    let mut answer = [9u64; WRONG];
    let mut bytes = [0u8; flat_answers::FRAME_BYTES];
    let given = [
        deorasaeng::deorasaeng_frame(record, port, 0x18FEF126, b"\x01", &mut answer) as u64,
        deorasaeng::deorasaeng_take(record, port, &mut answer, &mut bytes) as u64,
        deorasaeng::deorasaeng_message(record, port, 0x21, b"\x01", &mut bytes, &mut answer) as u64,
        deorasaeng::deorasaeng_counts(record, port, &mut answer) as u64,
    ];
    tell(rt, word, &given, &answer);
}

// The bytes of a take.
fn of_a_take(rt: &impl Print, record: &mut [u64], word: &[u8], port: u32) {
    let mut answer = [9u64; deorasaeng::TAKE_WORDS];
    let mut bytes = [0u8; flat_answers::FRAME_BYTES - 1];
    let given = [deorasaeng::deorasaeng_take(record, port, &mut answer, &mut bytes) as u64];
    tell(rt, word, &given, &answer);
}

// The bytes of a reply. Of a message that writes none 0 is told.
fn of_a_reply(rt: &impl Print, record: &mut [u64], word: &[u8], port: u32) {
    let mut answer = [9u64; deorasaeng::MESSAGE_WORDS];
    let mut bytes = [0u8; refusals::LONGEST_MESSAGE - 1];
    let given = [
        deorasaeng::deorasaeng_message(record, port, 0x21, b"\x01", &mut bytes, &mut answer) as u64,
    ];
    tell(rt, word, &given, &answer);
}

fn wrong_answers(rt: &impl Print, record: &mut [u64]) {
    of_the_unit(rt, record);
    let ports: [(&[u8], u32); 2] = [
        (b"port 1, frame, take, message and counts on 4 words:", 1),
        (b"port 5, the same:", 5),
    ];
    for (word, port) in ports {
        of_a_port(rt, record, word, port);
    }
}

fn wrong_bytes(rt: &impl Print, record: &mut [u64]) {
    of_a_take(rt, record, b"port 1, a take of 7 bytes:", 1);
    of_a_take(rt, record, b"port 5, the same:", 5);
    of_a_reply(rt, record, b"port 1, a reply of 1,784 bytes:", 1);
    of_a_reply(rt, record, b"port 5, the same:", 5);
}

// A frame from port 2.
fn send(lent: &mut [u64], answer: &mut [u64]) -> u32 {
    deorasaeng::deorasaeng_frame(lent, 2, 0x18FEF126, b"\x01", answer)
}

// As many as a queue holds, which wait at the other ports.
fn fill(lent: &mut [u64], answer: &mut [u64]) {
    for _ in 0..Unit::QUEUE_SIZE {
        send(lent, answer);
    }
}

// One more is lost at each.
fn full(rt: &impl Print, record: &mut [u64]) {
    let mut answer = [9u64; deorasaeng::FRAME_WORDS];
    fill(record, &mut answer);
    let given = [send(record, &mut answer) as u64];
    tell(rt, b"32 waiting, one more:", &given, &answer);
}

// A frame, and a take at a port where it waits, 70,000 times.
fn pass_on(lent: &mut [u64], answer: &mut [u64], taken: &mut [u64], bytes: &mut [u8]) {
    for _ in 0..70000 {
        send(lent, answer);
        deorasaeng::deorasaeng_take(lent, 1, taken, bytes);
    }
}

// The counts of port 1 then, where 32 wait all the while: no total is cut to 16 bits.
fn many(rt: &impl Print, record: &mut [u64]) {
    let mut answer = [9u64; deorasaeng::FRAME_WORDS];
    let mut taken = [9u64; deorasaeng::TAKE_WORDS];
    let mut bytes = [0u8; flat_answers::FRAME_BYTES];
    let mut counts = [9u64; deorasaeng::COUNTS_WORDS];
    deorasaeng::deorasaeng_take(record, 1, &mut taken, &mut bytes);
    pass_on(record, &mut answer, &mut taken, &mut bytes);
    let given = [deorasaeng::deorasaeng_counts(record, 1, &mut counts) as u64];
    tell(rt, b"70,000 more taken at 1, its counts:", &given, &counts);
}

// What is asked of a plan beside its ports and lists.
#[derive(Clone, Copy)]
struct Question {
    segments: u32,
    units: u32,
    first: u32,
    pgn: u32,
}

// Three segments and two units, from segment 1.
fn about(pgn: u32) -> Question {
    Question {
        segments: 3,
        units: 2,
        first: 1,
        pgn,
    }
}

fn plan(
    rt: &impl Print,
    ports: &[u64; plan_shape::PORTS_LENGTH],
    lists: &[u64],
    word: &[u8],
    q: Question,
) {
    let mut answer = [9u64; deorasaeng::PLAN_WORDS];
    let given = [deorasaeng::deorasaeng_plan(
        ports,
        lists,
        q.segments,
        q.units,
        q.first,
        q.pgn,
        &mut answer,
    ) as u64];
    tell(rt, word, &given, &answer);
}

// Unit 1 joins segments 1 and 2, unit 2 joins 2 and 3.
fn joined() -> [u64; plan_shape::PORTS_LENGTH] {
    let mut ports = [0u64; plan_shape::PORTS_LENGTH];
    ports[0] = 1;
    ports[1] = 2;
    ports[8] = 2;
    ports[9] = 3;
    ports
}

// Unit 1 lets 65097 alone through from segment 1 to 2; then unit 2 joins 1 too.
fn ask_plan(rt: &impl Print, lists: &[u64]) {
    let mut ports = joined();
    let asked: [(&[u8], u32); 3] = [
        (b"plan, 65097 from 1:", 65097),
        (b"plan, 61444 from 1:", 61444),
        (b"plan, 61185 from 1:", 61185),
    ];
    for (word, pgn) in asked {
        plan(rt, &ports, lists, word, about(pgn));
    }
    let short = [0u64; plan_shape::PORTS_LENGTH];
    plan(
        rt,
        &ports,
        &short,
        b"plan, lists of 128 words:",
        about(65097),
    );
    ports[10] = 1;
    plan(rt, &ports, lists, b"plan, a ring:", about(65097));
}

// Numbers beside the words.
fn ask_numbers(rt: &impl Print, lists: &[u64]) {
    let ports = joined();
    let q = about(65097);
    plan(
        rt,
        &ports,
        lists,
        b"plan, from 0:",
        Question { first: 0, ..q },
    );
    plan(
        rt,
        &ports,
        lists,
        b"plan, from 4 of 3:",
        Question { first: 4, ..q },
    );
    plan(
        rt,
        &ports,
        lists,
        b"plan, 17 units:",
        Question { units: 17, ..q },
    );
    plan(
        rt,
        &ports,
        lists,
        b"plan, 17 segments:",
        Question { segments: 17, ..q },
    );
}

// Segments on ports: of unit 2 and of unit 3, which is not in use.
fn ask_ports(rt: &impl Print, lists: &[u64]) {
    let mut ports = joined();
    ports[16] = 99;
    plan(rt, &ports, lists, b"plan, 99 on unit 3 of 2:", about(65097));
    ports[10] = 4;
    plan(rt, &ports, lists, b"plan, segment 4 of 3:", about(65097));
}

// A pair's first words: of unit 1 from its first port to its second, and of a pair of unit 3, which is not in use.
fn ask_words(rt: &impl Print, word: &[u8], pair: [u64; 3]) {
    let ports = joined();
    let mut lists = [0u64; plan_shape::LISTS_LENGTH];
    lists[..3].copy_from_slice(&pair);
    lists[2 * plan_shape::PAIRS * plan_shape::BLOCK_SIZE] = 3;
    plan(rt, &ports, &lists, word, about(65097));
}

// Mode, count and PGN of a pair.
const PAIRS: [(&[u8], [u64; 3]); 8] = [
    (b"plan, mode 1, 65097 listed:", [1, 1, 65097]),
    (b"plan, mode 3:", [3, 1, 65097]),
    (b"plan, mode 2^32 + 2:", [4294967298, 1, 65097]),
    (b"plan, 33 listed:", [2, 33, 65097]),
    (b"plan, 64 listed:", [2, 64, 65097]),
    (b"plan, 61185 listed:", [2, 1, 61185]),
    (b"plan, 2^18 listed:", [1, 1, 262144]),
    (b"plan, cleared, 33 of 61185 listed:", [0, 33, 61185]),
];

fn wrong_words(rt: &impl Print) {
    for (word, pair) in PAIRS {
        ask_words(rt, word, pair);
    }
}

// Sixteen units: the second to the last are a chain from segment 1 to 16, the first is on segment 1 alone.
fn chained() -> [u64; plan_shape::PORTS_LENGTH] {
    let mut ports = [0u64; plan_shape::PORTS_LENGTH];
    ports[0] = 1;
    for i in 1..plan_shape::UNITS {
        ports[plan_shape::PORTS * i] = i as u64;
        ports[plan_shape::PORTS * i + 1] = i as u64 + 1;
    }
    ports
}

// What hears 65097 from a segment of sixteen.
fn heard_by(
    ports: &[u64; plan_shape::PORTS_LENGTH],
    lists: &[u64; plan_shape::LISTS_LENGTH],
    first: u32,
) -> u64 {
    let mut answer = [9u64; deorasaeng::PLAN_WORDS];
    deorasaeng::deorasaeng_plan(ports, lists, 16, 16, first, 65097, &mut answer);
    answer[0]
}

// The same where the unit at a place lets nothing through from its first port to its second.
fn heard_past(ports: &[u64; plan_shape::PORTS_LENGTH], place: usize, first: u32) -> u64
    requires { place < 16 }
{
    let mut lists = [0u64; plan_shape::LISTS_LENGTH];
    lists[plan_shape::PAIRS * plan_shape::BLOCK_SIZE * place] = 2;
    heard_by(ports, &lists, first)
}

// The same for each unit, first to last.
fn shut_in_turn(ports: &[u64; plan_shape::PORTS_LENGTH]) -> [u64; plan_shape::UNITS] {
    let mut heard = [0u64; plan_shape::UNITS];
    for (i, told) in heard.iter_mut().enumerate() {
        *told = heard_past(ports, i, 1);
    }
    heard
}

fn chains(rt: &impl Print) {
    let ports = chained();
    let heard = shut_in_turn(&ports);
    tell(rt, b"chain from 1, unit 1 to 16 shut:", &heard, &[]);
    let back = [heard_past(&ports, 15, 16)];
    tell(
        rt,
        b"chain from 16, unit 16 shut the other way:",
        &back,
        &[],
    );
}

fn plans(rt: &impl Print) {
    let mut lists = [0u64; plan_shape::LISTS_LENGTH];
    lists[0] = 2;
    lists[1] = 1;
    lists[2] = 65097;
    ask_plan(rt, &lists);
    ask_numbers(rt, &lists);
    ask_ports(rt, &lists);
}

fn main(rt: HostRuntime) {
    let mut space = [0u64; Unit::RECORD_LENGTH];
    let record: &mut [u64] = &mut space;
    deorasaeng::deorasaeng_power_on(record, NAME, 0x90);
    wrong_answers(&rt, record);
    wrong_bytes(&rt, record);
    full(&rt, record);
    many(&rt, record);
    plans(&rt);
    wrong_words(&rt);
    chains(&rt);
}
