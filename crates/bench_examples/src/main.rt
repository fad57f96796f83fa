// Examples of the bench log: the log of docs/RULES.md and one with every number, run in pieces of several sizes with little room and with much; lines of
// a real bus. Each stands beside what came of it.
#![tactic(auto)]

use bench_records::FRAME_SIZE;
use unit::Unit;

fn print(rt: &impl Print, words: &[u8]) {
    let _ = rt.write_all(words);
}

// Words, a number, a line's end.
fn print_number(rt: &impl Print, words: &[u8], number: u64) {
    print(rt, words);
    let _ = rt.println(number);
}

// A log that is run in pieces: one that is used up, but for half a record, is followed by the next.
fn run_pieces(rt: &impl Print, words: &mut [u64], log: &[u8], size: usize, out: &mut [u8]) {
    let mut used = 0;
    let mut end = 0;
    'pieces: for _ in 0..10000 {
        let ran = bench_log::run(words, &log[used..end], end == log.len(), out);
        print(rt, &out[..ran.written]);
        if ran.over {
            return;
        }
        used += ran.used;
        if ran.used == 0 {
            end += size.min(log.len() - end);
        }
    }
}

fn show_run(rt: &impl Print, words: &[u8], log: &[u8], size: usize, out: &mut [u8]) {
    print(rt, words);
    print_number(rt, b", in pieces of ", size as u64);
    let mut record = [0u64; Unit::RECORD_LENGTH];
    let _ = Unit::power_on(&mut record, 0, 0);
    run_pieces(rt, &mut record, log, size, out);
}

// A log at once and byte by byte, with much room and with little.
fn show_log(rt: &impl Print, words: &[u8], log: &[u8]) {
    let mut much = [0u8; 1024];
    show_run(rt, words, log, 1024, &mut much);
    let mut little = [0u8; bench_log::LINE_ROOM];
    for size in [1, 7] {
        show_run(rt, words, log, size, &mut little);
    }
}

// A line of a real bus.
fn show_mapped(rt: &impl Print, line: &[u8]) {
    print(rt, line);
    let mut space = [0u8; candump_log::ROOM];
    let reason = match candump_log::rewrite(b"can0=1,vcan1=4", line, &mut space) {
        Err(reason) => reason,
        Ok(end) => {
            let strict = &space[..end];
            let mut record = [0u8; FRAME_SIZE];
            if bench_records::to_record(strict, &mut record).is_ok() {
                print(rt, b"  ");
                print(rt, strict);
                return;
            }
            candump_log::why_no_frame(strict)
        }
    };
    print_number(rt, b"  passed over for reason ", reason as u64 + 1);
}

fn show_is_map(rt: &impl Print, map: &[u8]) {
    print(rt, map);
    if candump_log::is_map(map) {
        print(rt, b": a map\n");
    } else {
        print(rt, b": no map\n");
    }
}

// The example of docs/RULES.md, "The bench log", and a log that meets 1, 3, 4, 5, then 24 or 25.
const LOGS: [(&[u8], &[u8]); 3] = [
    (
        b"the example",
        b"\x01\x01\x18\xFE\xF1\x21\x00\x00\x00\x00\x00\x00\x00\x00\x00\x02\x02",
    ),
    (
        b"a log with an unknown kind behind it",
        b"\x01\x05\x20\x00\x00\x00\x09\x01\x02\x03\x04\x05\x06\x07\x08\x01\x01\x20\x00\x00\x00\x09\x01\x02\x03\x04\x05\x06\x07\x08\x01\x01\x18\xFE\xF1\x21\x09\x01\x02\x03\x04\x05\x06\x07\x08\x01\x01\x18\xFE\xF1\xFF\x00\x01\x02\x03\x04\x05\x06\x07\x08\x01\x01\x18\xFE\xF1\x21\x02\x01\x02\x03\x04\x05\x06\x07\x08\x01\x03\x0C\xF0\x04\x00\x08\x01\x02\x03\x04\x05\x06\x07\x08\x02\x02\x02\x04\x02\x02\x02\x02\x02\x00\x03\x01\x01",
    ),
    (
        b"a log that is cut short",
        b"\x01\x05\x20\x00\x00\x00\x09\x01\x02\x03\x04\x05\x06\x07\x08\x01\x01\x20\x00\x00\x00\x09\x01\x02\x03\x04\x05\x06\x07\x08\x01\x01\x18\xFE\xF1\x21\x09\x01\x02\x03\x04\x05\x06\x07\x08\x01\x01\x18\xFE\xF1\xFF\x00\x01\x02\x03\x04\x05\x06\x07\x08\x01\x01\x18\xFE\xF1\x21\x02\x01\x02\x03\x04\x05\x06\x07\x08\x01\x03\x0C\xF0\x04\x00\x08\x01\x02\x03\x04\x05\x06\x07\x08\x02\x02\x02\x04\x02\x02\x02\x02\x02\x00\x01\x09",
    ),
];

const LINES: [&[u8]; 13] = [
    b"(1794789563.773934) can0 18FEF121#0102 R\n",
    b"(1794789563.773934) vcan1 18fef121#0aff\r\n",
    b"(1794789563.773934) vcan1 00000001#1122334455667788 T\r\n",
    b"(1794789563.773934) can7 18FEF121#0102\n",
    b"(1794789563.773934) can0 123#0102\n",
    b"(1794789563.773934) can0 18FEF121#R\n",
    b"(1794789563.773934) can0 18FEF121##1112233445566778899AABBCC\n",
    b"(1794789563.773934) can0 123##10102\n",
    b"(1794789563.773934) can0 20000004#0000000000000000\n",
    b"(1794789563.773934) can0 18FEF121#010203040506070809\n",
    b"can0  18FEF121   [2]  01 02\n",
    b"(1794789563.773934) can0 18FEF121#0102 X\n",
    b"(1794789563.773934) can0 18FEF121#0102",
];

const MAPS: [&[u8]; 11] = [
    b"can0=1",
    b"can0=1,vcan1=4",
    b"",
    b"can0",
    b"can0=",
    b"can0=5",
    b"can0=12",
    b"=1",
    b"can0=1,",
    b"can0=1,,can1=2",
    b",can0=1",
];

fn main(rt: HostRuntime) {
    for (words, log) in LOGS {
        show_log(&rt, words, log);
    }
    for line in LINES {
        show_mapped(&rt, line);
    }
    for map in MAPS {
        show_is_map(&rt, map);
    }
}
