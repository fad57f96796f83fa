// Candump's text from standard input as a log on standard output. A refused line writes no record and is told on standard error, as its place from 1 and its
// number. With --map can0=1,vcan1=2 the text is as `candump -l` writes it: what is no 29-bit data frame of these interfaces is passed over and counted there;
// with --bitrate 250000 behind it, takes stand where buses of that rate would send.
#![tactic(auto)]

mod buffer;
mod buses;

ghost use Rattle.std.specs.Prelude.{◌≤◌, length, IfSome};

use bench_io::Pieces;
use bench_records::FRAME_SIZE;
use buffer::Buffer;
use buses::Buses;
use candump_log::Reason;
use line_parts::arguments;
use std::env::Env;

// The bytes that are kept of a line: more than any line has that is a frame's. A longer one is cut, and has no line feed then.
const LINE: usize = 256;

// The bytes that a line comes to at most: its record, and a take for each frame that waits at four ports.
const ROOM: usize = 271;

// The bytes of a read, and the most of an argument.
const BLOCK: usize = 4096;

// The bytes of records that are kept at a time.
const RECORDS: usize = 65536;

// What lines are passed over for, in the order of the reasons.
const REASONS: usize = 6;

const WORDS: [&[u8]; REASONS] = [
    b"passed over, interface not in the map: ",
    b"passed over, 11-bit identifier: ",
    b"passed over, remote frame: ",
    b"passed over, CAN FD frame: ",
    b"passed over, error frame: ",
    b"passed over, no line of candump's: ",
];

// What the arguments ask for: a map, which is empty for the strict form, and a bit rate for takes.
#[derive(Drop)]
struct Arguments {
    map: Buffer<BLOCK>,
    rate: Option<u64>,
}

// The text as far as it is turned.
#[derive(Drop)]
struct Text<'a, R: Print + Eprint> {
    rt: &'a R,
    map: &'a [u8],
    buses: Buses,
    // the line that has begun, and the lines before it
    line: Buffer<LINE>,
    passed: u64,
    // the records that are to be written, and whether some could not be
    records: Buffer<RECORDS>,
    failed: bool,
    // the lines of a real bus that were turned, and those passed over by their reasons
    turned: u64,
    passed_over: [u64; REASONS],
}

// The record of a line as `candump -l` writes it, or why it is passed over.
fn mapped_record(map: &[u8], line: &[u8]) -> Result<[u8; FRAME_SIZE], Reason> {
    let mut space = [0u8; candump_log::ROOM];
    let end = candump_log::rewrite(map, line, &mut space)?;
    let strict = &space[..end];
    let mut record = [0u8; FRAME_SIZE];
    match bench_records::to_record(strict, &mut record) {
        Ok(()) => Ok(record),
        Err(_) => Err(candump_log::why_no_frame(strict)),
    }
}

impl<R: Print + Eprint> Text<'_, R> {
    // The records that are there, written.
    fn flush(&mut self) {
        if !bench_io::write(self.rt, self.records.as_slice()) {
            self.failed = true;
        }
        self.records.clear();
    }

    // A line as `candump -l` writes it: a frame's record stands behind the takes that come before it. What is passed over is counted.
    fn turn_mapped(&mut self) {
        match mapped_record(self.map, self.line.as_slice()) {
            Ok(record) => {
                self.turned = self.turned.wrapping_add(1);
                let time = buses::time_of(self.line.as_slice());
                self.buses.before(record[1], time, &mut self.records);
                self.buses.arrive(record[1], time);
                self.records.push(&record);
            }
            Err(reason) => {
                let count = &mut self.passed_over[reason as usize];
                *count = count.wrapping_add(1);
            }
        }
    }

    // A line of the strict form. A refusal is told.
    fn turn_strict(&mut self) {
        let mut record = [0u8; FRAME_SIZE];
        match bench_records::to_record(self.line.as_slice(), &mut record) {
            Ok(()) => self.records.push(&record),
            Err(refusal) => bench_io::tell_refused(self.rt, self.passed, refusal.number()),
        }
    }

    // A line that has ended, as records behind those that are to be written.
    fn end_line(&mut self) {
        self.passed = self.passed.wrapping_add(1);
        if self.map.is_empty() {
            self.turn_strict();
        } else {
            self.turn_mapped();
        }
        self.line.clear();
    }

    // One byte of text: the line goes on, or is whole. Records are written where a line might not have room behind them.
    fn feed(&mut self, byte: u8) {
        self.line.push(&[byte]);
        if byte == b'\n' {
            if self.records.room() < ROOM {
                self.flush();
            }
            self.end_line();
        }
    }

    // The end of the text: a last line without its line feed, which as `candump -l` writes it is a frame all the same, and in the strict form none; and the takes of what
    // waits then.
    fn end_text(&mut self) {
        if !self.line.is_empty() {
            if !self.map.is_empty() {
                self.line.push(b"\n");
            }
            self.end_line();
        }
        self.flush();
        if !self.failed {
            self.buses.drain(&mut self.records);
            self.flush();
        }
    }

    // What became of the lines: what was passed over, and that none was turned, where there were some.
    fn tell_end(&self, err: &impl Print) {
        let mut over: u64 = 0;
        for (count, words) in self.passed_over.iter().zip(WORDS) {
            if 0 < *count {
                bench_io::tell(err, words, *count);
            }
            over = over.wrapping_add(*count);
        }
        if 0 < over && self.turned == 0 {
            bench_io::tell(err, b"nothing was turned, of lines: ", over);
        }
    }
}

impl<R: Print + Eprint> Pieces for Text<'_, R> {
    fn take(&mut self, piece: &[u8], last: bool) -> Option<usize> {
        if last {
            self.end_text();
            return None;
        }
        for byte in piece {
            self.feed(*byte);
        }
        self.flush();
        if self.failed {
            return None;
        }
        Some(piece.len())
    }
}

// An argument, which is empty where there is none or it is longer.
fn argument(rt: &impl Env, place: usize) -> Buffer<BLOCK> {
    let mut bytes = [0u8; BLOCK];
    let len = arguments::put(rt, place, &mut bytes);
    Buffer { bytes, len }
}

// The bit rate behind a map: a number that is not 0.
fn read_rate(rt: &impl Env) -> Option<u64> {
    if !arguments::is_given(rt, 4) || arguments::is_given(rt, 5) {
        return None;
    }
    if argument(rt, 3).as_slice() != b"--bitrate".as_slice() {
        return None;
    }
    let rate = buses::number(argument(rt, 4).as_slice());
    if rate == 0 { None } else { Some(rate) }
}

// None where the arguments ask for nothing that is known.
fn read_arguments(rt: &impl Env) -> Option<Arguments> {
    if !arguments::is_given(rt, 1) {
        return Some(Arguments {
            map: Buffer::new(),
            rate: None,
        });
    }
    let map = argument(rt, 2);
    if argument(rt, 1).as_slice() != b"--map".as_slice() || !candump_log::is_map(map.as_slice()) {
        return None;
    }
    if !arguments::is_given(rt, 3) {
        return Some(Arguments { map, rate: None });
    }
    let rate = Some(read_rate(rt)?);
    Some(Arguments { map, rate })
}

fn main(rt: HostRuntime) {
    let Some(asked) = read_arguments(&rt) else {
        let _ = rt.eprintln(
            "arguments: none, or --map INTERFACE=PORT,INTERFACE=PORT.. with ports 1 to 4, and behind it --bitrate RATE",
        );
        return;
    };
    let mut text = Text {
        rt: &rt,
        map: asked.map.as_slice(),
        buses: Buses::new(asked.rate),
        line: Buffer::new(),
        passed: 0,
        records: Buffer::new(),
        failed: false,
        turned: 0,
        passed_over: [0u64; REASONS],
    };
    let mut block = [0u8; BLOCK];
    bench_io::read_pieces(&rt, &mut rt.stdin(), &mut block, &mut text);
    text.tell_end(&rt.stderr());
}
