// A log of frames and takes that is run on a unit, a line for each record.
#![tactic(auto)]

ghost use Rattle.std.specs.Prelude.{◌≡◌, ◌≤◌, ◌<◌, length, get_or, replicate};
ghost use Rattle.unit.specs.Count.{ports_of};
ghost use Rattle.bridge.specs.Told.{frame_told, take_told};
ghost use Rattle.bridge.specs.Calls.{FrameIn, TakeOut, Framing};
ghost use Rattle.text.specs.Writing.{Writing};
ghost use Rattle.bench_records.specs.Records.{id_of};
ghost use Rattle.bench_lines.specs.Lines.{line_room};
ghost use Rattle.bench_log.specs.Log.{bytes_in};
ghost use Rattle.bench_log.specs.Step.{frame_text, take_text, Doing, Cutting, Stepping};
ghost use Rattle.bench_log.specs.Run.{Running};

use bench_records::{FRAME_SIZE, TAKE_SIZE};
use bridge::FrameAnswer;
use checks::Refusal;
use queue::Frame;

// Room for the longest line.
pub const LINE_ROOM: usize = 39;

// What a step did: the bytes of the log that it used, those of the line that it wrote, and whether the run is over.
#[derive(Clone, Copy)]
pub struct Stepped {
    pub used: usize,
    pub written: usize,
    pub over: bool,
}

// What a frame's call answered.
fn put_frame(out: &mut [u8], r: Result<FrameAnswer, Refusal>) -> usize
    requires { line_room ≤ length out.old }
    ensures { Writing out.old out.new 0 (frame_text (frame_told r)) result }
{
    match r {
        Ok(a) => bench_lines::put_passed(out, a.accepted, a.lost),
        Err(refusal) => bench_lines::put_refused(out, refusal.number()),
    }
}

// What a take's call answered.
fn put_take(out: &mut [u8], r: Result<Option<Frame>, Refusal>) -> usize
    requires { line_room ≤ length out.old }
    ensures { Writing out.old out.new 0 (take_text (take_told r)) result }
{
    match r {
        Ok(taken) => bench_lines::put_taken(out, taken),
        Err(refusal) => bench_lines::put_refused(out, refusal.number()),
    }
}

// The call of a frame that is said to be longer than eight bytes: none of a record's bytes is read.
fn call_long(words: &mut [u64], port: u32, id: u32, len: usize) -> Result<FrameAnswer, Refusal>
    requires { len ≤ 255 }
    ensures { Framing (ports_of words.old) words.old words.new port id (replicate len 0) (frame_told result) }
{
    let none = [0u8; 255];
    let bytes: &[u8] = &none;
    bridge::frame(words, port, id, &bytes[0..len])
}

// The call of a frame's record, which is whole.
fn call_frame(words: &mut [u64], log: &[u8]) -> Result<FrameAnswer, Refusal>
    requires { 15 ≤ length log.now }
    ensures { Framing (ports_of words.old) words.old words.new (get_or log.now 1 0) (id_of log.now) (bytes_in log.now) (frame_told result) }
{
    let port = u32::from(log[1]);
    let id = bench_records::id_of(log);
    let len = usize::from(log[6]);
    if 8 < len {
        return call_long(words, port, id, len);
    }
    let end = 7 + len;
    bridge::frame(words, port, id, &log[7..end])
}

// A frame's record.
fn do_frame(words: &mut [u64], log: &[u8], out: &mut [u8]) -> usize
    requires { (15 ≤ length log.now) × (line_room ≤ length out.old) }
    ensures { Doing (ports_of words.old) words.old words.new (FrameIn (get_or log.now 1 0) (id_of log.now) (bytes_in log.now)) out.old out.new result }
{
    let r = call_frame(words, log);
    put_frame(out, r)
}

// A take's record.
fn do_take(words: &mut [u64], port: u32, out: &mut [u8]) -> usize
    requires { line_room ≤ length out.old }
    ensures { Doing (ports_of words.old) words.old words.new (TakeOut port) out.old out.new result }
{
    let r = bridge::take(words, port);
    put_take(out, r)
}

// A log that ends in the middle of a record: cut short if nothing follows, else there is more to read.
fn cut(last: bool, out: &mut [u8]) -> Stepped
    requires { line_room ≤ length out.old }
    ensures { Cutting last out.old out.new result }
{
    if last {
        let written = bench_lines::put_refused(out, bench_records::Refusal::CutShort.number());
        return Stepped {
            used: 0,
            written,
            over: true,
        };
    }
    Stepped {
        used: 0,
        written: 0,
        over: false,
    }
}

// A frame's record at the front of a log.
fn step_frame(words: &mut [u64], log: &[u8], last: bool, out: &mut [u8]) -> Stepped
    requires { (line_room ≤ length out.old) × (get_or log.now 0 0 ≡ 1) × (0 < length log.now) }
    ensures { Stepping (ports_of words.old) words.old words.new log.now last out.old out.new result }
{
    if log.len() < FRAME_SIZE {
        return cut(last, out);
    }
    let written = do_frame(words, log, out);
    Stepped {
        used: FRAME_SIZE,
        written,
        over: false,
    }
}

// A take's record at the front of a log.
fn step_take(words: &mut [u64], log: &[u8], last: bool, out: &mut [u8]) -> Stepped
    requires { (line_room ≤ length out.old) × (get_or log.now 0 0 ≡ 2) × (0 < length log.now) }
    ensures { Stepping (ports_of words.old) words.old words.new log.now last out.old out.new result }
{
    if log.len() < TAKE_SIZE {
        return cut(last, out);
    }
    let port = u32::from(log[1]);
    let written = do_take(words, port, out);
    Stepped {
        used: TAKE_SIZE,
        written,
        over: false,
    }
}

// One record at the front of a log, run on a unit; `last` says that nothing follows this log. Without room for the longest line, and without a whole
// record while more may follow, nothing is done.
pub fn step(words: &mut [u64], log: &[u8], last: bool, out: &mut [u8]) -> Stepped
    ensures { Stepping (ports_of words.old) words.old words.new log.now last out.old out.new result }
{
    if out.len() < LINE_ROOM {
        return Stepped {
            used: 0,
            written: 0,
            over: false,
        };
    }
    if log.len() == 0 {
        return Stepped {
            used: 0,
            written: 0,
            over: last,
        };
    }
    let kind = log[0];
    if kind == 1 {
        return step_frame(words, log, last, out);
    }
    if kind == 2 {
        return step_take(words, log, last, out);
    }
    let written = bench_lines::put_refused(out, bench_records::Refusal::UnknownKind.number());
    Stepped {
        used: 0,
        written,
        over: true,
    }
}

// Steps over a piece of a log until the run is over, the piece has no whole record left, or there is no room for a line.
pub fn run(words: &mut [u64], log: &[u8], last: bool, out: &mut [u8]) -> Stepped
    ensures { Running words.old words.new log.now last out.old out.new result }
{
    let mut used = 0;
    let mut written = 0;
    'steps: loop {
        let s = step(words, &log[used..], last, &mut out[written..]);
        used += s.used;
        written += s.written;
        if s.used == 0 {
            return Stepped {
                used,
                written,
                over: s.over,
            };
        }
    }
}
