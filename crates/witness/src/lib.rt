// A second witness of demand 3, by running code: `replay` makes any list of calls on one record, from power-on on, and writes down the answers. Its
// contract says of the whole list what demand 3 says: the answers are the book's.
#![tactic(auto)]

ghost use Rattle.std.specs.Prelude.{◌≡◌, ◌∷◌, ◌*◌, ◌≤◌, length};
ghost use Rattle.unit.specs.Count.{ports_of};
ghost use Rattle.unit.specs.Model.{record_length};
ghost use Rattle.checks.specs.Refusals.{number_in};
ghost use Rattle.bridge.specs.Told.{frame_told, take_told, unit_told, counts_told};
ghost use Rattle.bridge.specs.Calls.{FrameIn, TakeOut, Message, Start, Quiet, ReadUnit, ReadCounts};
ghost use Rattle.demand_3.specs.Demand3.{ToFrame, ToTake, ToUnit, ToCounts};
ghost use Rattle.witness.specs.Encoding.{call_words, answer_words, call_from, call_of, padded, code};
ghost use Rattle.witness.specs.Replay.{Stepping, Running, Replaying};

use bridge::FrameAnswer;
use checks::Refusal;
use queue::{Frame, Tally};
use unit::Unit;

// The words of a call, and of an answer.
pub const CALL_WORDS: usize = 5;

pub const ANSWER_WORDS: usize = 12;

// An answer's words; 0 stands behind them.
fn put(out: &mut [u64], words: &[u64])
    requires { (length out.old ≡ answer_words) × (length words.now ≤ answer_words) }
    ensures { out.new ≡ padded words.now }
{
    let n = words.len();
    out[..n].copy_from_slice(words);
    out[n..].fill(0);
}

// The number of a refusal, 0 for none.
fn number(r: Result<(), Refusal>) -> u32
    ensures { result ≡ number_in r }
{
    match r {
        Ok(()) => 0,
        Err(refusal) => refusal.number(),
    }
}

// What a frame's call answered.
fn write_frame(r: Result<FrameAnswer, Refusal>, out: &mut [u64])
    requires { length out.old ≡ answer_words }
    ensures { out.new ≡ code (ToFrame (frame_told r)) }
{
    match r {
        Ok(a) => put(
            out,
            &[
                0,
                a.consumed as u64,
                a.accepted as u64,
                a.lost as u64,
                a.unsent as u64,
                a.compared as u64,
                a.event.number() as u64,
                a.event.old_name(),
                a.reasons,
            ],
        ),
        Err(refusal) => put(out, &[refusal.number() as u64]),
    }
}

// What a take answered.
fn write_take(r: Result<Option<Frame>, Refusal>, out: &mut [u64])
    requires { length out.old ≡ answer_words }
    ensures { out.new ≡ code (ToTake (take_told r)) }
{
    match r {
        Ok(Some(f)) => put(out, &[0, 1, f.id as u64, f.len as u64, f.bytes]),
        Ok(None) => put(out, &[0]),
        Err(refusal) => put(out, &[refusal.number() as u64]),
    }
}

// What the unit was told to be.
fn write_unit(r: Result<Unit, Refusal>, out: &mut [u64])
    requires { length out.old ≡ answer_words }
    ensures { out.new ≡ code (ToUnit (unit_told r)) }
{
    match r {
        Ok(unit) => put(
            out,
            &[
                0,
                unit.claim.word(),
                unit.address as u64,
                unit.preferred as u64,
                unit.name,
                unit.ports as u64,
            ],
        ),
        Err(refusal) => put(out, &[refusal.number() as u64]),
    }
}

// What was told to be counted at a port.
fn write_counts(r: Result<Tally, Refusal>, out: &mut [u64])
    requires { length out.old ≡ answer_words }
    ensures { out.new ≡ code (ToCounts (counts_told r)) }
{
    match r {
        Ok(tally) => {
            let [a, b, c, d, e, f, g, h] = tally.waiting;
            put(
                out,
                &[0, a, b, c, d, e, f, g, h, tally.accepted, tally.taken],
            );
        }
        Err(refusal) => put(out, &[refusal.number() as u64]),
    }
}

// The calls, each with its answer written down.
fn frame(words: &mut [u64], port: u32, id: u32, bytes: &[u8], out: &mut [u64])
    requires { (length words.old ≡ record_length (ports_of words.old)) × (length out.old ≡ answer_words) }
    ensures { Stepping words.old words.new (FrameIn port id bytes.now) out.new }
{
    let r = bridge::frame(words, port, id, bytes);
    write_frame(r, out);
}

fn take(words: &mut [u64], port: u32, out: &mut [u64])
    requires { (length words.old ≡ record_length (ports_of words.old)) × (length out.old ≡ answer_words) }
    ensures { Stepping words.old words.new (TakeOut port) out.new }
{
    let r = bridge::take(words, port);
    write_take(r, out);
}

fn message(
    words: &mut [u64],
    port: u32,
    requester: u32,
    payload: &[u8],
    reply: &mut [u8],
    out: &mut [u64],
)
    requires { (length words.old ≡ record_length (ports_of words.old)) × (length out.old ≡ answer_words) }
    ensures { Stepping words.old words.new (Message port requester payload.now (length reply.old)) out.new }
{
    let r = bridge::message(words, port, requester, payload, reply);
    let told = r.told();
    put(
        out,
        &[
            r.number() as u64,
            r.pgn as u64,
            r.length as u64,
            told.entry as u64,
            told.to as u64,
            told.pgn,
        ],
    );
}

fn start(words: &mut [u64], out: &mut [u64])
    requires { (length words.old ≡ record_length (ports_of words.old)) × (length out.old ≡ answer_words) }
    ensures { Stepping words.old words.new Start out.new }
{
    match bridge::start(words) {
        Ok(a) => put(out, &[0, a.unsent as u64, a.claim.word()]),
        Err(refusal) => put(out, &[refusal.number() as u64]),
    }
}

fn quiet(words: &mut [u64], out: &mut [u64])
    requires { (length words.old ≡ record_length (ports_of words.old)) × (length out.old ≡ answer_words) }
    ensures { Stepping words.old words.new Quiet out.new }
{
    let r = bridge::quiet(words);
    put(out, &[number(r) as u64]);
}

fn read_unit(words: &[u64], out: &mut [u64])
    requires { (length words.now ≡ record_length (ports_of words.now)) × (length out.old ≡ answer_words) }
    ensures { Stepping words.now words.now ReadUnit out.new }
{
    let r = bridge::unit(words);
    write_unit(r, out);
}

fn read_counts(words: &[u64], port: u32, out: &mut [u64])
    requires { (length words.now ≡ record_length (ports_of words.now)) × (length out.old ≡ answer_words) }
    ensures { Stepping words.now words.now (ReadCounts port) out.new }
{
    let r = bridge::counts(words, port);
    write_counts(r, out);
}

// One call, by its kind.
fn perform(
    words: &mut [u64],
    kind: u64,
    port: u32,
    argument: u32,
    bytes: &[u8],
    reply: &mut [u8],
    out: &mut [u64],
)
    requires { (length words.old ≡ record_length (ports_of words.old)) × (length out.old ≡ answer_words) }
    ensures { Stepping words.old words.new (call_from kind port argument bytes.now (length reply.old)) out.new }
{
    match kind {
        0 => frame(words, port, argument, bytes, out),
        1 => take(words, port, out),
        2 => message(words, port, argument, bytes, reply, out),
        3 => start(words, out),
        5 => read_unit(words, out),
        6 => read_counts(words, port, out),
        _ => quiet(words, out),
    }
}

// One call, as its words say.
fn step(words: &mut [u64], call: &[u64], bytes: &[u8], reply: &mut [u8], out: &mut [u64])
    requires { (length words.old ≡ record_length (ports_of words.old)) × (length call.now ≡ call_words) × (length out.old ≡ answer_words) }
    ensures { Stepping words.old words.new (call_of bytes.now (length reply.old) call.now) out.new }
{
    let kind = call[0];
    let port = (call[1] % 4294967296) as u32;
    let argument = (call[2] % 4294967296) as u32;
    let end = (call[4] as usize).min(bytes.len());
    let start = (call[3] as usize).min(end);
    perform(words, kind, port, argument, &bytes[start..end], reply, out);
}

// `count` calls, one after the other.
fn run(
    words: &mut [u64],
    calls: &[u64],
    bytes: &[u8],
    reply: &mut [u8],
    answers: &mut [u64],
    count: usize,
)
    requires { (length words.old ≡ record_length (ports_of words.old)) × (call_words * count ≤ length calls.now) × (answer_words * count ≤ length answers.old) }
    ensures { Running words.old words.new calls.now bytes.now (length reply.old) answers.old answers.new count }
{
    for i in 0..count {
        let a = CALL_WORDS * i;
        let b = ANSWER_WORDS * i;
        step(
            words,
            &calls[a..a + CALL_WORDS],
            bytes,
            reply,
            &mut answers[b..b + ANSWER_WORDS],
        );
    }
}

// Power-on, and every call for which there are words and room for the answer; refused with 2 it makes none. The reply buffer is lent to every message; other calls lend none.
pub fn replay(
    words: &mut [u64],
    name: u64,
    preferred: u32,
    ports: u32,
    calls: &[u64],
    bytes: &[u8],
    reply: &mut [u8],
    answers: &mut [u64],
) -> u32
    ensures { Replaying words.old words.new name preferred ports calls.now bytes.now (length reply.old) answers.old answers.new result }
{
    let powered = number(Unit::power_on_ports(words, name, preferred, ports));
    if powered == 2 {
        return powered;
    }
    let count = (calls.len() / CALL_WORDS).min(answers.len() / ANSWER_WORDS);
    run(words, calls, bytes, reply, answers, count);
    powered
}
