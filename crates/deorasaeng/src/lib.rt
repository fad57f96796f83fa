// The C interface of the unit: functions over numbers and slices alone, which `deorasaeng_c` exports under the same names. Each gives 0 for done or the number
// that refuses the call, and requires nothing: a wrong length is refused with 2.
#![tactic(auto)]

ghost use Rattle.std.specs.Prelude.{◌≡◌};
ghost use Rattle.checks.specs.Refusals.{number_in};
ghost use Rattle.unit.specs.Count.{ports_of};
ghost use Rattle.unit.specs.PowerOn.{PoweringOn};
ghost use Rattle.bridge.specs.Calls.{Quieting};
ghost use Rattle.deorasaeng.specs.Interface.{lent_refusal, FrameCall, TakeCall, MessageCall, StartCall, UnitCall, CountsCall, QueueCall};
ghost use Rattle.deorasaeng.specs.PlanCalls.{Telling, PlanCall, LinksCall};

use checks::Refusal;
use plan_links::Link;
use queue::Queue;
use unit::Unit;

// The version of the interface, which the header names: it rises with every function, number or word that is added.
pub const VERSION: u64 = 11;

// The published lengths of the answers.
pub const FRAME_WORDS: usize = 8;

pub const TAKE_WORDS: usize = 3;

pub const MESSAGE_WORDS: usize = 5;

pub const START_WORDS: usize = 2;

pub const UNIT_WORDS: usize = 5;

pub const COUNTS_WORDS: usize = 10;

pub const PLAN_WORDS: usize = 1;

// The number of a call that names a port and lends storage of a wrong length: 1 stands before 2.
fn lent_refusal(words: &[u64], port: u32) -> u32
    ensures { result ≡ lent_refusal (ports_of words.now) port }
{
    if !checks::is_port(unit::ports_of(words), port) {
        return Refusal::NoPort.number();
    }
    Refusal::WrongLength.number()
}

// The number of what came of a call that tells nothing, 0 for done.
fn number(done: Result<(), Refusal>) -> u32
    ensures { result ≡ number_in done }
{
    match done {
        Ok(()) => 0,
        Err(refusal) => refusal.number(),
    }
}

// The version of the interface that this library has; the header has the one that a caller was compiled with.
pub fn deorasaeng_version() -> u64
    ensures { result ≡ VERSION }
{
    VERSION
}

// Power-on: the record becomes that of a fresh unit of four ports.
pub fn deorasaeng_power_on(words: &mut [u64], name: u64, preferred: u32) -> u32
    ensures { PoweringOn 4 words.old words.new name preferred result }
{
    number(Unit::power_on(words, name, preferred))
}

// Power-on with a number of ports, 2 to 8.
pub fn deorasaeng_power_on_ports(words: &mut [u64], name: u64, preferred: u32, ports: u32) -> u32
    ensures { PoweringOn ports words.old words.new name preferred result }
{
    number(Unit::power_on_ports(words, name, preferred, ports))
}

// A frame arrived at a port.
pub fn deorasaeng_frame(
    words: &mut [u64],
    port: u32,
    id: u32,
    bytes: &[u8],
    answer: &mut [u64],
) -> u32
    ensures { FrameCall (ports_of words.old) words.old words.new port id bytes.now answer.old answer.new result }
{
    if answer.len() != FRAME_WORDS {
        return lent_refusal(words, port);
    }
    match bridge::frame(words, port, id, bytes) {
        Ok(a) => {
            flat_answers::tell_frame(answer, a);
            0
        }
        Err(refusal) => refusal.number(),
    }
}

// A port is ready to send its next frame.
pub fn deorasaeng_take(words: &mut [u64], port: u32, answer: &mut [u64], bytes: &mut [u8]) -> u32
    ensures { TakeCall (ports_of words.old) words.old words.new port answer.old answer.new bytes.old bytes.new result }
{
    if answer.len() != TAKE_WORDS {
        return lent_refusal(words, port);
    }
    if bytes.len() != flat_answers::FRAME_BYTES {
        return lent_refusal(words, port);
    }
    match bridge::take(words, port) {
        Ok(taken) => {
            flat_answers::tell_taken(answer, bytes, taken);
            0
        }
        Err(refusal) => refusal.number(),
    }
}

// A network message to the unit, handed in whole, with a buffer for what is to be sent back.
pub fn deorasaeng_message(
    words: &mut [u64],
    port: u32,
    requester: u32,
    payload: &[u8],
    reply: &mut [u8],
    answer: &mut [u64],
) -> u32
    ensures { MessageCall (ports_of words.old) words.old words.new port requester payload.now reply.old reply.new answer.old answer.new result }
{
    if answer.len() != MESSAGE_WORDS {
        return lent_refusal(words, port);
    }
    let a = bridge::message(words, port, requester, payload, reply);
    let told = a.told();
    answer.copy_from_slice(&[
        a.pgn as u64,
        a.length as u64,
        told.entry as u64,
        told.to as u64,
        told.pgn,
    ]);
    a.number()
}

// The unit claims its preferred address.
pub fn deorasaeng_start(words: &mut [u64], answer: &mut [u64]) -> u32
    ensures { StartCall (ports_of words.old) words.old words.new answer.old answer.new result }
{
    if answer.len() != START_WORDS {
        return Refusal::WrongLength.number();
    }
    match bridge::start(words) {
        Ok(a) => {
            answer.copy_from_slice(&[a.unsent as u64, a.claim.word()]);
            0
        }
        Err(refusal) => refusal.number(),
    }
}

// The 250 ms after the unit's claim are over.
pub fn deorasaeng_quiet(words: &mut [u64]) -> u32
    ensures { Quieting (ports_of words.old) words.old words.new result }
{
    number(bridge::quiet(words))
}

// The unit is read: its claim state, its addresses, its NAME, and how many ports it has.
pub fn deorasaeng_unit(words: &[u64], answer: &mut [u64]) -> u32
    ensures { UnitCall (ports_of words.now) words.now answer.old answer.new result }
{
    let told = bridge::unit(words);
    if answer.len() != UNIT_WORDS {
        return Refusal::WrongLength.number();
    }
    match told {
        Ok(unit) => {
            flat_answers::tell_unit(answer, unit);
            0
        }
        Err(refusal) => refusal.number(),
    }
}

// The counts of a port are read: the frames that wait, by their priority, and those accepted and taken since power-on.
pub fn deorasaeng_counts(words: &[u64], port: u32, answer: &mut [u64]) -> u32
    ensures { CountsCall (ports_of words.now) words.now port answer.old answer.new result }
{
    if answer.len() != COUNTS_WORDS {
        return lent_refusal(words, port);
    }
    match bridge::counts(words, port) {
        Ok(tally) => {
            flat_answers::tell_counts(answer, tally);
            0
        }
        Err(refusal) => refusal.number(),
    }
}

// A queue after a take that was told, and the number that the take gives.
#[derive(Drop)]
struct AfterTold {
    queue: Queue,
    number: u32,
}

// The take by value, told: refused with 2 where the answer or the bytes are not of their length.
fn take_told(queue: Queue, answer: &mut [u64], bytes: &mut [u8]) -> AfterTold
    ensures { QueueCall queue.words result.queue.words answer.old answer.new bytes.old bytes.new result.number }
{
    if answer.len() != TAKE_WORDS {
        return AfterTold {
            queue,
            number: Refusal::WrongLength.number(),
        };
    }
    if bytes.len() != flat_answers::FRAME_BYTES {
        return AfterTold {
            queue,
            number: Refusal::WrongLength.number(),
        };
    }
    let t = queue.take();
    flat_answers::tell_taken(answer, bytes, t.taken);
    AfterTold {
        queue: t.queue,
        number: 0,
    }
}

// The take on a queue that is lent, which is all that the transmit routine of one port is handed.
pub fn deorasaeng_take_queue(queue: &mut Queue, answer: &mut [u64], bytes: &mut [u8]) -> u32
    ensures { QueueCall queue.old.words queue.new.words answer.old answer.new bytes.old bytes.new result }
{
    let t = take_told(*queue, answer, bytes);
    *queue = t.queue;
    t.number
}

// A plan's answer as the caller gets it.
fn tell_plan(planned: Result<u64, Refusal>, answer: &mut [u64]) -> u32
    ensures { Telling planned answer.old answer.new result }
{
    if answer.len() != PLAN_WORDS {
        return Refusal::WrongLength.number();
    }
    match planned {
        Ok(segments) => {
            answer[0] = segments;
            0
        }
        Err(refusal) => refusal.number(),
    }
}

// Which segments of a plan hear a PGN that is sent on the first one.
pub fn deorasaeng_plan(
    ports: &[u64],
    lists: &[u64],
    segments: u32,
    units: u32,
    first: u32,
    pgn: u32,
    answer: &mut [u64],
) -> u32
    ensures { PlanCall ports.now lists.now segments units first pgn answer.old answer.new result }
{
    let planned = plans::hear(ports, lists, segments, units, first, pgn);
    tell_plan(planned, answer)
}

// The same by the plan's links.
pub fn deorasaeng_plan_links(
    links: &[Link],
    lists: &[u64],
    segments: u32,
    units: u32,
    first: u32,
    pgn: u32,
    answer: &mut [u64],
) -> u32
    ensures { LinksCall links.now lists.now segments units first pgn answer.old answer.new result }
{
    let planned = plan_links::hear(links, lists, segments, units, first, pgn);
    tell_plan(planned, answer)
}
