// The static library: what C calls of `deorasaeng`, exported under the same names, each with the clause of the function that it calls. Nothing else stands here.
#![tactic(auto)]

ghost use Rattle.std.specs.Prelude.{◌≡◌};
ghost use Rattle.unit.specs.Count.{ports_of};
ghost use Rattle.unit.specs.PowerOn.{PoweringOn};
ghost use Rattle.bridge.specs.Calls.{Quieting};
ghost use Rattle.deorasaeng.specs.Interface.{FrameCall, TakeCall, MessageCall, StartCall, UnitCall, CountsCall, QueueCall};
ghost use Rattle.deorasaeng.specs.PlanCalls.{PlanCall, LinksCall};

use deorasaeng::VERSION;
use plan_links::Link;
use queue::Queue;

// The version of the interface that this library has; the header has the one that a caller was compiled with.
#[unsafe(no_mangle)]
pub extern "C" fn deorasaeng_version() -> u64
    ensures { result ≡ VERSION }
{
    deorasaeng::deorasaeng_version()
}

// Power-on: the record becomes that of a fresh unit of four ports.
#[unsafe(no_mangle)]
pub extern "C" fn deorasaeng_power_on(words: &mut [u64], name: u64, preferred: u32) -> u32
    ensures { PoweringOn 4 words.old words.new name preferred result }
{
    deorasaeng::deorasaeng_power_on(words, name, preferred)
}

// Power-on with a number of ports, 2 to 8.
#[unsafe(no_mangle)]
pub extern "C" fn deorasaeng_power_on_ports(
    words: &mut [u64],
    name: u64,
    preferred: u32,
    ports: u32,
) -> u32
    ensures { PoweringOn ports words.old words.new name preferred result }
{
    deorasaeng::deorasaeng_power_on_ports(words, name, preferred, ports)
}

// A frame arrived at a port.
#[unsafe(no_mangle)]
pub extern "C" fn deorasaeng_frame(
    words: &mut [u64],
    port: u32,
    id: u32,
    bytes: &[u8],
    answer: &mut [u64],
) -> u32
    ensures { FrameCall (ports_of words.old) words.old words.new port id bytes.now answer.old answer.new result }
{
    deorasaeng::deorasaeng_frame(words, port, id, bytes, answer)
}

// A port is ready to send its next frame.
#[unsafe(no_mangle)]
pub extern "C" fn deorasaeng_take(
    words: &mut [u64],
    port: u32,
    answer: &mut [u64],
    bytes: &mut [u8],
) -> u32
    ensures { TakeCall (ports_of words.old) words.old words.new port answer.old answer.new bytes.old bytes.new result }
{
    deorasaeng::deorasaeng_take(words, port, answer, bytes)
}

// A network message to the unit, handed in whole, with a buffer for what is to be sent back.
#[unsafe(no_mangle)]
pub extern "C" fn deorasaeng_message(
    words: &mut [u64],
    port: u32,
    requester: u32,
    payload: &[u8],
    reply: &mut [u8],
    answer: &mut [u64],
) -> u32
    ensures { MessageCall (ports_of words.old) words.old words.new port requester payload.now reply.old reply.new answer.old answer.new result }
{
    deorasaeng::deorasaeng_message(words, port, requester, payload, reply, answer)
}

// The unit claims its preferred address.
#[unsafe(no_mangle)]
pub extern "C" fn deorasaeng_start(words: &mut [u64], answer: &mut [u64]) -> u32
    ensures { StartCall (ports_of words.old) words.old words.new answer.old answer.new result }
{
    deorasaeng::deorasaeng_start(words, answer)
}

// The 250 ms after the unit's claim are over.
#[unsafe(no_mangle)]
pub extern "C" fn deorasaeng_quiet(words: &mut [u64]) -> u32
    ensures { Quieting (ports_of words.old) words.old words.new result }
{
    deorasaeng::deorasaeng_quiet(words)
}

// The unit is read: its claim state, its addresses, its NAME, and how many ports it has.
#[unsafe(no_mangle)]
pub extern "C" fn deorasaeng_unit(words: &[u64], answer: &mut [u64]) -> u32
    ensures { UnitCall (ports_of words.now) words.now answer.old answer.new result }
{
    deorasaeng::deorasaeng_unit(words, answer)
}

// The counts of a port are read: the frames that wait, by their priority, and those accepted and taken since power-on.
#[unsafe(no_mangle)]
pub extern "C" fn deorasaeng_counts(words: &[u64], port: u32, answer: &mut [u64]) -> u32
    ensures { CountsCall (ports_of words.now) words.now port answer.old answer.new result }
{
    deorasaeng::deorasaeng_counts(words, port, answer)
}

// The take on a queue that is lent, which is all that the transmit routine of one port is handed.
#[unsafe(no_mangle)]
pub extern "C" fn deorasaeng_take_queue(
    queue: &mut Queue,
    answer: &mut [u64],
    bytes: &mut [u8],
) -> u32
    ensures { QueueCall queue.old.words queue.new.words answer.old answer.new bytes.old bytes.new result }
{
    deorasaeng::deorasaeng_take_queue(queue, answer, bytes)
}

// Which segments of a plan hear a PGN that is sent on the first one.
#[unsafe(no_mangle)]
pub extern "C" fn deorasaeng_plan(
    ports: &[u64],
    lists: &[u64],
    segments: u32,
    units: u32,
    first: u32,
    pgn: u32,
    answer: &mut [u64],
) -> u32
    ensures { PlanCall ports.now lists.now segments units first pgn answer.old answer.new result }
{
    deorasaeng::deorasaeng_plan(ports, lists, segments, units, first, pgn, answer)
}

// The same by the plan's links.
#[unsafe(no_mangle)]
pub extern "C" fn deorasaeng_plan_links(
    links: &[Link],
    lists: &[u64],
    segments: u32,
    units: u32,
    first: u32,
    pgn: u32,
    answer: &mut [u64],
) -> u32
    ensures { LinksCall links.now lists.now segments units first pgn answer.old answer.new result }
{
    deorasaeng::deorasaeng_plan_links(links, lists, segments, units, first, pgn, answer)
}
