// The unit: a bridge of two to eight ports on one record that the caller lends. No function requires anything of its caller: what is wrong is refused, and a
// refusal changes nothing.
#![tactic(auto)]

ghost use Rattle.std.specs.Prelude.{◌≡◌, ℕ, ◌≤◌, ◌<◌, length};
ghost use Rattle.identifier.specs.Identifier.{sa_of};
ghost use Rattle.unit.specs.Count.{ports_of};
ghost use Rattle.unit.specs.Model.{model_of, own_length, record_length};
ghost use Rattle.unit.specs.Own.{consumes};
ghost use Rattle.claims.specs.Claims.{frame_acted};
ghost use Rattle.checks.specs.Refusals.{number_in};
ghost use Rattle.message_answers.specs.Answers.{message_told};
ghost use Rattle.bridge.specs.Told.{frame_done_told, frame_told, take_told, start_told, unit_told, counts_told};
ghost use Rattle.bridge.specs.Calls.{Framing, TakingOut, Messaging, Starting, Quieting, Reading, Counting};
ghost use Rattle.bridge.specs.Steps.{Responding, Sharing, Passing};

use address_claims::Event;
use checks::Refusal;
use forwarding::Share;
pub use list_commands::Absent;
pub use message_answers::MessageAnswer;
use queue::{Frame, Tally};
use unit::Claim;
pub use unit::Unit;

// What came of a frame. Ports are masks, bit p - 1 for port p. The reasons are those of each port's pair, four bits a port, port p's from bit 4(p - 1), by
// `Reason::number`.
#[derive(Clone, Copy, Debug, PartialEq, Eq)]
pub struct FrameAnswer {
    pub consumed: bool,
    pub accepted: u32,
    pub lost: u32,
    pub event: Event,
    pub unsent: u32,
    pub compared: u32,
    pub reasons: u64,
}

// What came of Start: the ports where the unit's own frame was lost, and what became of the unit: Claiming or Lost.
#[derive(Clone, Copy, Debug, PartialEq, Eq)]
pub struct Started {
    pub unsent: u32,
    pub claim: Claim,
}

// The claim event, and the ports where the unit's own frame was lost.
#[derive(Drop)]
struct Response {
    event: Event,
    unsent: u32,
}

// A claim or request is acted on, and what the unit sends joins every queue.
fn respond(words: &mut [u64], ports: u32, port: u64, consumed: bool, f: Frame) -> Response
    requires { (ports ≤ 8) × (length words.old ≡ record_length ports) × (sa_of f.id < 255) }
    ensures { Responding ports words.old words.new (frame_acted (model_of ports words.old).rest port consumed f) result }
{
    let a = claims::act(words, port, consumed, f);
    let unsent = forwarding::announce(words, ports as usize, a.sent);
    Response {
        event: a.event,
        unsent,
    }
}

// Whether a frame is for the unit (rule 1). The unit is read only where the frame has a destination.
fn is_for_unit(words: &[u64], id: u32) -> bool
    requires { own_length ≤ length words.now }
    ensures { (ports : ℕ) → result ≡ consumes (model_of ports words.now).rest.own id }
{
    if identifier::has_destination(id) {
        let unit = unit::read_unit(words);
        return unit.consumes(id);
    }
    false
}

// A frame for others is forwarded, one for the unit is not.
fn share(words: &mut [u64], ports: u32, port: u32, consumed: bool, f: Frame) -> Share
    requires { (ports ≤ 8) × (length words.old ≡ record_length ports) × (1 ≤ port) × (port ≤ ports) }
    ensures { Sharing ports words.old words.new port consumed f result }
{
    if consumed {
        return Share {
            accepted: 0,
            lost: 0,
            reasons: 0,
            compared: 0,
        };
    }
    let from = port as usize - 1;
    forwarding::forward(words, ports as usize, from, identifier::pgn(f.id), f)
}

// A frame that is not refused. It is acted on in one place, so that its fields stay in registers.
fn pass(words: &mut [u64], ports: u32, port: u32, f: Frame) -> FrameAnswer
    requires { (ports ≤ 8) × (length words.old ≡ record_length ports) × (1 ≤ port) × (port ≤ ports) × (sa_of f.id < 255) }
    ensures { Passing ports words.old words.new port f (frame_done_told result) }
{
    let consumed = is_for_unit(words, f.id);
    let s = share(words, ports, port, consumed, f);
    let r = respond(words, ports, port as u64, consumed, f);
    FrameAnswer {
        consumed,
        accepted: s.accepted,
        lost: s.lost,
        event: r.event,
        unsent: r.unsent,
        compared: s.compared,
        reasons: s.reasons,
    }
}

// A frame arrived at a port.
pub fn frame(words: &mut [u64], port: u32, id: u32, bytes: &[u8]) -> Result<FrameAnswer, Refusal>
    ensures { Framing (ports_of words.old) words.old words.new port id bytes.now (frame_told result) }
{
    let ports = unit::ports_of(words);
    let len = bytes.len();
    refusals::check_frame(ports, words.len(), port, id, len)?;
    let f = Frame {
        id,
        len: len as u32,
        bytes: storage::pack(bytes),
    };
    Ok(pass(words, ports, port, f))
}

// A port is ready to send its next frame.
pub fn take(words: &mut [u64], port: u32) -> Result<Option<Frame>, Refusal>
    ensures { TakingOut (ports_of words.old) words.old words.new port (take_told result) }
{
    let ports = unit::ports_of(words);
    refusals::check_take(ports, words.len(), port)?;
    let q = port as usize - 1;
    Ok(record::take_row(words, q))
}

// The unit claims its preferred address.
pub fn start(words: &mut [u64]) -> Result<Started, Refusal>
    ensures { Starting (ports_of words.old) words.old words.new (start_told result) }
{
    let ports = unit::ports_of(words);
    refusals::check_length(ports, words.len())?;
    unit::read_unit(words).check_start()?;
    let a = claims::start(words);
    let unsent = forwarding::announce(words, ports as usize, a.sent);
    let after = unit::read_unit(words);
    Ok(Started {
        unsent,
        claim: after.claim,
    })
}

// The 250 ms after the unit's claim are over.
pub fn quiet(words: &mut [u64]) -> Result<(), Refusal>
    ensures { Quieting (ports_of words.old) words.old words.new (number_in result) }
{
    let ports = unit::ports_of(words);
    refusals::check_length(ports, words.len())?;
    let unit = unit::read_unit(words);
    if !unit.claim.is_claiming() {
        return Err(Refusal::WrongState);
    }
    unit::store_claim(words, Claim::Claimed);
    Ok(())
}

// The unit is read: its claim state, its addresses, its NAME, its number of ports, which is worked out once.
pub fn unit(words: &[u64]) -> Result<Unit, Refusal>
    ensures { Reading (ports_of words.now) words.now (unit_told result) }
{
    let ports = unit::ports_of(words);
    refusals::check_length(ports, words.len())?;
    Ok(Unit {
        ports,
        ..unit::read_unit(words)
    })
}

// The counts of a port are read: the frames that wait, by their priority, and those accepted and taken since power-on.
pub fn counts(words: &[u64], port: u32) -> Result<Tally, Refusal>
    ensures { Counting (ports_of words.now) words.now port (counts_told result) }
{
    let ports = unit::ports_of(words);
    refusals::check_take(ports, words.len(), port)?;
    let q = port as usize - 1;
    Ok(record::counts_at(words, q))
}

// A network message to the unit, handed in whole, with a buffer for what is to be sent back.
pub fn message(
    words: &mut [u64],
    port: u32,
    requester: u32,
    payload: &[u8],
    reply: &mut [u8],
) -> MessageAnswer
    ensures { Messaging (ports_of words.old) words.old words.new port requester payload.now reply.old reply.new (message_told result) }
{
    let ports = unit::ports_of(words);
    if let Err(refusal) = refusals::check_message(
        words,
        ports,
        port,
        requester,
        payload.len(),
        reply.len(),
    ) {
        return MessageAnswer::refused(refusal);
    }
    let command = network_message::decode(ports, port, payload);
    message_answers::perform(words, ports as usize, requester, payload, command, reply)
}
