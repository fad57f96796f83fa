// What a frame's call is made of, each part as a call of its own that refuses and requires nothing: another product is built on these.
#![tactic(auto)]

ghost use Rattle.std.specs.Prelude.{◌≡◌, ◌≤◌, length};
ghost use Rattle.checks.specs.Refusals.{number_in};
ghost use Rattle.claims.specs.Claims.{frame_of};
ghost use Rattle.refusals.specs.Refusals.{frame_refusal};
ghost use Rattle.unit.specs.Count.{ports_of};
ghost use Rattle.unit.specs.Model.{model_of};
ghost use Rattle.frame_parts.specs.Parts.{Answering, arrived, pair_refusal, PartAsking, PartJoining, PartActing, PartAnnouncing};

use checks::Refusal;
use claims::Acted;
use filter::{Asked, Reason};
use queue::Frame;
use unit::Unit;

// A frame that came in: whether it is for the unit, which is not forwarded, and whether it is an address claim.
#[derive(Clone, Copy, PartialEq, Eq, Debug)]
pub struct Arrival {
    pub frame: Frame,
    pub consumed: bool,
    pub claim: bool,
}

// A frame arrived at a port. The record is read alone.
pub fn arrive(words: &[u64], port: u32, id: u32, bytes: &[u8]) -> Result<Arrival, Refusal>
    ensures { Answering (frame_refusal (ports_of words.now) (length words.now) port id (length bytes.now)) (arrived (model_of (ports_of words.now) words.now).rest (frame_of id bytes.now)) result }
{
    let ports = unit::ports_of(words);
    let len = bytes.len();
    refusals::check_frame(ports, words.len(), port, id, len)?;
    let word = storage::pack(bytes);
    let frame = Frame {
        id,
        len: len as u32,
        bytes: word,
    };
    let unit = unit::read_unit(words);
    let consumed = unit.consumes(id);
    let claim = claims::is_claim(frame);
    Ok(Arrival {
        frame,
        consumed,
        claim,
    })
}

// Whether a frame from one port to another is refused.
fn check_pair(
    ports: u32,
    lent: usize,
    from: u32,
    to: u32,
    id: u32,
    len: usize,
) -> Result<(), Refusal>
    requires { (2 ≤ ports) × (ports ≤ 8) }
    ensures { number_in result ≡ pair_refusal ports lent from to id len }
{
    if !checks::is_port(ports, to) {
        return Err(Refusal::NoPort);
    }
    refusals::check_frame(ports, lent, from, id, len)
}

// Asks the pair from one port to another about a frame with this identifier: why it crosses or not, and the entries compared. The arrival port is no target.
pub fn ask(words: &[u64], from: u32, to: u32, id: u32) -> Result<Asked, Refusal>
    ensures { PartAsking (ports_of words.now) words.now from to id result }
{
    let ports = unit::ports_of(words);
    check_pair(ports, words.len(), from, to, id, 0)?;
    if from == to {
        return Ok(Asked {
            reason: Reason::NotAsked,
            compared: 0,
        });
    }
    let p = from as usize - 1;
    let q = to as usize - 1;
    let asked = record::ask_pair(
        words,
        ports as usize,
        p,
        q,
        identifier::pgn(id),
        identifier::sa(id),
    );
    Ok(asked)
}

// Sends a frame from one port to another, asking no pair: whether it joined that port's queue. A loss is counted for the pair and in general. The arrival port
// is no target.
pub fn join(words: &mut [u64], from: u32, to: u32, f: Frame) -> Result<bool, Refusal>
    ensures { PartJoining (ports_of words.old) words.old words.new from to f result }
{
    let ports = unit::ports_of(words);
    check_pair(ports, words.len(), from, to, f.id, f.len as usize)?;
    if from == to {
        return Ok(false);
    }
    let p = from as usize - 1;
    let q = to as usize - 1;
    let accepted = forwarding::join(words, ports as usize, p, q, f);
    Ok(accepted)
}

// Acts on a frame that is a claim or a request for one: the claim event, and what the unit sends; `consumed` tells whether it was for the unit.
pub fn act(words: &mut [u64], port: u32, consumed: bool, f: Frame) -> Result<Acted, Refusal>
    ensures { PartActing (ports_of words.old) words.old words.new port consumed f result }
{
    let ports = unit::ports_of(words);
    refusals::check_frame(ports, words.len(), port, f.id, f.len as usize)?;
    let acted = claims::act(words, port as u64, consumed, f);
    Ok(acted)
}

// Sends what the unit has to send to every port: the ports where it is lost.
pub fn announce(words: &mut [u64], sent: Option<Frame>) -> Result<u32, Refusal>
    ensures { PartAnnouncing (ports_of words.old) words.old words.new sent result }
{
    let ports = unit::ports_of(words);
    if words.len() != Unit::record_length(ports as usize) {
        return Err(Refusal::WrongLength);
    }
    let unsent = forwarding::announce(words, ports as usize, sent);
    Ok(unsent)
}
