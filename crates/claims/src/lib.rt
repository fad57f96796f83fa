// What is done about an address claim, a request for one, and Start.
#![tactic(auto)]

ghost use Rattle.std.specs.Prelude.{◌≡◌, ℕ, ◌≤◌, ◌<◌, length, get_or, None};
ghost use Rattle.identifier.specs.Identifier.{sa_of};
ghost use Rattle.unit.specs.Model.{model_of, rows_from};
ghost use Rattle.claims.specs.Claims.{is_claim, is_request, is_request_to_unit, contested, claim_acted, frame_acted, held_under, started};
ghost use Rattle.claims.specs.Steps.{Acting};

use address_claims::Event;
use queue::Frame;
use unit::{Claim, NO_ADDRESS};

// The claim event, and what the unit sends.
#[derive(Clone, Copy, PartialEq, Eq, Debug)]
pub struct Acted {
    pub event: Event,
    pub sent: Option<Frame>,
}

// Whether a frame is an address claim.
#[tactic(auto, unfolding(crate::specs::Claims::is_claim))]
pub fn is_claim(f: Frame) -> bool
    ensures { result ≡ is_claim f }
{
    identifier::pgn(f.id) == identifier::ADDRESS_CLAIMED
        && identifier::ps(f.id) == identifier::GLOBAL
        && f.len == 8
}

// Whether a frame is a request for address claimed.
#[tactic(auto, unfolding(crate::specs::Claims::is_request, storage::specs::Bytes::packed))]
fn is_request(f: Frame) -> bool
    ensures { result ≡ is_request f }
{
    identifier::pgn(f.id) == identifier::REQUEST && f.len == 3 && f.bytes == 0xEE00
}

// Whether such a request is to all, or was consumed.
#[tactic(auto, unfolding(crate::specs::Claims::is_request_to_unit))]
fn is_request_to_unit(f: Frame, consumed: bool) -> bool
    ensures { result ≡ is_request_to_unit f consumed }
{
    is_request(f) && (consumed || identifier::ps(f.id) == identifier::GLOBAL)
}

// Whether an address is held under a NAME lower than this.
fn is_held_under(words: &[u64], address: usize, name: u64) -> bool
    requires { (rows_from ≤ length words.now) × (address < 254) }
    ensures { (ports : ℕ) → result ≡ held_under name (get_or (model_of ports words.now).rest.table address None) }
{
    record::holder(words, address).is_some_and(|holder| holder.name < name)
}

// A claim of the unit's address by another NAME: the unit defends it or is displaced.
fn contest(words: &mut [u64], port: u64, address: usize, name: u64) -> Acted
    requires { (rows_from ≤ length words.old) × (address < 254) }
    ensures { (ports : ℕ) → Acting ports words.old words.new (contested (model_of ports words.old).rest port address name) result }
{
    let unit = unit::read_unit(words);
    if unit.name < name {
        record::drop_others(words, name, address);
        return Acted {
            event: Event::Defended,
            sent: Some(unit.claim_frame()),
        };
    }
    record::settle(words, port, address, name);
    let displaced = unit.moved(Claim::Lost, NO_ADDRESS);
    unit::store_unit(words, displaced);
    Acted {
        event: Event::Displaced,
        sent: Some(unit.cannot_claim_frame()),
    }
}

// An event, and no frame of the unit's own.
fn alone(event: Event) -> Acted
    ensures { (result.event ≡ event) × (result.sent ≡ None) }
{
    Acted { event, sent: None }
}

// An address claim.
fn act_on_claim(words: &mut [u64], port: u64, f: Frame) -> Acted
    requires { (rows_from ≤ length words.old) × (sa_of f.id < 255) }
    ensures { (ports : ℕ) → Acting ports words.old words.new (claim_acted (model_of ports words.old).rest port f) result }
{
    let unit = unit::read_unit(words);
    let name = f.bytes;
    if name == unit.name {
        return alone(Event::Nothing);
    }
    let source = identifier::sa(f.id);
    if source == identifier::NO_ADDRESS {
        return alone(record::withdraw(words, name));
    }
    let address = source as usize;
    if unit.is_own(source) {
        return contest(words, port, address, name);
    }
    alone(record::claim(words, port, address, name))
}

// A frame that was not refused, after the forwarding: a claim or a request is acted on. The PGN is asked first, by which most frames are neither.
pub fn act(words: &mut [u64], port: u64, consumed: bool, f: Frame) -> Acted
    requires { (rows_from ≤ length words.old) × (sa_of f.id < 255) }
    ensures { (ports : ℕ) → Acting ports words.old words.new (frame_acted (model_of ports words.old).rest port consumed f) result }
{
    match identifier::pgn(f.id) {
        identifier::ADDRESS_CLAIMED if is_claim(f) => act_on_claim(words, port, f),
        identifier::REQUEST if is_request_to_unit(f, consumed) => {
            let unit = unit::read_unit(words);
            Acted {
                event: Event::Nothing,
                sent: unit.request_answer(),
            }
        }
        _ => alone(Event::Nothing),
    }
}

// Start, in Unstarted with a good preferred address.
pub fn start(words: &mut [u64]) -> Acted
    requires { (rows_from ≤ length words.old) × ((ports : ℕ) → (model_of ports words.old).rest.own.preferred < 254) }
    ensures { (ports : ℕ) → Acting ports words.old words.new (started (model_of ports words.old).rest) result }
{
    let unit = unit::read_unit(words);
    let preferred = unit.preferred;
    let address = preferred as usize;
    if is_held_under(words, address, unit.name) {
        let lost = unit.moved(Claim::Lost, NO_ADDRESS);
        unit::store_unit(words, lost);
        return Acted {
            event: Event::Nothing,
            sent: Some(unit.cannot_claim_frame()),
        };
    }
    record::release(words, address);
    let claiming = unit.moved(Claim::Claiming, preferred as u8);
    unit::store_unit(words, claiming);
    Acted {
        event: Event::Nothing,
        sent: Some(claiming.claim_frame()),
    }
}
