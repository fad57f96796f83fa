// Why a call is refused: the checks in order, the first that applies.
#![tactic(auto)]

ghost use Rattle.std.specs.Prelude.{◌≡◌, ◌≤◌, length};
ghost use Rattle.checks.specs.Checks.{first};
ghost use Rattle.checks.specs.Refusals.{number_in};
ghost use Rattle.unit.specs.Model.{model_of};
ghost use Rattle.refusals.specs.Refusals.{late_checks, length_refusal, message_refusal, frame_refusal, take_refusal};

use checks::Refusal;
use unit::Unit;

// The bytes of the longest message, which a buffer for what is sent back must have room for.
pub const LONGEST_MESSAGE: usize = 1785;

// Of every call: whether the record that is lent is of its length.
#[tactic(auto, unfolding(crate::specs::Refusals::length_refusal))]
pub fn check_length(ports: u32, lent: usize) -> Result<(), Refusal>
    requires { (2 ≤ ports) × (ports ≤ 8) }
    ensures { number_in result ≡ length_refusal ports lent }
{
    if lent != Unit::record_length(ports as usize) {
        return Err(Refusal::WrongLength);
    }
    Ok(())
}

// Of a take: its port and the record.
#[tactic(auto, unfolding(crate::specs::Refusals::take_refusal, crate::specs::Refusals::length_refusal))]
pub fn check_take(ports: u32, lent: usize, port: u32) -> Result<(), Refusal>
    requires { (2 ≤ ports) × (ports ≤ 8) }
    ensures { number_in result ≡ take_refusal ports lent port }
{
    if !checks::is_port(ports, port) {
        return Err(Refusal::NoPort);
    }
    check_length(ports, lent)
}

// Of a frame: what is checked of a take, then the frame.
#[tactic(auto, using(checks::proofs::Refusals::number_positive, crate::proofs::Checks::frame_refused), unfolding(crate::specs::Refusals::frame_refusal, crate::specs::Refusals::take_refusal))]
pub fn check_frame(ports: u32, lent: usize, port: u32, id: u32, len: usize) -> Result<(), Refusal>
    requires { (2 ≤ ports) × (ports ≤ 8) }
    ensures { number_in result ≡ frame_refusal ports lent port id len }
{
    check_take(ports, lent, port)?;
    if identifier::is_too_wide(id) {
        return Err(Refusal::WideIdentifier);
    }
    if 8 < len {
        return Err(Refusal::LongFrame);
    }
    if identifier::has_wrong_source(id) {
        return Err(Refusal::WrongSource);
    }
    Ok(())
}

// Of a message, last: the payload's length and the requester's address.
fn check_late(payload: usize, requester: u32) -> Result<(), Refusal>
    ensures { number_in result ≡ first (late_checks requester payload) }
{
    if payload < 8 || LONGEST_MESSAGE < payload {
        return Err(Refusal::PayloadLength);
    }
    if 253 < requester {
        return Err(Refusal::NoAddress);
    }
    Ok(())
}

// Of a message, before its payload is read.
#[tactic(auto, using(checks::proofs::Refusals::number_positive, crate::proofs::Checks::message_refused), unfolding(crate::specs::Refusals::message_refusal, crate::specs::Refusals::take_refusal))]
pub fn check_message(
    words: &[u64],
    ports: u32,
    port: u32,
    requester: u32,
    payload: usize,
    reply: usize,
) -> Result<(), Refusal>
    requires { (2 ≤ ports) × (ports ≤ 8) }
    ensures { number_in result ≡ message_refusal ports (length words.now) reply (model_of ports words.now).rest port requester payload }
{
    check_take(ports, words.len(), port)?;
    if reply < LONGEST_MESSAGE {
        return Err(Refusal::WrongLength);
    }
    let unit = unit::read_unit(words);
    let claim = unit.claim;
    if !claim.is_claimed() {
        return Err(Refusal::NotClaimed);
    }
    check_late(payload, requester)
}
