// Judging a payload: the checks 10 to 13, 22 and 23, from the function, the payload and the port alone.
#![tactic(auto, unfolding(entries::specs::Entries::listed, crate::specs::Decoding::is_general, crate::specs::Decoding::may_be_all, crate::specs::Decoding::is_pair, crate::specs::Decoding::names_ports, crate::specs::Decoding::may_name, crate::specs::Decoding::holds_parameter, crate::specs::Decoding::has_good_body, crate::specs::Decoding::holds_entries, crate::specs::Decoding::wrong_in, crate::specs::Decoding::wrong_entry, crate::specs::Decoding::entries_end, crate::specs::Decoding::has_wrong_mode))]

ghost use Rattle.std.specs.Prelude.{◌≡◌, ◌&&◌, ◌||◌, ◌≤◌, length, eqb};
ghost use Rattle.network_message.specs.Decoding.{all_ports, may_be_all, is_pair, names_ports, may_name, is_held, holds_parameter, is_filling, entries_start, entries_end, between, has_good_body, wrong_entry, has_wrong_mode, judged};
ghost use Rattle.network_message.specs.Functions.{number_of};
ghost use Rattle.network_message.specs.Judging.{judgement};

use crate::{BUFFER_SIZE, ENTRIES, Function, LIST_SIZE, LOST, Wrong};
use checks::Refusal;

// To 15: all pairs from a port.
const ALL_PORTS: u32 = 15;

const FILLING: u8 = 0xFF;

// The bytes of an Add by NAME.
const ADD_BY_NAME_LENGTH: usize = 23;

// Whether To may be 15.
fn may_be_all(function: Function) -> bool
    ensures { result ≡ may_be_all (number_of function) }
{
    matches!(
        function,
        Function::Add | Function::Delete | Function::Clear | Function::Create
    )
}

// Whether From and To are a pair, or all pairs from a port.
fn is_pair(ports: u32, function: Function, from: u32, to: u32) -> bool
    requires { ports ≤ 8 }
    ensures { result ≡ is_pair ports (number_of function) from to }
{
    if !checks::is_port(ports, from) {
        return false;
    }
    if checks::is_port(ports, to) {
        return from != to;
    }
    if to == ALL_PORTS {
        return may_be_all(function);
    }
    false
}

// 10: whether a pair, or for the address list a port, is named; the general functions name none.
fn names_ports(ports: u32, function: Function, from: u32, to: u32) -> bool
    requires { ports ≤ 8 }
    ensures { result ≡ names_ports ports (number_of function) from to }
{
    match function {
        Function::Parameter | Function::Reset => true,
        Function::AddressList => checks::is_port(ports, to),
        _ => is_pair(ports, function, from, to),
    }
}

// Whether every named pair has a port as From or To.
fn all_touch(ports: u32, port: u32, from: u32, to: u32) -> bool
    ensures { result ≡ (eqb to port || (eqb from port || (eqb to all_ports && eqb ports 2))) }
{
    to == port || from == port || (to == ALL_PORTS && ports == 2)
}

// 11: whether a tool on a port may name that pair or port, or the unit as a whole.
fn may_name(ports: u32, port: u32, function: Function, from: u32, to: u32) -> bool
    ensures { result ≡ may_name ports port (number_of function) from to }
{
    if port == 1 {
        return true;
    }
    match function {
        Function::Parameter | Function::Reset => false,
        Function::AddressList => to == port,
        _ => all_touch(ports, port, from, to),
    }
}

// Whether a parameter is held.
fn is_held(parameter: u32) -> bool
    ensures { result ≡ is_held parameter }
{
    matches!(parameter, BUFFER_SIZE | LIST_SIZE | ENTRIES | LOST)
}

// 23: whether the parameter that is asked for is held, or the one that is reset is the messages lost.
fn holds_parameter(function: Function, parameter: u32) -> bool
    ensures { result ≡ holds_parameter (number_of function) parameter }
{
    match function {
        Function::Parameter | Function::PairParameter => is_held(parameter),
        Function::Reset | Function::PairReset => parameter == LOST,
        _ => true,
    }
}

// Whether all bytes are filling.
#[tactic(auto, unfolding(crate::specs::Decoding::is_filling))]
fn is_filling(bytes: &[u8]) -> bool
    ensures { result ≡ is_filling bytes.now }
{
    bytes.iter().all(|byte| *byte == FILLING)
}

// Where the entries begin: in a Create behind the mode.
pub fn entries_start(function: Function) -> usize
    ensures { (result ≡ entries_start (number_of function)) × (result ≤ 3) }
{
    if function == Function::Create {
        return 3;
    }
    2
}

// Where the entries end: before the filling of an 8-byte payload, else with the last byte.
pub fn entries_end(start: usize, payload: &[u8]) -> usize
    requires { (start ≤ 3) × (8 ≤ length payload.now) }
    ensures { result ≡ entries_end start payload.now }
{
    let n = payload.len();
    if n != 8 {
        return n;
    }
    let after = start + entries::ENTRY_SIZE;
    if is_filling(&payload[after..]) {
        return after;
    }
    n
}

// The entries of a payload, from `start` on.
fn entries_from(start: usize, payload: &[u8]) -> &[u8]
    requires { (start ≤ 3) × (8 ≤ length payload.now) }
    ensures { result.now ≡ between start (entries_end start payload.now) payload.now }
{
    let end = entries_end(start, payload);
    &payload[start..end]
}

// 12: whether length and filling are right.
fn has_good_body(function: Function, payload: &[u8]) -> bool
    requires { 8 ≤ length payload.now }
    ensures { result ≡ has_good_body (number_of function) payload.now }
{
    match function {
        Function::Add | Function::Delete | Function::Create => {
            entries::is_whole(entries_from(entries_start(function), payload))
        }
        Function::AddByName => payload.len() == ADD_BY_NAME_LENGTH,
        _ => payload.len() == 8,
    }
}

// 22: the number from 1 of a command's first entry that is no PGN, or 0.
fn wrong_entry(function: Function, payload: &[u8]) -> usize
    requires { 8 ≤ length payload.now }
    ensures { result ≡ wrong_entry (number_of function) payload.now }
{
    match function {
        Function::Add | Function::Delete | Function::Create => {
            entries::first_wrong(entries_from(entries_start(function), payload))
        }
        Function::AddByName => entries::first_wrong(&payload[crate::PGN_AT..crate::NAME_AT]),
        _ => 0,
    }
}

// 13: whether the mode of a Create is none.
fn has_wrong_mode(function: Function, payload: &[u8]) -> bool
    requires { 8 ≤ length payload.now }
    ensures { result ≡ has_wrong_mode (number_of function) payload.now }
{
    if function == Function::Create {
        return 1 < payload[2];
    }
    false
}

// Whether a payload is refused, and why.
#[tactic(auto, using(crate::proofs::Known::known), unfolding(crate::specs::Decoding::judged, crate::specs::Decoding::refusal_of))]
pub fn judge(
    ports: u32,
    port: u32,
    function: Function,
    from: u32,
    to: u32,
    payload: &[u8],
) -> Result<(), Wrong>
    requires { (ports ≤ 8) × (8 ≤ length payload.now) }
    ensures { judgement result ≡ judged ports port (number_of function) from to payload.now }
{
    if !names_ports(ports, function, from, to) {
        return Err(Wrong::Refused(Refusal::NoPair));
    }
    if !may_name(ports, port, function, from, to) {
        return Err(Wrong::Refused(Refusal::ForeignPair));
    }
    if !holds_parameter(function, crate::parameter_of(payload)) {
        return Err(Wrong::Refused(Refusal::UnknownParameter));
    }
    if !has_good_body(function, payload) {
        return Err(Wrong::Refused(Refusal::WrongBody));
    }
    let entry = wrong_entry(function, payload);
    if entry != 0 {
        return Err(Wrong::Entry(entry));
    }
    if has_wrong_mode(function, payload) {
        return Err(Wrong::Refused(Refusal::WrongMode));
    }
    Ok(())
}
