// The bytes of the network message: a payload is a command or is refused. It knows bytes and nothing of the unit: what a command does is another's to say.
#![tactic(auto)]

mod function;
mod judging;

ghost use Rattle.std.specs.Prelude.{◌≡◌, ◌≤◌, length, take, drop};
ghost use Rattle.storage.specs.Bytes.{packed};
ghost use Rattle.checks.specs.Refusals.{number};
ghost use Rattle.filter_commands.specs.declared.pairs.Change.TheVariants.{Names};
ghost use Rattle.network_message.specs.declared.Wrong.TheVariants.{Refused};
ghost use Rattle.network_message.specs.Asked.{WithEntries, wrong_number, asked, asked_by};
ghost use Rattle.network_message.specs.Decoding.{from_of, to_of, parameter_of, name_of, mask_of, entries_start, entries_end, command_of, decoded};
ghost use Rattle.network_message.specs.Functions.{number_of};

use checks::Refusal;
use filter_commands::pairs::Change;
pub use function::Function;

// The parameters.
pub const BUFFER_SIZE: u32 = 1;

pub const LIST_SIZE: u32 = 2;

pub const ENTRIES: u32 = 3;

pub const LOST: u32 = 9;

// Where an Add by NAME has its PGN, its NAME and its mask. The two bytes behind the mask are not read.
const PGN_AT: usize = 2;

const NAME_AT: usize = 5;

const MASK_AT: usize = 13;

// What a payload asks. A `to` of 15 is all pairs from that port. Add, Delete, Create and Add by NAME are a change with entries, the payload's bytes from
// `start` up to `end`.
#[derive(Clone, Copy)]
pub enum Command {
    Request {
        from: u32,
        to: u32,
    },
    WithEntries {
        change: Change,
        from: u32,
        to: u32,
        start: usize,
        end: usize,
    },
    Clear {
        from: u32,
        to: u32,
    },
    AddressList {
        port: u32,
    },
    Parameter {
        parameter: u32,
    },
    Reset,
    PairParameter {
        from: u32,
        to: u32,
        parameter: u32,
    },
    PairReset {
        from: u32,
        to: u32,
    },
}

// Why a payload is refused: one of its entries is no PGN, of this number from 1; or otherwise.
#[derive(Clone, Copy, Debug, PartialEq, Eq)]
pub enum Wrong {
    Entry(usize),
    Refused(Refusal),
}

impl Wrong {
    pub fn refusal(self) -> Refusal
        ensures { number result ≡ wrong_number self }
    {
        match self {
            Wrong::Entry(_) => Refusal::WrongEntry,
            Wrong::Refused(refusal) => refusal,
        }
    }
}

impl From<Refusal> for Wrong {
    ghost from_gives = { λ refusal wrong. wrong ≡ Refused refusal };

    fn from(reason: Refusal) -> Wrong {
        Wrong::Refused(reason)
    }
}

// The upper half of the pair byte.
fn from_port(pair: u8) -> u32
    ensures { result ≡ from_of pair }
{
    (pair / 16) as u32
}

// The lower half of the pair byte.
fn to_port(pair: u8) -> u32
    ensures { result ≡ to_of pair }
{
    (pair % 16) as u32
}

// The parameter's byte.
fn parameter_of(payload: &[u8]) -> u32
    requires { 8 ≤ length payload.now }
    ensures { result ≡ parameter_of payload.now }
{
    payload[2] as u32
}

// A change with the entries of a payload.
fn with_entries(change: Change, function: Function, from: u32, to: u32, payload: &[u8]) -> Command
    requires { 8 ≤ length payload.now }
    ensures { asked_by result ≡ WithEntries change from to (entries_start (number_of function)) (entries_end (entries_start (number_of function)) payload.now) }
{
    let start = judging::entries_start(function);
    Command::WithEntries {
        change,
        from,
        to,
        start,
        end: judging::entries_end(start, payload),
    }
}

// The number that the eight bytes from `at` on make, or those that are there.
fn word_at(payload: &[u8], at: usize) -> u64
    ensures { result ≡ packed (take 8 (drop at payload.now)) }
{
    if payload.len() < at {
        return 0;
    }
    storage::pack(&payload[at..])
}

// Add by NAME, with the NAME entry of a payload.
#[tactic(auto, unfolding(crate::specs::Decoding::name_of, crate::specs::Decoding::mask_of))]
fn add_by_name(from: u32, to: u32, payload: &[u8]) -> Command
    ensures { asked_by result ≡ WithEntries (Names (name_of payload.now) (mask_of payload.now)) from to 2 5 }
{
    let name = word_at(payload, NAME_AT);
    let mask = word_at(payload, MASK_AT);
    Command::WithEntries {
        change: Change::Names { name, mask },
        from,
        to,
        start: PGN_AT,
        end: NAME_AT,
    }
}

// The command of a payload that is not refused.
#[tactic(auto, unfolding(crate::specs::Decoding::command_of))]
fn command_of(function: Function, from: u32, to: u32, payload: &[u8]) -> Command
    requires { 8 ≤ length payload.now }
    ensures { asked_by result ≡ command_of (number_of function) from to payload.now }
{
    match function {
        Function::Request => Command::Request { from, to },
        Function::Add => with_entries(Change::Adds, function, from, to, payload),
        Function::Delete => with_entries(Change::Deletes, function, from, to, payload),
        Function::Clear => Command::Clear { from, to },
        Function::Create => {
            let change = Change::Creates(payload[2] == 1);
            with_entries(change, function, from, to, payload)
        }
        Function::AddByName => add_by_name(from, to, payload),
        Function::AddressList => Command::AddressList { port: to },
        Function::Parameter => Command::Parameter {
            parameter: parameter_of(payload),
        },
        Function::Reset => Command::Reset,
        Function::PairParameter => Command::PairParameter {
            from,
            to,
            parameter: parameter_of(payload),
        },
        Function::PairReset => Command::PairReset { from, to },
    }
}

// What a payload of at least 8 bytes that arrived at a port of a unit with so many asks, or why it is refused.
#[tactic(auto, unfolding(crate::specs::Decoding::decoded, crate::specs::Decoding::judged, crate::specs::Decoding::refusal_of))]
pub fn decode(ports: u32, port: u32, payload: &[u8]) -> Result<Command, Wrong>
    requires { (ports ≤ 8) × (8 ≤ length payload.now) }
    ensures { asked result ≡ decoded ports port payload.now }
{
    let function = Function::try_from(payload[0])?;
    let from = from_port(payload[1]);
    let to = to_port(payload[1]);
    judging::judge(ports, port, function, from, to, payload)?;
    Ok(command_of(function, from, to, payload))
}
