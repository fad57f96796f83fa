// What a network message that was decoded does, and what is written back.
#![tactic(auto)]

ghost use Rattle.std.specs.Prelude.{◌≡◌, true, ℕ, ◌+◌, ◌-◌, ◌≤◌, ◌<◌, length, get_or};
ghost use Rattle.filter.specs.Filter.{clear};
ghost use Rattle.network_message.specs.Commands.{Good};
ghost use Rattle.network_message.specs.Decoding.{function_of, is_held, longest};
ghost use Rattle.replies.specs.Replies.{list_reply, address_reply, parameter_reply};
ghost use Rattle.unit.specs.Model.{model_of, record_length, rows_from, losses_from, pair_at, general_at};
ghost use Rattle.parameters.specs.Parameters.{pair_parameter, general_parameter};
ghost use Rattle.list_commands.specs.Commands.{Beside, any_named};
ghost use Rattle.entries.specs.Entries.{entries_of};
ghost use Rattle.filter_commands.specs.Pairs.{holds_of};
ghost use Rattle.filter_commands.specs.declared.pairs.Question.{Question};
ghost use Rattle.checks.specs.Refusals.{number};
ghost use Rattle.network_message.specs.Asked.{asked};
ghost use Rattle.message_answers.specs.Answers.{denied_by, denied_number, denied_told, outcome_number, outcome_told, message_told};
ghost use Rattle.message_answers.specs.Messages.{nothing_told, absent_told, performed_by, changed_by, cleared_by, reset_at, Untouched};
ghost use Rattle.message_answers.specs.Steps.{Telling, Replying, Reporting};

use checks::Refusal;
use filter_commands::pairs::Change;
use list_commands::Absent;
use network_message::{Command, Wrong};

// Why a message is refused: one of its entries is no PGN, of this number from 1; a PGN is absent from a list; or otherwise.
#[derive(Clone, Copy, Debug, PartialEq, Eq)]
pub enum Denied {
    WrongEntry(usize),
    Absent(Absent),
    Refused(Refusal),
}

// What came of a message, and what was written to the reply buffer: the PGN and the length, 0 and 0 for nothing.
// PGN and length are of two widths, so that no two are neighbours that the compiler would read as one word: two stores have written it, and the processor
// would wait for both. The outcome stands first, since a gap before it would be copied with it.
#[derive(Clone, Copy, Debug, PartialEq, Eq)]
pub struct MessageAnswer {
    pub outcome: Result<(), Denied>,
    pub pgn: u32,
    pub length: usize,
}

// The PGN of a reply, and of an acknowledgment.
const REPLY: u32 = 60672;

const ACKNOWLEDGMENT: u32 = 59392;

// The functions of a reply with a parameter, and the byte that stands for no pair.
const GENERAL_PARAMETER_REPLY: u8 = 129;

const PAIR_PARAMETER_REPLY: u8 = 132;

const NO_PAIR: u8 = 0xFF;

// What is told where no entry is wrong: 0 throughout.
const NOTHING_TOLD: Absent = Absent {
    entry: 0,
    to: 0,
    pgn: 0,
};

impl From<Wrong> for Denied {
    ghost from_gives = { λ wrong denied. denied ≡ denied_by wrong };

    fn from(wrong: Wrong) -> Denied {
        match wrong {
            Wrong::Entry(entry) => Denied::WrongEntry(entry),
            Wrong::Refused(refusal) => Denied::Refused(refusal),
        }
    }
}

impl MessageAnswer {
    // The answer to a message that is refused before its payload is read: nothing is written.
    pub fn refused(refusal: Refusal) -> MessageAnswer
        ensures { message_told result ≡ record { refusal = number refusal; pgn = 0; length = 0; told = nothing_told } }
    {
        MessageAnswer {
            outcome: Err(Denied::Refused(refusal)),
            pgn: 0,
            length: 0,
        }
    }

    // The number of the refusal for an interface of numbers, 0 for none.
    pub fn number(self) -> u32
        ensures { result ≡ (message_told self).refusal }
    {
        match self.outcome {
            Ok(()) => 0,
            Err(Denied::WrongEntry(_)) => Refusal::WrongEntry.number(),
            Err(Denied::Absent(_)) => Refusal::Absent.number(),
            Err(Denied::Refused(refusal)) => refusal.number(),
        }
    }

    // Which entry is wrong, for an interface of numbers: with 22 its number alone, with 17 where the PGN is absent, else 0 throughout.
    pub fn told(self) -> Absent
        ensures { result ≡ (message_told self).told }
    {
        match self.outcome {
            Err(Denied::WrongEntry(entry)) => Absent {
                entry,
                to: 0,
                pgn: 0,
            },
            Err(Denied::Absent(absent)) => absent,
            _ => NOTHING_TOLD,
        }
    }
}

// Why a command is refused, with where a PGN is absent.
fn denied_by_lists(
    words: &[u64],
    ports: usize,
    refusal: Refusal,
    from: u32,
    to: u32,
    entries: &[u8],
) -> Denied
    requires { (ports ≤ 8) × (length words.now ≡ record_length ports) × (1 ≤ from) × (from ≤ ports) }
    ensures number { denied_number result ≡ number refusal }
    ensures told { (number refusal ≡ 17 → any_named ports (ports - 1) (holds_of Question.Lacks (entries_of entries.now)) from to (model_of ports words.now).rest.pairs ≡ true) → denied_told result ≡ absent_told ports (number refusal) (entries_of entries.now) from to (model_of ports words.now).rest.pairs }
{
    if refusal == Refusal::Absent {
        if let Some(absent) = list_commands::where_absent(words, ports, from, to, entries) {
            return Denied::Absent(absent);
        }
    }
    Denied::Refused(refusal)
}

// Acknowledges a command that is done or refused.
fn acknowledge(
    reply: &mut [u8],
    outcome: Result<(), Denied>,
    function: u8,
    requester: u32,
) -> MessageAnswer
    requires { (longest ≤ length reply.old) × (requester < 254) }
    ensures { Telling reply.old reply.new (outcome_number outcome) function requester (outcome_told outcome) (message_told result) }
{
    let answer = MessageAnswer {
        outcome,
        pgn: ACKNOWLEDGMENT,
        length: 8,
    };
    let control = replies::control(answer.number());
    replies::acknowledge(reply, control, function, requester as u8);
    answer
}

// The answer to a message that is replied to.
fn replied(length: usize) -> MessageAnswer
    ensures { message_told result ≡ record { refusal = 0; pgn = 60672; length = length; told = nothing_told } }
{
    MessageAnswer {
        outcome: Ok(()),
        pgn: REPLY,
        length,
    }
}

// A change of the pairs from a port, with the entries from `start` up to `end`.
fn change(
    words: &mut [u64],
    ports: usize,
    requester: u32,
    payload: &[u8],
    what: Change,
    from: u32,
    to: u32,
    start: usize,
    end: usize,
    reply: &mut [u8],
) -> MessageAnswer
    requires { (ports ≤ 8) × (length words.old ≡ record_length ports) × (longest ≤ length reply.old) × (requester < 254) × (1 ≤ from) × (from ≤ ports) × (start ≤ end) × (end ≤ length payload.now) × (8 ≤ length payload.now) }
    ensures { Replying ports words.old words.new reply.old reply.new (changed_by ports (model_of ports words.old).rest requester payload.now what from to start end) (Beside ports from to) (message_told result) }
{
    let entries = &payload[start..end];
    let outcome = match list_commands::command(words, ports, from, to, what, entries) {
        Ok(()) => Ok(()),
        Err(refusal) => Err(denied_by_lists(words, ports, refusal, from, to, entries)),
    };
    acknowledge(reply, outcome, payload[0], requester)
}

// Clears the pairs from a port that are named, and acknowledges it.
fn clear(
    words: &mut [u64],
    ports: usize,
    requester: u32,
    payload: &[u8],
    from: u32,
    to: u32,
    reply: &mut [u8],
) -> MessageAnswer
    requires { (ports ≤ 8) × (length words.old ≡ record_length ports) × (longest ≤ length reply.old) × (requester < 254) × (1 ≤ from) × (from ≤ ports) × (8 ≤ length payload.now) }
    ensures { Replying ports words.old words.new reply.old reply.new (cleared_by ports (model_of ports words.old).rest requester payload.now from to) (Beside ports from to) (message_told result) }
{
    list_commands::clear(words, ports, from, to);
    acknowledge(reply, Ok(()), payload[0], requester)
}

// Reports a pair's list.
fn report(
    words: &[u64],
    ports: usize,
    from: u32,
    to: u32,
    pair: u8,
    reply: &mut [u8],
) -> MessageAnswer
    requires { (ports ≤ 8) × (length words.now ≡ record_length ports) × (longest ≤ length reply.old) × (1 ≤ from) × (from ≤ ports) × (1 ≤ to) × (to ≤ ports) × (from ≡ to → ⊥) }
    ensures { Reporting (list_reply pair (get_or (model_of ports words.now).rest.pairs (pair_at ports (from - 1) (to - 1)) clear)) reply.old reply.new (message_told result) }
{
    let n = record::reply_list(
        words,
        ports,
        from as usize - 1,
        to as usize - 1,
        pair,
        reply,
    );
    replied(n)
}

// Reports the addresses on a port.
fn report_addresses(words: &[u64], port: u32, reply: &mut [u8]) -> MessageAnswer
    requires { (rows_from ≤ length words.now) × (longest ≤ length reply.old) × (port ≤ 8) }
    ensures { (ports : ℕ) → Reporting (address_reply port (model_of ports words.now).rest.own.address (model_of ports words.now).rest.table) reply.old reply.new (message_told result) }
{
    let unit = unit::read_unit(words);
    let n = record::reply_addresses(words, port, unit.address as usize, reply);
    replied(n)
}

// Reports a parameter, of the unit as a whole or of a pair.
fn report_value(
    reply: &mut [u8],
    function: u8,
    named: u8,
    parameter: u32,
    value: u32,
) -> MessageAnswer
    requires { (longest ≤ length reply.old) × (is_held parameter ≡ true) }
    ensures { Reporting (parameter_reply function named parameter value) reply.old reply.new (message_told result) }
{
    let n = replies::reply_parameter(reply, function, named, parameter as u8, value);
    replied(n)
}

// Reports a parameter of the unit as a whole.
fn report_general(words: &[u64], ports: usize, parameter: u32, reply: &mut [u8]) -> MessageAnswer
    requires { (1 ≤ ports) × (ports ≤ 8) × (length words.now ≡ record_length ports) × (longest ≤ length reply.old) × (is_held parameter ≡ true) }
    ensures { Reporting (parameter_reply 129 0xFF parameter (general_parameter ports (model_of ports words.now).rest (model_of ports words.now).seen parameter)) reply.old reply.new (message_told result) }
{
    let value = parameters::of_unit(words, ports, parameter);
    report_value(reply, GENERAL_PARAMETER_REPLY, NO_PAIR, parameter, value)
}

// Reports a parameter of a pair.
fn report_pair(
    words: &[u64],
    ports: usize,
    from: u32,
    to: u32,
    parameter: u32,
    pair: u8,
    reply: &mut [u8],
) -> MessageAnswer
    requires { (ports ≤ 8) × (length words.now ≡ record_length ports) × (longest ≤ length reply.old) × (1 ≤ from) × (from ≤ ports) × (1 ≤ to) × (to ≤ ports) × (from ≡ to → ⊥) × (is_held parameter ≡ true) }
    ensures { Reporting (parameter_reply 132 pair parameter (pair_parameter ports (model_of ports words.now).rest (model_of ports words.now).seen (from - 1) (to - 1) parameter)) reply.old reply.new (message_told result) }
{
    let value = parameters::of_pair(words, ports, from as usize - 1, to as usize - 1, parameter);
    report_value(reply, PAIR_PARAMETER_REPLY, pair, parameter, value)
}

// Resets the general counter of losses, and acknowledges it.
fn reset_general(
    words: &mut [u64],
    ports: usize,
    requester: u32,
    payload: &[u8],
    reply: &mut [u8],
) -> MessageAnswer
    requires { (1 ≤ ports) × (ports ≤ 8) × (length words.old ≡ record_length ports) × (longest ≤ length reply.old) × (requester < 254) × (8 ≤ length payload.now) }
    ensures { Replying ports words.old words.new reply.old reply.new (reset_at (general_at ports) requester payload.now (model_of ports words.old).rest.pairs) (λ n. n ≡ losses_from ports + general_at ports → ⊥) (message_told result) }
{
    let counter = record::general_at(ports);
    record::reset_losses(words, ports, counter);
    acknowledge(reply, Ok(()), payload[0], requester)
}

// Resets the counter of a pair, and acknowledges it.
fn reset_pair(
    words: &mut [u64],
    ports: usize,
    requester: u32,
    payload: &[u8],
    from: u32,
    to: u32,
    reply: &mut [u8],
) -> MessageAnswer
    requires { (ports ≤ 8) × (length words.old ≡ record_length ports) × (longest ≤ length reply.old) × (requester < 254) × (8 ≤ length payload.now) × (1 ≤ from) × (from ≤ ports) × (1 ≤ to) × (to ≤ ports) × (from ≡ to → ⊥) }
    ensures { Replying ports words.old words.new reply.old reply.new (reset_at (pair_at ports (from - 1) (to - 1)) requester payload.now (model_of ports words.old).rest.pairs) (λ n. n ≡ losses_from ports + pair_at ports (from - 1) (to - 1) → ⊥) (message_told result) }
{
    let counter = record::pair_at(ports, from as usize - 1, to as usize - 1);
    record::reset_losses(words, ports, counter);
    acknowledge(reply, Ok(()), payload[0], requester)
}

// What a payload asks is done and answered, or its refusal acknowledged.
#[tactic(auto, unfolding(crate::specs::Messages::performed_by))]
pub fn perform(
    words: &mut [u64],
    ports: usize,
    requester: u32,
    payload: &[u8],
    command: Result<Command, Wrong>,
    reply: &mut [u8],
) -> MessageAnswer
    requires { (ports ≤ 8) × (length words.old ≡ record_length ports) × (longest ≤ length reply.old) × (requester < 254) × (8 ≤ length payload.now) × Good ports payload.now (asked command) × (1 ≤ ports) }
    ensures { Replying ports words.old words.new reply.old reply.new (performed_by ports (model_of ports words.old).rest requester payload.now (asked command)) (Untouched ports (asked command)) (message_told result) }
{
    match command {
        Err(wrong) => acknowledge(reply, Err(wrong.into()), payload[0], requester),
        Ok(Command::Request { from, to }) => report(words, ports, from, to, payload[1], reply),
        Ok(
            Command::WithEntries {
                change: what,
                from,
                to,
                start,
                end,
            },
        ) => change(
            words, ports, requester, payload, what, from, to, start, end, reply,
        ),
        Ok(Command::Clear { from, to }) => clear(words, ports, requester, payload, from, to, reply),
        Ok(Command::AddressList { port }) => report_addresses(words, port, reply),
        Ok(Command::Parameter { parameter }) => report_general(words, ports, parameter, reply),
        Ok(Command::Reset) => reset_general(words, ports, requester, payload, reply),
        Ok(
            Command::PairParameter {
                from,
                to,
                parameter,
            },
        ) => report_pair(words, ports, from, to, parameter, payload[1], reply),
        Ok(Command::PairReset { from, to }) => reset_pair(
            words, ports, requester, payload, from, to, reply,
        ),
    }
}
