// The record's parts: a filter, a queue or the address table is lent to its crate, one at a time.
#![tactic(auto)]

ghost use Rattle.std.specs.Prelude.{◌≡◌, ℕ, ◌+◌, ◌-◌, ◌*◌, ◌≤◌, ◌<◌, length, get_or, set, leb, Option, None};
ghost use Rattle.addresses.specs.Table.{name_at};
ghost use Rattle.address_claims.specs.Claims.{claimed, claim_event, withdrawn, withdraw_event, others_dropped, settled};
ghost use Rattle.filter.specs.Filter.{clear, filter_of, block_size as filter_length};
ghost use Rattle.entries.specs.Entries.{listed, entries_of};
ghost use Rattle.network_message.specs.Decoding.{longest};
ghost use Rattle.pgn_list.specs.PgnList.{list_size};
ghost use Rattle.sorted_list.specs.SortedList.{most_probes};
ghost use Rattle.name_entries.specs.NameEntries.{most_names};
ghost use Rattle.queue.specs.Queue.{block_length as queue_length};
ghost use Rattle.losses.specs.Losses.{most, one_more, counter_length};
ghost use Rattle.replies.specs.Replies.{list_reply, address_reply, Writing};
ghost use Rattle.filter_commands.specs.Pairs.{holds_of, may_of, change_of};
ghost use Rattle.unit.specs.Count.{pair_count};
ghost use Rattle.unit.specs.Model.{model_of, queue_on, record_length, rows_from, pairs_from, losses_from, pair_at, general_at};
ghost use Rattle.record.specs.Steps.{PairChanging, PairJudging, PairAsking, RowJoining, RowTaking, LossesChanging, TableChanging, TableClaiming};

use address_claims::Event;
use addresses::Held;
use filter::Asked;
use filter_commands::pairs::{Change, Question};
use queue::{Frame, Tally};
use unit::Unit;

// The place of a port's first pair among the pairs.
fn first_pair(ports: usize, from: usize) -> usize
    requires { (ports ≤ 8) × (from < ports) }
    ensures { result ≡ (ports - 1) * from }
{
    (ports - 1) * from
}

// The place of a pair among the pairs.
pub fn pair_at(ports: usize, from: usize, to: usize) -> usize
    requires { (ports ≤ 8) × (from < ports) × (to < ports) × (from ≡ to → ⊥) }
    ensures { (result ≡ pair_at ports from to) × (result < pair_count ports) }
{
    let first = first_pair(ports, from);
    if to < from {
        return first + to;
    }
    first + (to - 1)
}

// Where the filter of pair i begins.
fn filter_at(ports: usize, i: usize) -> usize
    requires { (ports ≤ 8) × (i ≤ pair_count ports) }
    ensures { result ≡ pairs_from ports + filter_length * i }
{
    Unit::QUEUES_AT + queue::BLOCK_LENGTH * ports + filter::BLOCK_SIZE * i
}

// The place of the general counter of losses among the counters: behind those of the pairs.
pub fn general_at(ports: usize) -> usize
    requires { (1 ≤ ports) × (ports ≤ 8) }
    ensures { result ≡ general_at ports }
{
    ports * (ports - 1)
}

// Where counter i of losses lies.
fn counter_at(ports: usize, i: usize) -> usize
    requires { (1 ≤ ports) × (ports ≤ 8) × (i ≤ pair_count ports) }
    ensures { result ≡ losses_from ports + counter_length * i }
{
    let pairs = general_at(ports);
    filter_at(ports, pairs) + losses::COUNTER_LENGTH * i
}

// Where the filters of the pairs from a port begin: they stand side by side, in order of the ports that the pairs lead to.
pub fn filters_from(ports: usize, from: usize) -> usize
    requires { (ports ≤ 8) × (from < ports) }
    ensures { result ≡ pairs_from ports + filter_length * ((ports - 1) * from) }
{
    let i = first_pair(ports, from);
    filter_at(ports, i)
}

// Whether the pair whose filter begins at a word may have NAME entries.
pub fn has_names(words: &[u64], a: usize) -> bool
    requires { a + filter_length ≤ length words.now }
    ensures { result ≡ leb 3 (get_or words.now a 0) }
{
    filter::has_names(&words[a..a + filter::BLOCK_SIZE])
}

// Asks the pair whose filter begins at a word, which has no NAME entries, about a PGN: whoever sent it.
pub fn ask_plain(words: &[u64], a: usize, pgn: u32) -> Asked
    requires { (a + filter_length ≤ length words.now) × (get_or words.now a 0 < 3) }
    ensures { ((ports p q : ℕ) (sender : Option ℕ) → pair_at ports p q < pair_count ports → a ≡ pairs_from ports + filter_length * pair_at ports p q → PairAsking ports words.now p q pgn sender result) × (result.compared ≤ most_probes) }
{
    filter::ask_plain(&words[a..a + filter::BLOCK_SIZE], pgn)
}

// Asks the pair whose filter begins at a word about a PGN from an address. The sender's NAME is looked up where the pair may have NAME entries.
pub fn ask_filter(words: &[u64], a: usize, pgn: u32, address: u32) -> Asked
    requires { (rows_from ≤ length words.now) × (a + filter_length ≤ length words.now) }
    ensures { ((ports p q : ℕ) → pair_at ports p q < pair_count ports → a ≡ pairs_from ports + filter_length * pair_at ports p q → PairAsking ports words.now p q pgn (name_at (model_of ports words.now).rest.table address) result) × (result.compared ≤ most_probes + most_names) }
{
    if has_names(words, a) {
        let from = sender(words, address);
        return filter::ask_named(&words[a..a + filter::BLOCK_SIZE], pgn, from);
    }
    ask_plain(words, a, pgn)
}

// Asks the pair from one port to another.
pub fn ask_pair(
    words: &[u64],
    ports: usize,
    from: usize,
    to: usize,
    pgn: u32,
    address: u32,
) -> Asked
    requires { (ports ≤ 8) × (length words.now ≡ record_length ports) × (from < ports) × (to < ports) × (from ≡ to → ⊥) }
    ensures { PairAsking ports words.now from to pgn (name_at (model_of ports words.now).rest.table address) result }
{
    let i = pair_at(ports, from, to);
    let a = filter_at(ports, i);
    ask_filter(words, a, pgn, address)
}

// The filter of pair i, to be read.
fn filter_block(words: &[u64], ports: usize, i: usize) -> &[u64]
    requires { (ports ≤ 8) × (length words.now ≡ record_length ports) × (i < pair_count ports) }
    ensures { (length result.now ≡ filter_length) × (filter_of result.now ≡ get_or (model_of ports words.now).rest.pairs i clear) }
{
    let a = filter_at(ports, i);
    &words[a..a + filter::BLOCK_SIZE]
}

// Whether the list of pair i holds a PGN.
pub fn lists(words: &[u64], ports: usize, i: usize, pgn: u64) -> bool
    requires { (ports ≤ 8) × (length words.now ≡ record_length ports) × (i < pair_count ports) }
    ensures { result ≡ listed pgn (get_or (model_of ports words.now).rest.pairs i clear).entries }
{
    filter::lists(filter_block(words, ports, i), pgn)
}

// A question to pair i, before a command with these entries.
pub fn question(words: &[u64], ports: usize, i: usize, question: Question, entries: &[u8]) -> bool
    requires { (ports ≤ 8) × (length words.now ≡ record_length ports) × (i < pair_count ports) }
    ensures { result ≡ holds_of question (entries_of entries.now) (get_or (model_of ports words.now).rest.pairs i clear) }
{
    filter_commands::pairs::answer(filter_block(words, ports, i), question, entries)
}

// A command with entries changes pair i. Tells whether it was done.
pub fn change(words: &mut [u64], ports: usize, i: usize, change: Change, entries: &[u8]) -> bool
    requires { (ports ≤ 8) × (length words.old ≡ record_length ports) × (i < pair_count ports) }
    ensures { PairJudging ports words.old words.new i (may_of change (entries_of entries.now)) (change_of change (entries_of entries.now)) result }
{
    let a = filter_at(ports, i);
    filter_commands::pairs::apply(&mut words[a..a + filter::BLOCK_SIZE], change, entries)
}

// Pair i is cleared.
pub fn clear(words: &mut [u64], ports: usize, i: usize)
    requires { (ports ≤ 8) × (length words.old ≡ record_length ports) × (i < pair_count ports) }
    ensures { PairChanging ports words.old words.new i (λ _. clear) }
{
    let a = filter_at(ports, i);
    filter_commands::clear(&mut words[a..a + filter::BLOCK_SIZE]);
}

// A frame joins a port's queue, or is lost there. The place of a queue, as that of the table, does not depend on the number of ports.
pub fn join_row(words: &mut [u64], q: usize, f: Frame) -> bool
    requires { rows_from + queue_length * q + queue_length ≤ length words.old }
    ensures { (ports : ℕ) → q < ports → RowJoining ports words.old words.new q f result }
{
    let a = Unit::QUEUES_AT + queue::BLOCK_LENGTH * q;
    queue::join(&mut words[a..a + queue::BLOCK_LENGTH], f)
}

// A frame leaves a port's queue.
pub fn take_row(words: &mut [u64], q: usize) -> Option<Frame>
    requires { rows_from + queue_length * q + queue_length ≤ length words.old }
    ensures { (ports : ℕ) → q < ports → RowTaking ports words.old words.new q result }
{
    let a = Unit::QUEUES_AT + queue::BLOCK_LENGTH * q;
    queue::take(&mut words[a..a + queue::BLOCK_LENGTH])
}

// What is counted at a port.
pub fn counts_at(words: &[u64], q: usize) -> Tally
    requires { rows_from + queue_length * q + queue_length ≤ length words.now }
    ensures { (ports : ℕ) → q < ports → result ≡ (queue_on (model_of ports words.now) q).tally }
{
    let a = Unit::QUEUES_AT + queue::BLOCK_LENGTH * q;
    queue::counts(&words[a..a + queue::BLOCK_LENGTH])
}

// One more loss is counted.
pub fn count_loss(words: &mut [u64], ports: usize, i: usize)
    requires { (1 ≤ ports) × (ports ≤ 8) × (length words.old ≡ record_length ports) × (i ≤ pair_count ports) }
    ensures { LossesChanging ports words.old words.new i one_more }
{
    let a = counter_at(ports, i);
    losses::count(&mut words[a]);
}

// A counter of losses begins anew.
pub fn reset_losses(words: &mut [u64], ports: usize, i: usize)
    requires { (1 ≤ ports) × (ports ≤ 8) × (length words.old ≡ record_length ports) × (i ≤ pair_count ports) }
    ensures { LossesChanging ports words.old words.new i (λ n. 0) }
{
    let a = counter_at(ports, i);
    losses::reset(&mut words[a]);
}

// The losses that are counted.
pub fn losses_at(words: &[u64], ports: usize, i: usize) -> u32
    requires { (1 ≤ ports) × (ports ≤ 8) × (length words.now ≡ record_length ports) × (i ≤ pair_count ports) }
    ensures { (result ≡ get_or (model_of ports words.now).seen.losses i 0) × (result ≤ most) }
{
    let a = counter_at(ports, i);
    losses::counted(&words[a])
}

// How many PGNs the list of pair i holds.
pub fn entries_of(words: &[u64], ports: usize, i: usize) -> u32
    requires { (ports ≤ 8) × (length words.now ≡ record_length ports) × (i < pair_count ports) }
    ensures { (result ≡ length (get_or (model_of ports words.now).rest.pairs i clear).entries) × (result ≤ list_size) }
{
    filter::count(filter_block(words, ports, i)) as u32
}

// Who holds an address, if it is not free.
pub fn holder(words: &[u64], address: usize) -> Option<Held>
    requires { (rows_from ≤ length words.now) × (address < 254) }
    ensures { (ports : ℕ) → result ≡ get_or (model_of ports words.now).rest.table address None }
{
    addresses::holder(&words[Unit::TABLE_AT..Unit::QUEUES_AT], address)
}

// The NAME that the table gives a sender's address.
fn sender(words: &[u64], address: u32) -> Option<u64>
    requires { rows_from ≤ length words.now }
    ensures { (ports : ℕ) → result ≡ name_at (model_of ports words.now).rest.table address }
{
    if 253 < address {
        return None;
    }
    match holder(words, address as usize) {
        None => None,
        Some(held) => Some(held.name),
    }
}

// An address becomes free.
pub fn release(words: &mut [u64], address: usize)
    requires { (rows_from ≤ length words.old) × (address < 254) }
    ensures { (ports : ℕ) → TableChanging ports words.old words.new (λ t. set t address None) }
{
    addresses::release(&mut words[Unit::TABLE_AT..Unit::QUEUES_AT], address);
}

// Every address of a NAME but one becomes free.
pub fn drop_others(words: &mut [u64], name: u64, keep: usize)
    requires { rows_from ≤ length words.old }
    ensures { (ports : ℕ) → TableChanging ports words.old words.new (others_dropped name keep) }
{
    address_claims::drop_others(&mut words[Unit::TABLE_AT..Unit::QUEUES_AT], name, keep);
}

// A NAME that displaces the unit is recorded.
pub fn settle(words: &mut [u64], port: u64, address: usize, name: u64)
    requires { (rows_from ≤ length words.old) × (address < 254) }
    ensures { (ports : ℕ) → TableChanging ports words.old words.new (settled port address name) }
{
    address_claims::settle(
        &mut words[Unit::TABLE_AT..Unit::QUEUES_AT],
        port,
        address,
        name,
    );
}

// A claim of an address that is not the unit's.
pub fn claim(words: &mut [u64], port: u64, address: usize, name: u64) -> Event
    requires { (rows_from ≤ length words.old) × (address < 254) }
    ensures { (ports : ℕ) → TableClaiming ports words.old words.new (claimed port address name) (claim_event address name) result }
{
    address_claims::claim(
        &mut words[Unit::TABLE_AT..Unit::QUEUES_AT],
        port,
        address,
        name,
    )
}

// A claim from no address.
pub fn withdraw(words: &mut [u64], name: u64) -> Event
    requires { rows_from ≤ length words.old }
    ensures { (ports : ℕ) → TableClaiming ports words.old words.new (withdrawn name) (withdraw_event name) result }
{
    address_claims::withdraw(&mut words[Unit::TABLE_AT..Unit::QUEUES_AT], name)
}

// Writes the reply that reports a pair's list, and tells its length.
pub fn reply_list(
    words: &[u64],
    ports: usize,
    from: usize,
    to: usize,
    pair: u8,
    reply: &mut [u8],
) -> usize
    requires { (ports ≤ 8) × (length words.now ≡ record_length ports) × (from < ports) × (to < ports) × (from ≡ to → ⊥) × (longest ≤ length reply.old) }
    ensures { Writing (list_reply pair (get_or (model_of ports words.now).rest.pairs (pair_at ports from to) clear)) reply.old reply.new longest result }
{
    let i = pair_at(ports, from, to);
    replies::reply_list(filter_block(words, ports, i), pair, reply)
}

// Writes the reply that reports the addresses on a port, and tells its length.
pub fn reply_addresses(words: &[u64], port: u32, except: usize, reply: &mut [u8]) -> usize
    requires { (rows_from ≤ length words.now) × (port < 256) × (longest ≤ length reply.old) }
    ensures { (ports : ℕ) → Writing (address_reply port except (model_of ports words.now).rest.table) reply.old reply.new longest result }
{
    replies::reply_addresses(&words[Unit::TABLE_AT..Unit::QUEUES_AT], port, except, reply)
}
