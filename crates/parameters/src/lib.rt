// The parameters that a tool asks for: what each is worth, of a pair and in general.
#![tactic(auto)]

ghost use Rattle.std.specs.Prelude.{◌≡◌, ℕ, ◌*◌, ◌^◌, ◌≤◌, ◌<◌, length};
ghost use Rattle.unit.specs.Count.{pair_count};
ghost use Rattle.unit.specs.Ports.{total};
ghost use Rattle.unit.specs.Model.{model_of, record_length};
ghost use Rattle.parameters.specs.Parameters.{entries_at, pair_parameter, general_parameter};

use network_message::{BUFFER_SIZE, ENTRIES, LIST_SIZE};

// The bytes of a port's queue, 13 for each place, and of a pair's list, 3 for each.
const QUEUE_BYTES: usize = 13 * queue::SIZE;

const LIST_BYTES: usize = 3 * pgn_list::LIST_SIZE;

// The entries of all lists.
fn entries_of_all(words: &[u64], ports: usize) -> u32
    requires { (1 ≤ ports) × (ports ≤ 8) × (length words.now ≡ record_length ports) }
    ensures { (result ≡ total (entries_at (model_of ports words.now).rest) (pair_count ports)) × (result < 2 ^ 16) }
{
    let mut sum = 0;
    for i in 0..record::general_at(ports) {
        sum += record::entries_of(words, ports, i);
    }
    sum
}

// A parameter of the pair from one port to another.
pub fn of_pair(words: &[u64], ports: usize, from: usize, to: usize, parameter: u32) -> u32
    requires { (ports ≤ 8) × (length words.now ≡ record_length ports) × (from < ports) × (to < ports) × (from ≡ to → ⊥) }
    ensures { (result ≡ pair_parameter ports (model_of ports words.now).rest (model_of ports words.now).seen from to parameter) × (result < 2 ^ 16) }
{
    let pair = record::pair_at(ports, from, to);
    match parameter {
        BUFFER_SIZE => QUEUE_BYTES as u32,
        LIST_SIZE => LIST_BYTES as u32,
        ENTRIES => record::entries_of(words, ports, pair),
        _ => record::losses_at(words, ports, pair),
    }
}

// A parameter of the unit as a whole.
pub fn of_unit(words: &[u64], ports: usize, parameter: u32) -> u32
    requires { (1 ≤ ports) × (ports ≤ 8) × (length words.now ≡ record_length ports) }
    ensures { (result ≡ general_parameter ports (model_of ports words.now).rest (model_of ports words.now).seen parameter) × (result < 2 ^ 16) }
{
    let pairs = record::general_at(ports);
    match parameter {
        BUFFER_SIZE => (QUEUE_BYTES * ports) as u32,
        LIST_SIZE => (LIST_BYTES * pairs) as u32,
        ENTRIES => entries_of_all(words, ports),
        _ => record::losses_at(words, ports, pairs),
    }
}
