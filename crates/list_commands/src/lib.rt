// A command on the pairs from a port: judged on all that it names before any is changed.
#![tactic(auto)]

ghost use Rattle.std.specs.Prelude.{◌≡◌, true, ℕ, suc, ◌+◌, ◌-◌, ◌≤◌, List, [], ◌∷◌, length};
ghost use Rattle.checks.specs.Refusals.{number_in};
ghost use Rattle.entries.specs.Entries.{entries_of};
ghost use Rattle.filter.specs.Filter.{Filter, clear};
ghost use Rattle.unit.specs.Count.{pair_count};
ghost use Rattle.unit.specs.Model.{model_of, record_length};
ghost use Rattle.list_commands.specs.Commands.{target_of, first_pair, any_named, list_checks, list_refusal, absent_at};
ghost use Rattle.filter_commands.specs.Pairs.{holds_of};
ghost use Rattle.filter_commands.specs.declared.pairs.Question.{Question};
ghost use Rattle.list_commands.specs.Steps.{Naming, PairsChanging, Trying, Commanding, Seeking, asked_of};

use checks::Refusal;
use filter_commands::pairs::{Change, Question};

// To 15: all pairs from a port.
const ALL_PORTS: u32 = 15;

// The pairs that a command names, by their places among the pairs of a unit with so many ports: those from `first` up to `end`.
#[derive(Clone, Copy)]
struct Named {
    ports: usize,
    first: usize,
    end: usize,
    ghost few: { ports ≤ 8 },
    ghost ordered: { first ≤ end },
    ghost inside: { end ≤ pair_count ports },
}

// A question to each pair that is named, and why a command is refused where the answer is yes for one.
#[derive(Clone, Copy)]
struct Check {
    question: Question,
    refusal: Refusal,
}

// The place of a port's first pair among the pairs.
fn first_pair(ports: usize, from: u32) -> usize
    requires { (ports ≤ 8) × (1 ≤ from) × (from ≤ ports) }
    ensures { (result ≡ first_pair ports from) × (result + (ports - 1) ≤ pair_count ports) × (result ≤ 56) }
{
    (ports - 1) * (from as usize - 1)
}

// The pairs from a port that a To names: one, by 15 all, and none where it is no other port.
fn pairs_named(ports: usize, from: u32, to: u32) -> Named
    requires { (ports ≤ 8) × (1 ≤ from) × (from ≤ ports) }
    ensures { Naming result.ports from to result.first result.end × (result.ports ≡ ports) }
{
    let row = first_pair(ports, from);
    let q = to as usize;
    if to == ALL_PORTS {
        return Named {
            ports,
            first: row,
            end: row + (ports - 1),
        };
    }
    if 0 < to && to < from {
        return Named {
            ports,
            first: row + (q - 1),
            end: row + q,
        };
    }
    if from < to && q <= ports {
        return Named {
            ports,
            first: row + (q - 2),
            end: row + (q - 1),
        };
    }
    Named {
        ports,
        first: row,
        end: row,
    }
}

// What a change is refused for, the first before the second.
#[tactic(auto, unfolding(crate::specs::Commands::list_checks))]
fn checks_of(change: Change) -> (Check, Check)
    ensures { (ports from to : ℕ) (xs : List ℕ) (pairs : List Filter) → list_checks ports change xs from to pairs ≡ asked_of result.0 ports xs from to pairs ∷ asked_of result.1 ports xs from to pairs ∷ [] }
{
    let full = Check {
        question: Question::WouldPass,
        refusal: Refusal::Full,
    };
    let cleared = Check {
        question: Question::IsCleared,
        refusal: Refusal::Cleared,
    };
    match change {
        Change::Adds => (cleared, full),
        Change::Deletes => {
            let absent = Check {
                question: Question::Lacks,
                refusal: Refusal::Absent,
            };
            (cleared, absent)
        }
        Change::Creates(_) => {
            let not_cleared = Check {
                question: Question::IsNotCleared,
                refusal: Refusal::NotCleared,
            };
            (not_cleared, full)
        }
        Change::Names { name, mask } => {
            let names_full = Check {
                question: Question::NamesFull { name, mask },
                refusal: Refusal::Full,
            };
            (cleared, names_full)
        }
    }
}

impl Named {
    // Whether the answer is yes for one of them.
    fn any(self, words: &[u64], question: Question, entries: &[u8]) -> bool
        requires { length words.now ≡ record_length self.ports }
        ensures { (from to : ℕ) → Naming self.ports from to self.first self.end → result ≡ any_named self.ports (self.ports - 1) (holds_of question (entries_of entries.now)) from to (model_of self.ports words.now).rest.pairs }
    {
        for pair in self.first..self.end {
            if record::question(words, self.ports, pair, question, entries) {
                return true;
            }
        }
        false
    }

    // Whether a change is refused by the lists, and why.
    fn check(self, words: &[u64], change: Change, entries: &[u8]) -> Result<(), Refusal>
        requires { length words.now ≡ record_length self.ports }
        ensures { (from to : ℕ) → Naming self.ports from to self.first self.end → number_in result ≡ list_refusal self.ports change (entries_of entries.now) from to (model_of self.ports words.now).rest.pairs }
    {
        let (first, second) = checks_of(change);
        if self.any(words, first.question, entries) {
            return Err(first.refusal);
        }
        if self.any(words, second.question, entries) {
            return Err(second.refusal);
        }
        Ok(())
    }

    // Changes each of them, up to one that may not be changed. Tells whether all were.
    fn change(self, words: &mut [u64], change: Change, entries: &[u8]) -> bool
        requires { length words.old ≡ record_length self.ports }
        ensures { (from to : ℕ) → Naming self.ports from to self.first self.end → Trying self.ports words.old words.new from to self.first self.end change (entries_of entries.now) result }
    {
        for pair in self.first..self.end {
            if !record::change(words, self.ports, pair, change, entries) {
                return false;
            }
        }
        true
    }

    // Clears each of them.
    fn clear(self, words: &mut [u64])
        requires { length words.old ≡ record_length self.ports }
        ensures { (from to : ℕ) → Naming self.ports from to self.first self.end → PairsChanging self.ports words.old words.new from to (λ _. clear) }
    {
        for pair in self.first..self.end {
            record::clear(words, self.ports, pair);
        }
    }

    // The first entry that is absent, in one pair after the other.
    fn first_absent(self, words: &[u64], entries: &[u8]) -> Option<Stop>
        requires { length words.now ≡ record_length self.ports }
        ensures { Seeking (model_of self.ports words.now).rest.pairs (entries_of entries.now) self.first self.end result }
    {
        'search: {
            for pair in self.first..self.end {
                for entry in 0..entries::count(entries) {
                    let pgn = entries::entry_at(entries, entry);
                    if !record::lists(words, self.ports, pair, pgn) {
                        let entry = entry + 1;
                        break 'search Some(Stop { pair, entry, pgn });
                    }
                }
            }
            None
        }
    }
}

// A command with entries: on all pairs that it names, or refused on none. Several are judged before one is changed; a single one is judged by the change, and
// the reason looked for if that was not done.
pub fn command(
    words: &mut [u64],
    ports: usize,
    from: u32,
    to: u32,
    change: Change,
    entries: &[u8],
) -> Result<(), Refusal>
    requires { (ports ≤ 8) × (length words.old ≡ record_length ports) × (1 ≤ from) × (from ≤ ports) }
    ensures { Commanding ports words.old words.new from to change (entries_of entries.now) (number_in result) }
{
    let named = pairs_named(ports, from, to);
    if named.first + 1 < named.end {
        named.check(words, change, entries)?;
    }
    if named.change(words, change, entries) {
        return Ok(());
    }
    named.check(words, change, entries)
}

// Clear: on all pairs that it names.
pub fn clear(words: &mut [u64], ports: usize, from: u32, to: u32)
    requires { (ports ≤ 8) × (length words.old ≡ record_length ports) × (1 ≤ from) × (from ≤ ports) }
    ensures { PairsChanging ports words.old words.new from to (λ _. clear) }
{
    pairs_named(ports, from, to).clear(words);
}

// Where a PGN is absent: the number of its entry from 1, the To port of the pair, the PGN.
#[derive(Clone, Copy, Debug, PartialEq, Eq)]
pub struct Absent {
    pub entry: usize,
    pub pgn: u64,
    pub to: u32,
}

// Where a search stopped: the place of the pair among the pairs, the number of the entry from 1, its PGN.
#[derive(Clone, Copy)]
struct Stop {
    pair: usize,
    entry: usize,
    pgn: u64,
}

// The other port that the kth pair from a port leads to.
fn leads_to(from: u32, k: usize) -> u32
    requires { (1 ≤ from) × (k ≤ 8) }
    ensures { result ≡ suc (target_of (from - 1) k) }
{
    if k < from as usize - 1 {
        return k as u32 + 1;
    }
    k as u32 + 2
}

// Where a Delete names a PGN that is absent, if it does.
pub fn where_absent(
    words: &[u64],
    ports: usize,
    from: u32,
    to: u32,
    entries: &[u8],
) -> Option<Absent>
    requires { (ports ≤ 8) × (length words.now ≡ record_length ports) × (1 ≤ from) × (from ≤ ports) }
    ensures { any_named ports (ports - 1) (holds_of Question.Lacks (entries_of entries.now)) from to (model_of ports words.now).rest.pairs ≡ true → result ≡ Some (absent_at ports (entries_of entries.now) from to (model_of ports words.now).rest.pairs) }
{
    let stop = pairs_named(ports, from, to).first_absent(words, entries)?;
    Some(Absent {
        entry: stop.entry,
        to: leads_to(from, stop.pair - first_pair(ports, from)),
        pgn: stop.pgn,
    })
}
