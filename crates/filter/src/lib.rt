// One directed pair's filter, in a lent block of words: mode, count, the PGNs in order of addition, behind them the NAME entries, and behind
// those the PGNs in rising order; and what is asked of it.
#![tactic(auto)]

ghost use Rattle.std.specs.Prelude.{◌≡◌, List, ℕ, ◌<◌, ◌≤◌, length, get_or, leb, Option};
ghost use Rattle.entries.specs.Entries.{listed};
ghost use Rattle.name_entries.specs.NameEntries.{NameEntry};
ghost use Rattle.sorted_list.specs.SortedList.{Finding, most_probes};
ghost use Rattle.filter.specs.Filter.{mode_place, names_place, block_size, meant, filter_of, is_cleared, reported_mode};
ghost use Rattle.filter.specs.Filter.{is_permanent, is_block, reason_of, reason_by_list, crosses, reason_number, Asking, Counting};

use pgn_list::LIST_SIZE;
use sorted_list::Probed;

// Where a block has its mode, its count and its list, up to LIST_END. The NAME entries stand behind it; what asks or changes the list alone is lent a block
// without them too, as a plan has it.
pub const MODE: usize = 0;

pub const COUNT: usize = 1;

pub const LIST: usize = 2;

pub const LIST_END: usize = LIST + LIST_SIZE;

// Where the PGNs stand in rising order, as many as the count says.
pub const SORTED: usize = 59;

// The words of a block.
pub const BLOCK_SIZE: usize = SORTED + LIST_SIZE;

// The mode word.
pub const CLEARED: u64 = 0;

pub const BLOCK: u64 = 1;

pub const PASS: u64 = 2;

// Block with NAME entries; any number above it is pass with them. Below it the words behind the list mean nothing, so Clear and Create leave no NAME entry.
pub const BLOCK_NAMED: u64 = 3;

// Why a frame crosses a pair or not. NotAsked is of a port whose pair is not asked.
#[derive(Clone, Copy, Debug, PartialEq, Eq)]
pub enum Reason {
    NotAsked = 0,
    Permanent = 1,
    Cleared = 2,
    ListedInPass = 3,
    NotListedInBlock = 4,
    StoppedAsListed = 5,
    StoppedAsNotListed = 6,
}

// What asking a pair answers.
#[derive(Clone, Copy, Debug, PartialEq, Eq)]
pub struct Asked {
    pub reason: Reason,
    pub compared: u32,
}

impl Reason {
    // The reason's number, as C has it.
    pub fn number(self) -> u32
        ensures { result ≡ reason_number self }
    {
        self as u32
    }

    // Whether the frame crosses.
    pub fn crosses(self) -> bool
        ensures { result ≡ crosses self }
    {
        matches!(
            self,
            Reason::Permanent | Reason::Cleared | Reason::ListedInPass | Reason::NotListedInBlock
        )
    }
}

// Whether the pair is cleared: refusal 15 of Add and Delete, and where it is not, 14 of Create.
pub fn is_cleared(block: &[u64]) -> bool
    requires { names_place ≤ length block.now }
    ensures { result ≡ is_cleared (filter_of block.now).mode }
{
    block[MODE] == CLEARED
}

// The mode as a reply reports it.
pub fn reported_mode(block: &[u64]) -> u8
    requires { names_place ≤ length block.now }
    ensures { result ≡ reported_mode (filter_of block.now).mode }
{
    let mode = block[MODE];
    if mode == PASS {
        return 1;
    }
    if BLOCK_NAMED < mode { 1 } else { 0 }
}

// How many PGNs the list holds: none where the pair is cleared, and never more than LIST_SIZE.
pub fn count(block: &[u64]) -> usize
    requires { names_place ≤ length block.now }
    ensures { Counting block.now result }
{
    if block[MODE] == CLEARED {
        return 0;
    }
    block[COUNT].min(LIST_SIZE as u64) as usize
}

// The PGN at index i of the list.
pub fn pgn_at(block: &[u64], i: usize) -> u64
    requires { (names_place ≤ length block.now) × (i < length (filter_of block.now).entries) }
    ensures { result ≡ get_or (filter_of block.now).entries i 0 }
{
    block[LIST + i]
}

// Whether the list holds a PGN.
pub fn lists(block: &[u64], pgn: u64) -> bool
    requires { names_place ≤ length block.now }
    ensures { result ≡ listed pgn (filter_of block.now).entries }
{
    let n = count(block);
    pgn_list::is_listed(&block[LIST..LIST + n], pgn)
}

// Whether a PGN is permanent: address claims and requests cross every pair.
#[tactic(auto, unfolding(crate::specs::Filter::is_permanent))]
pub fn is_permanent(pgn: u32) -> bool
    ensures { result ≡ is_permanent pgn }
{
    pgn == identifier::ADDRESS_CLAIMED || pgn == identifier::REQUEST
}

// Whether a mode word blocks.
#[tactic(auto, unfolding(crate::specs::Filter::is_block))]
fn is_block(mode: u64) -> bool
    ensures { result ≡ is_block mode }
{
    mode == BLOCK || mode == BLOCK_NAMED
}

// Why a PGN that is not permanent crosses a pair or not, by the mode word and whether the PGN is listed.
fn by_list(mode: u64, here: bool) -> Reason
    ensures { (es : List ℕ) (ns : List NameEntry) (ss : List ℕ) → result ≡ reason_of (meant mode es ns ss).mode here }
{
    if mode == CLEARED {
        return Reason::Cleared;
    }
    if is_block(mode) {
        if here {
            return Reason::StoppedAsListed;
        }
        return Reason::NotListedInBlock;
    }
    if here {
        return Reason::ListedInPass;
    }
    Reason::StoppedAsNotListed
}

// Why a PGN crosses the pair or not by its list alone, as a plan asks it.
pub fn reason_by_list(block: &[u64], pgn: u32) -> Reason
    requires { names_place ≤ length block.now }
    ensures { result ≡ reason_by_list (filter_of block.now) pgn }
{
    if is_permanent(pgn) {
        return Reason::Permanent;
    }
    let here = lists(block, pgn as u64);
    by_list(block[MODE], here)
}

// Whether the pair may have NAME entries.
pub fn has_names(block: &[u64]) -> bool
    requires { names_place ≤ length block.now }
    ensures { result ≡ leb 3 (get_or block.now mode_place 0) }
{
    BLOCK_NAMED <= block[MODE]
}

// Looks a PGN up by halving.
fn probe(block: &[u64], pgn: u32) -> Probed
    requires { length block.now ≡ block_size }
    ensures { Finding (filter_of block.now).sorted pgn result.found result.probes }
{
    let n = count(block);
    sorted_list::find(&block[SORTED..SORTED + n], pgn as u64)
}

// Why a PGN crosses a pair without NAME entries or not, and how many entries were compared: forwarding rules 2 and 5. Who sent it has no say.
pub fn ask_plain(block: &[u64], pgn: u32) -> Asked
    requires { (length block.now ≡ block_size) × (get_or block.now mode_place 0 < 3) }
    ensures { ((sender : Option ℕ) → Asking block.now pgn sender result) × (result.compared ≤ most_probes) }
{
    if is_permanent(pgn) {
        return Asked {
            reason: Reason::Permanent,
            compared: 0,
        };
    }
    let mode = block[MODE];
    if mode == CLEARED {
        return Asked {
            reason: Reason::Cleared,
            compared: 0,
        };
    }
    let plain = probe(block, pgn);
    Asked {
        reason: by_list(mode, plain.found),
        compared: plain.probes,
    }
}

// Why a PGN from a sender crosses a pair with NAME entries or not: they are looked at where its list has not the PGN.
pub fn ask_named(block: &[u64], pgn: u32, sender: Option<u64>) -> Asked
    requires { (length block.now ≡ block_size) × (3 ≤ get_or block.now mode_place 0) }
    ensures { Asking block.now pgn sender result }
{
    if is_permanent(pgn) {
        return Asked {
            reason: Reason::Permanent,
            compared: 0,
        };
    }
    let mode = block[MODE];
    let plain = probe(block, pgn);
    if plain.found {
        return Asked {
            reason: by_list(mode, true),
            compared: plain.probes,
        };
    }
    let names = name_entries::search(&block[LIST_END..SORTED], pgn as u64, sender);
    Asked {
        reason: by_list(mode, names.found),
        compared: plain.probes + names.compared,
    }
}
