// A plan of a machine: the segment on each port of its units, and their lists; and whether its numbers are in range, or refused with 28.
#![tactic(auto)]

ghost use Rattle.std.specs.Prelude.{◌≡◌, true, ◌||◌, ◌/◌, ◌%◌, ◌≤◌, leb, eqb};
ghost use Rattle.std.specs.List.{list_all};
ghost use Rattle.identifier.specs.Identifier.{is_pgn};
ghost use Rattle.entries.specs.Entries.{every};
ghost use Rattle.filter.specs.Filter.{filter_of};
ghost use Rattle.plan_shape.specs.Plan.{plan_of, pair_in_range, numbers_in_range, in_range};

use pgn_list::LIST_SIZE;

// "up to 16 segments and 16 units", "each of eight ports".
pub const SEGMENTS: usize = 16;

pub const UNITS: usize = 16;

pub const PORTS: usize = 8;

// The directed pairs of a unit.
pub const PAIRS: usize = PORTS * (PORTS - 1);

// The words of a pair: the front of a record's block, up to the NAME entries, which a plan leaves out.
pub const BLOCK_SIZE: usize = filter::LIST_END;

// The words of the segments on the ports, and of the lists.
pub const PORTS_LENGTH: usize = PORTS * UNITS;

pub const LISTS_LENGTH: usize = BLOCK_SIZE * (PAIRS * UNITS);

// How many pairs are looked at together: the pairs of a unit are a multiple of it.
const AT_ONCE: usize = 8;

// The low byte of a number whose PF is below 240, which a PGN has at 0; 0 where PF is 240 and up.
fn spare_byte(word: u64) -> u64
    ensures { (eqb result 0 ≡ (leb 240 (word / 256 % 256) || eqb (word % 256) 0)) × (result ≤ 255) }
{
    if word / 4096 % 16 == 15 {
        return 0;
    }
    word % 256
}

// Whether every listed number of a pair is a PGN: together they have no bit from 18 on, and no spare byte. No branch for each, so that the compiler judges several at once.
fn lists_pgns(block: &[u64; BLOCK_SIZE]) -> bool
    ensures { result ≡ every is_pgn (filter_of block.now).entries }
{
    let mut bits = 0;
    let mut spare = 0;
    for i in 0..filter::count(block) {
        let listed = filter::pgn_at(block, i);
        bits |= listed;
        spare += spare_byte(listed);
    }
    bits < 262144 && spare == 0
}

// Whether a pair's numbers are in range. Not inlined, else `are_judged` has its loop once for each pair: 8 KB of code.
#[tactic(auto, unfolding(crate::specs::Plan::pair_in_range))]
#[inline(never)]
fn is_pair(block: &[u64; BLOCK_SIZE]) -> bool
    ensures { result ≡ pair_in_range block.now }
{
    let mode = block[filter::MODE];
    mode == filter::CLEARED
        || (mode <= filter::PASS && block[filter::COUNT] <= LIST_SIZE as u64 && lists_pgns(block))
}

// Whether each port has a segment of the plan, or none.
fn are_ports(ports: &[u64], segments: u32) -> bool
    ensures { result ≡ list_all (λ segment. leb segment segments) ports.now }
{
    ports.iter().all(|segment| *segment <= segments as u64)
}

// Whether pairs are cleared: together their modes have no bit.
#[tactic(auto, using(crate::proofs::Ranges::all_cleared))]
fn are_cleared(pairs: &[[u64; BLOCK_SIZE]; AT_ONCE]) -> bool
    ensures { result ≡ true → list_all pair_in_range pairs.now ≡ true }
{
    pairs
        .iter()
        .fold(0, |modes, pair| modes | pair[filter::MODE])
        == filter::CLEARED
}

// Whether each of some pairs is in range. Not inlined, else the modes that are read for `are_cleared` are kept for it.
#[inline(never)]
fn are_judged(pairs: &[[u64; BLOCK_SIZE]; AT_ONCE]) -> bool
    ensures { result ≡ list_all pair_in_range pairs.now }
{
    pairs.iter().all(is_pair)
}

// The same. Most pairs are cleared, which is seen of all at once.
fn are_some(pairs: &[[u64; BLOCK_SIZE]; AT_ONCE]) -> bool
    ensures { result ≡ list_all pair_in_range pairs.now }
{
    are_cleared(pairs) || are_judged(pairs)
}

// Whether each pair is in range.
fn are_pairs(parts: &[[[u64; BLOCK_SIZE]; AT_ONCE]]) -> bool
    ensures { result ≡ list_all (list_all pair_in_range) parts.now }
{
    parts.iter().all(are_some)
}

// Whether the numbers beside the ports and lists are in range.
#[tactic(auto, unfolding(crate::specs::Plan::numbers_in_range))]
fn are_numbers(segments: u32, units: u32, first: u32, pgn: u32) -> bool
    ensures { result ≡ numbers_in_range segments units first pgn }
{
    segments <= SEGMENTS as u32
        && units <= UNITS as u32
        && 1 <= first
        && first <= segments
        && identifier::is_pgn(pgn)
}

// Whether a plan, the first segment and the PGN asked are in range.
pub fn is_in_range(
    ports: &[u64; PORTS_LENGTH],
    lists: &[u64; LISTS_LENGTH],
    segments: u32,
    units: u32,
    first: u32,
    pgn: u32,
) -> bool
    ensures { result ≡ in_range segments (plan_of units ports.now lists.now) first pgn }
{
    if !are_numbers(segments, units, first, pgn) {
        return false;
    }
    let units = units as usize;
    let (pairs, _) = lists.as_chunks::<BLOCK_SIZE>();
    let (parts, _) = pairs[..PAIRS * units].as_chunks::<AT_ONCE>();
    are_ports(&ports[..PORTS * units], segments) && are_pairs(parts)
}
