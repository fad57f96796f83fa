// The walk of a plan: from a segment to its units and from a unit to its further segments. In a plan that is not refused one way at most leads to each unit,
// so that a walk asks at most seven pairs of each. A link is a port of a unit; the links of a segment are chained before the walk, so that no other is looked at.
// What is visited is marked before the walk goes on and unmarked after it, so that the marks are those of the way from the first segment: a unit that was
// entered at a port where it stops a PGN may be entered again at another.
#![tactic(auto)]

ghost use Rattle.std.specs.Prelude.{◌≡◌, ℕ, ◌+◌, ◌*◌, ◌≤◌, ◌<◌, get_or, MatchBool};
ghost use Rattle.unit.specs.Model.{pair_at};
ghost use Rattle.filter.specs.Filter.{permitted};
ghost use Rattle.plan_shape.specs.Plan.{plan_of, pair_of, segment_at, Hearing, most_segments, most_units, port_count, pairs_of_unit, ports_length};
ghost use Rattle.plan_walk.specs.Walk.{plan_in, Unvisited, unit_place, Chained, Walkable, Walked, Reached, ReachedFrom, GoesOn, Bounded};

use plan_shape::{BLOCK_SIZE, LISTS_LENGTH, PAIRS, PORTS, PORTS_LENGTH, SEGMENTS, UNITS};

// Where the marks of the units begin: segments have the places of their numbers.
const UNITS_AT: usize = SEGMENTS + 1;

// How many marks there are.
const MARKS: usize = UNITS_AT + UNITS;

// Where the chain of the links themselves begins, and its length: segments have the places of their numbers.
// The end of the links stands for none: a link is below it, and an `Option` of a byte is two, so that the chain would be twice as long to fill.
const LINKS_AT: usize = SEGMENTS + 1;

const CHAIN: usize = LINKS_AT + PORTS_LENGTH;

// What a walk goes by: the plan, the PGN that is asked, and the chain of the plan's links.
#[derive(Clone, Copy)]
struct Walk<'a> {
    ports: &'a [u64; PORTS_LENGTH],
    lists: &'a [u64; LISTS_LENGTH],
    units: usize,
    pgn: u32,
    chain: &'a [u8; CHAIN],
}

// The place of a unit's pair among all pairs.
fn pair_at(unit: usize, from: usize, to: usize) -> usize
    requires { (unit < most_units) × (from < port_count) × (to < port_count) × (from ≡ to → ⊥) }
    ensures { (result ≡ pairs_of_unit * unit + pair_at port_count from to) × (result < pairs_of_unit * most_units) }
{
    let first = PAIRS * unit + (PORTS - 1) * from;
    if to < from {
        first + to
    } else {
        first + to - 1
    }
}

// Chains the links below the end: a segment's place has its first link, a link's place the next one of its segment; the end where there is none. The chain is
// lent, for given back it would be copied, 8 ns of each plan.
fn chain_links(ports: &[u64; PORTS_LENGTH], end: usize, chain: &mut [u8; CHAIN])
    requires { (end ≤ ports_length) × ((i : ℕ) → i < end → get_or ports.now i 0 ≤ most_segments) }
    ensures { Chained ports.now end 0 chain.new }
{
    *chain = [end as u8; CHAIN];
    for link in (0..end).rev() {
        let segment = ports[link] as usize;
        if segment != 0 {
            chain[LINKS_AT + link] = chain[segment];
            chain[segment] = link as u8;
        }
    }
}

impl Walk<'_> {
    // Whether a unit permits the PGN from one port to another.
    fn permits(&self, unit: usize, from: usize, to: usize) -> bool
        requires { (unit < most_units) × (from < port_count) × (to < port_count) × (from ≡ to → ⊥) }
        ensures { result ≡ permitted (pair_of self.now.lists.now unit from to) self.now.pgn }
    {
        let start = BLOCK_SIZE * pair_at(unit, from, to);
        let lists = self.lists;
        filter::reason_by_list(&lists[start..start + BLOCK_SIZE], self.pgn).crosses()
    }

    // Whether a unit leads on by a port to the segment on it: another port than it was entered at, a segment that is not visited, a pair that permits.
    fn goes_on(
        &self,
        unit: usize,
        entered: usize,
        port: usize,
        segment: usize,
        visited: &[bool; MARKS],
    ) -> bool
        requires { (unit < most_units) × (entered < port_count) × (port < port_count) × (segment ≡ segment_at (plan_in self.now) unit port) × (segment ≤ most_segments) }
        ensures { MatchBool result (GoesOn (plan_in self.now) self.now.pgn visited.now unit entered port) (GoesOn (plan_in self.now) self.now.pgn visited.now unit entered port → ⊥) }
    {
        if port == entered || segment == 0 || visited[segment] {
            return false;
        }
        self.permits(unit, entered, port)
    }

    // Tells a segment as heard, and goes on from it by each of its units; with what was heard before, bit s for segment s.
    #[cycle(from_segment_from_unit)]
    fn from_segment(&self, segment: usize, visited: &mut [bool; MARKS], heard: u64) -> u64
        requires { Walkable (plan_in self.now) self.now.chain.now visited.old heard × (segment ≡ 0 → ⊥) × (segment ≤ most_segments) × Unvisited visited.old segment }
        ensures { Walked (Reached (plan_in self.now) self.now.pgn visited.old segment) visited.old heard visited.new result }
    {
        visited[segment] = true;
        let mut all = heard | 1 << segment;
        let end = PORTS * self.units;
        let mut link = self.chain[segment] as usize;
        while link < end {
            let unit = link / PORTS;
            if !visited[UNITS_AT + unit] {
                all = self.from_unit(unit, link % PORTS, visited, all);
            }
            link = self.chain[LINKS_AT + link] as usize;
        }
        visited[segment] = false;
        all
    }

    // Goes on from a unit, which was entered at a port, to each of its further segments.
    #[cycle(from_segment_from_unit)]
    fn from_unit(&self, unit: usize, entered: usize, visited: &mut [bool; MARKS], heard: u64) -> u64
        requires { Walkable (plan_in self.now) self.now.chain.now visited.old heard × (unit < self.now.units) × (entered < port_count) × Unvisited visited.old (unit_place unit) }
        ensures { Walked (ReachedFrom (plan_in self.now) self.now.pgn visited.old unit entered) visited.old heard visited.new result }
    {
        visited[UNITS_AT + unit] = true;
        let mut all = heard;
        let ports = self.ports;
        for port in 0..PORTS {
            let segment = ports[PORTS * unit + port] as usize;
            if self.goes_on(unit, entered, port, segment, visited) {
                all = self.from_segment(segment, visited, all);
            }
        }
        visited[UNITS_AT + unit] = false;
        all
    }
}

// The segments that hear a PGN sent on the first one, as a mask: bit s - 1 for segment s.
pub fn hear(
    ports: &[u64; PORTS_LENGTH],
    lists: &[u64; LISTS_LENGTH],
    units: usize,
    pgn: u32,
    first: usize,
) -> u64
    requires { Bounded (plan_of units ports.now lists.now) × (first ≡ 0 → ⊥) × (first ≤ most_segments) }
    ensures { Hearing (plan_of units ports.now lists.now) first pgn result }
{
    let mut chain = [0; CHAIN];
    chain_links(ports, PORTS * units, &mut chain);
    let walk = Walk {
        ports,
        lists,
        units,
        pgn,
        chain: &chain,
    };
    let mut visited = [false; MARKS];
    walk.from_segment(first, &mut visited, 0) / 2
}
