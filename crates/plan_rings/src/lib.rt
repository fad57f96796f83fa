// Whether a plan joins some segments twice, which is refused with 29: segments and units that are joined have one label.
#![tactic(auto)]

ghost use Rattle.std.specs.Prelude.{◌≡◌, true, cond, ◌↔◌, List, ℕ, ◌*◌, ◌<◌, ◌≤◌, get_or, eqb};
ghost use Rattle.plan_shape.specs.Plan.{plan_of, Ringed, most_segments, most_units, port_count, ports_length};
ghost use Rattle.plan_rings.specs.Rings.{Fresh, Numbered, Relabeled, Linking};

use plan_shape::{PORTS, PORTS_LENGTH, SEGMENTS, UNITS};
use std::array;

// Where the units' labels begin: segments have the places of their numbers, and the places between are not used. So the compiler, which turns sixteen labels at once, has the units' apart.
const UNITS_AT: usize = 2 * SEGMENTS;

// How many labels there are.
const NODES: usize = UNITS_AT + UNITS;

// Gives every place a label of its own.
fn number() -> [u8; NODES]
    ensures { Numbered result }
{
    array::from_fn(|place| place as u8)
}

// A label, or the other where it is the one.
fn turned(label: u8, from: u8, to: u8) -> u8
    ensures { result ≡ cond (eqb label from) to label }
{
    if label == from { to } else { label }
}

// Every place with the one label gets the other. Each is stored, with no branch, so that the compiler turns several at once.
fn relabel(labels: &mut [u8; NODES], from: u8, to: u8)
    ensures { Relabeled from to labels.old labels.new }
{
    for label in labels.iter_mut() {
        *label = turned(*label, from, to);
    }
}

// Joins the segment on a link, which is a port of a unit, to the unit; tells whether they were joined before. A unit that nothing is joined to has its own label, and no other place has it.
fn links_again(ports: &[u64; PORTS_LENGTH], link: usize, labels: &mut [u8; NODES]) -> bool
    requires { (link < ports_length) × (get_or ports.now link 0 ≤ most_segments) × Fresh labels.old }
    ensures { Linking ports.now link labels.old labels.new result }
{
    let segment = ports[link] as usize;
    if segment == 0 {
        return false;
    }
    let unit = UNITS_AT + link / PORTS;
    let from = labels[unit];
    let to = labels[segment];
    if from == to {
        return true;
    }
    if from == unit as u8 {
        labels[unit] = to;
    } else {
        relabel(labels, from, to);
    }
    false
}

// Whether two paths lead between some segments, or two ports of a unit are on one.
pub fn has_ring(ports: &[u64; PORTS_LENGTH], units: usize) -> bool
    requires { (units ≤ most_units) × ((i : ℕ) → i < port_count * units → get_or ports.now i 0 ≤ most_segments) }
    ensures { (lists : List ℕ) → (result ≡ true) ↔ Ringed (plan_of units ports.now lists) }
{
    let mut labels = number();
    for link in 0..PORTS * units {
        if links_again(ports, link, &mut labels) {
            return true;
        }
    }
    false
}
