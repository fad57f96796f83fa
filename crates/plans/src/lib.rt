// A plan of a machine, asked before it is built: which segments hear a PGN that is sent on a given one.
#![tactic(auto)]

ghost use Rattle.plan_shape.specs.Plan.{plan_of};
ghost use Rattle.plans.specs.Plans.{Planning};

use checks::Refusal;
use plan_shape::{LISTS_LENGTH, PORTS_LENGTH};

// Which segments hear a PGN that is sent on the first one, bit s - 1 for segment s; or what refuses the plan.
pub fn hear(
    ports: &[u64],
    lists: &[u64],
    segments: u32,
    units: u32,
    first: u32,
    pgn: u32,
) -> Result<u64, Refusal>
    ensures { Planning segments (plan_of units ports.now lists.now) first pgn result }
{
    let ports: &[u64; PORTS_LENGTH] = ports.try_into().map_err(|_| Refusal::WrongLength)?;
    let lists: &[u64; LISTS_LENGTH] = lists.try_into().map_err(|_| Refusal::WrongLength)?;
    if !plan_shape::is_in_range(ports, lists, segments, units, first, pgn) {
        return Err(Refusal::OutsidePlan);
    }
    let units = units as usize;
    if plan_rings::has_ring(ports, units) {
        return Err(Refusal::TwoPaths);
    }
    Ok(plan_walk::hear(ports, lists, units, pgn, first as usize))
}
