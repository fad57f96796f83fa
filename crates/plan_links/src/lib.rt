// A plan asked by its links, which are lent as a slice of small structs: which segments hear a PGN.
#![tactic(auto)]

ghost use Rattle.std.specs.Prelude.{◌≡◌, MatchResult, Some, None};
ghost use Rattle.checks.specs.declared.refusal.Refusal.TheVariants.{OutsidePlan};
ghost use Rattle.plan_links.specs.Links.{link_in_range, put, LinkPlanning};

use checks::Refusal;
use plan_shape::{LISTS_LENGTH, PORTS, PORTS_LENGTH, UNITS};

// A port of a unit with its segment, each counted from 1.
#[repr(C)]
#[derive(Clone, Copy)]
pub struct Link {
    pub unit: u32,
    pub port: u32,
    pub segment: u32,
}

impl Link {
    // Whether its numbers are of the plan.
    #[tactic(auto, unfolding(crate::specs::Links::link_in_range))]
    fn is_in_range(self, segments: u32, units: u32) -> bool
        ensures { result ≡ link_in_range segments units self }
    {
        1 <= self.unit
            && self.unit <= units
            && self.unit <= UNITS as u32
            && 1 <= self.port
            && self.port <= PORTS as u32
            && 1 <= self.segment
            && self.segment <= segments
    }

    // Puts its segment on its port. Refused where it is out of range, or its port is named already.
    fn put_on(
        self,
        ports: &mut [u64; PORTS_LENGTH],
        segments: u32,
        units: u32,
    ) -> Result<(), Refusal>
        ensures { MatchResult result (λ _. put segments units ports.old self ≡ Some ports.new) (λ refusal. (refusal ≡ OutsidePlan) × (put segments units ports.old self ≡ None)) }
    {
        if self.is_in_range(segments, units) {
            let at = PORTS * (self.unit as usize - 1) + (self.port as usize - 1);
            if ports[at] == 0 {
                ports[at] = self.segment as u64;
                return Ok(());
            }
        }
        Err(Refusal::OutsidePlan)
    }
}

// Which segments hear a PGN that is sent on the first one.
pub fn hear(
    links: &[Link],
    lists: &[u64],
    segments: u32,
    units: u32,
    first: u32,
    pgn: u32,
) -> Result<u64, Refusal>
    ensures { LinkPlanning segments units links.now lists.now first pgn result }
{
    if lists.len() != LISTS_LENGTH {
        return Err(Refusal::WrongLength);
    }
    let mut ports = [0; PORTS_LENGTH];
    for link in links {
        link.put_on(&mut ports, segments, units)?;
    }
    plans::hear(&ports, lists, segments, units, first, pgn)
}
