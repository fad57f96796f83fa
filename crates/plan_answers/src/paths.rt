// The paths of a plan: by which ports one goes through a unit, and the units one after the other.
use plan_draft::Draft;

// The first units of a plan, and the segment where paths begin.
#[derive(Clone, Copy)]
pub struct Paths<'a> {
    pub draft: &'a Draft,
    pub units: u32,
    pub first: u32,
}

// The ports by which a path goes through a unit.
#[derive(Clone, Copy)]
pub struct Way {
    pub from: u32,
    pub to: u32,
}

// A unit of a path, and the segment behind it.
#[derive(Clone, Copy)]
pub struct Step {
    pub unit: u32,
    pub segment: u32,
}

impl<'a> Paths<'a> {
    // The way to a segment through a unit. Without the unit, the first segment leads to the port where it is entered and the other to the one where it is left;
    // both lead to one port where the unit is not on the way.
    pub fn way_through(&self, target: u32, unit: u32) -> Option<Way> {
        let draft = self.draft;
        let rest = draft.ports.without(unit);
        let before = draft.reached(&rest, self.units, self.first);
        let behind = draft.reached(&rest, self.units, target);
        let from = draft.ports.first_in(unit, before)?;
        let to = draft.ports.first_in(unit, behind)?;
        if from == to {
            return None;
        }
        Some(Way { from, to })
    }

    // The step through a unit on the way to a segment, if it is the first.
    fn step_through(&self, target: u32, unit: u32) -> Option<Step> {
        let way = self.way_through(target, unit)?;
        let ports = &self.draft.ports;
        if ports.segment(unit, way.from) != Some(self.first) {
            return None;
        }
        let segment = ports.segment(unit, way.to)?;
        Some(Step { unit, segment })
    }

    // The first step to another segment.
    pub fn first_step(&self, target: u32) -> Option<Step> {
        (1..=self.units).find_map(|unit| self.step_through(target, unit))
    }
}
