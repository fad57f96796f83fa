// The segments on the ports of the units.
use plan_shape::{PORTS, PORTS_LENGTH};

// Segments, bit s - 1 for segment s.
#[derive(Clone, Copy)]
pub struct Mask(pub u64);

impl Mask {
    pub fn has(self, segment: u32) -> bool {
        matches!(segment, 1..=16) && (self.0 >> (segment - 1)) % 2 == 1
    }
}

// As the proved call takes them: the words of a unit behind those of the one before it, 0 for a port that is unused.
#[derive(Clone, Copy)]
pub struct Ports([u64; PORTS_LENGTH]);

fn place(unit: u32, port: u32) -> Option<usize> {
    if unit == 0 || port == 0 || PORTS < port as usize {
        return None;
    }
    Some(PORTS * (unit as usize - 1) + (port as usize - 1))
}

impl Ports {
    pub fn new() -> Ports {
        Ports([0; PORTS_LENGTH])
    }

    pub(crate) fn words(&self) -> &[u64] {
        &self.0
    }

    // The segment on a unit's port, if it is used.
    pub fn segment(&self, unit: u32, port: u32) -> Option<u32> {
        let word = *self.0.get(place(unit, port)?)?;
        u32::try_from(word).ok().filter(|segment| *segment != 0)
    }

    // 0 makes it an unused one.
    pub(crate) fn put(&mut self, unit: u32, port: u32, segment: u32) {
        let Some(at) = place(unit, port) else {
            return;
        };
        if at < PORTS_LENGTH {
            self.0[at] = u64::from(segment);
        }
    }

    // The ports without those of a unit.
    pub fn without(&self, unit: u32) -> Ports {
        let mut rest = *self;
        for port in 1..=PORTS as u32 {
            rest.put(unit, port, 0);
        }
        rest
    }

    // The first port of a unit whose segment is among these.
    pub fn first_in(&self, unit: u32, mask: Mask) -> Option<u32> {
        (1..=PORTS as u32).find(|port| {
            self.segment(unit, *port)
                .is_some_and(|segment| mask.has(segment))
        })
    }
}
