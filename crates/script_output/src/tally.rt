// What came of a script's calls, counted for the summary. A count stays at its last.
ghost use Rattle.std.specs.Prelude.{◌<◌};

use crate::reasons;
use crate::reasons::REASONS;

// The numbers that refuse calls are below.
const NUMBERS: usize = 33;

// The ports of the largest unit.
const PORTS: usize = 8;

pub(crate) fn count(n: &mut u64) {
    *n = n.saturating_add(1);
}

// The calls of a kind: those that were done, and those that each number refused.
#[derive(Clone, Copy)]
pub struct Calls {
    done: u64,
    refused: [u64; NUMBERS],
}

impl Calls {
    fn new() -> Calls {
        Calls {
            done: 0,
            refused: [0; NUMBERS],
        }
    }

    // A call that was done, or the number that refused it.
    pub fn count(&mut self, done: Result<(), u32>) {
        match done {
            Ok(()) => count(&mut self.done),
            Err(number) if (number as usize) < NUMBERS => {
                count(&mut self.refused[number as usize]);
            }
            Err(_) => {}
        }
    }

    pub fn done(&self) -> u64 {
        self.done
    }

    // How many calls each number refused.
    pub fn by_number(&self) -> &[u64] {
        &self.refused
    }

    pub fn refused(&self) -> u64 {
        self.refused
            .iter()
            .fold(0u64, |sum, n| sum.wrapping_add(*n))
    }

    pub fn all(&self) -> u64 {
        self.done.wrapping_add(self.refused())
    }
}

// What became of frames at a port: those that it accepted and lost, the unit's own that it lost, and how many met each reason.
#[derive(Clone, Copy)]
pub struct Port {
    pub accepted: u64,
    pub lost: u64,
    pub own_lost: u64,
    pub met: [u64; REASONS],
}

// What became of a frame: whether it was consumed; the ports that accepted it, lost it, and lost the unit's own that came of it, as masks, and the reasons at the ports.
#[derive(Clone, Copy)]
pub struct Frame {
    pub is_consumed: bool,
    pub accepted: u64,
    pub lost: u64,
    pub own_lost: u64,
    pub reasons: u64,
}

// Whether a mask has a port, by its index from 0.
fn has(mask: u64, index: usize) -> bool
    requires { index < 8 }
{
    (mask >> index) % 2 == 1
}

#[derive(Drop)]
pub struct Tally {
    pub power_on: Calls,
    pub start: Calls,
    pub quiet: Calls,
    pub unit: Calls,
    pub frames: Calls,
    pub takes: Calls,
    pub counts: Calls,
    pub messages: Calls,
    // Lines that are no call, frames that were consumed, takes that gave a frame.
    pub no_call: u64,
    pub(crate) consumed: u64,
    pub(crate) given: u64,
    ports: [Port; PORTS],
    // The most ports that a unit had, if there was one.
    most_ports: Option<usize>,
}

impl Tally {
    pub fn new() -> Tally {
        let port = Port {
            accepted: 0,
            lost: 0,
            own_lost: 0,
            met: [0; REASONS],
        };
        Tally {
            power_on: Calls::new(),
            start: Calls::new(),
            quiet: Calls::new(),
            unit: Calls::new(),
            frames: Calls::new(),
            takes: Calls::new(),
            counts: Calls::new(),
            messages: Calls::new(),
            no_call: 0,
            consumed: 0,
            given: 0,
            ports: [port; PORTS],
            most_ports: None,
        }
    }

    pub fn no_call(&mut self) {
        count(&mut self.no_call);
    }

    // A take that gave a frame.
    pub fn given(&mut self) {
        count(&mut self.given);
    }

    // Whether there is a unit.
    pub fn is_on(&self) -> bool {
        self.most_ports.is_some()
    }

    // A unit of so many ports.
    pub fn unit(&mut self, ports: usize) {
        let most = self.most_ports.unwrap_or(0);
        self.most_ports = Some(most.max(ports));
    }

    // Frames of the unit's own that were lost, at the ports of a mask.
    pub fn own_lost(&mut self, mask: u64) {
        for index in 0..PORTS {
            if has(mask, index) {
                count(&mut self.ports[index].own_lost);
            }
        }
    }

    // A frame on a unit of so many ports.
    pub fn frame(&mut self, frame: Frame, ports: usize) {
        if frame.is_consumed {
            count(&mut self.consumed);
        }
        self.own_lost(frame.own_lost);
        for index in 0..PORTS {
            let port = &mut self.ports[index];
            if has(frame.accepted, index) {
                count(&mut port.accepted);
            }
            if has(frame.lost, index) {
                count(&mut port.lost);
            }
            let reason = reasons::at(frame.reasons, index);
            if index < ports && reason < REASONS {
                count(&mut port.met[reason]);
            }
        }
    }

    // As many ports as the largest unit had, four if there was none.
    pub fn ports(&self) -> &[Port] {
        let n = self.most_ports.unwrap_or(4).min(PORTS);
        &self.ports[..n]
    }
}
