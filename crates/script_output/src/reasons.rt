// The reasons why frames crossed to ports or stopped: in a frame's answer, and counted in the summary.
ghost use Rattle.std.specs.Prelude.{◌<◌, ◌≤◌};

use crate::tally::Port;
use crate::words;
use line_parts::{Line, Ports};

// How many there are.
pub const REASONS: usize = 7;

// They are told in the order of their numbers, but 0, that a port was not asked, comes last.
const ORDER: [usize; REASONS] = [1, 2, 3, 4, 5, 6, 0];

// That a pair stopped a frame, as listed and as not listed.
const STOPPED_AS_LISTED: usize = 5;

const STOPPED_AS_NOT_LISTED: usize = 6;

// The reason at a port, by its index from 0: four bits for each.
pub fn at(reasons: u64, index: usize) -> usize
    requires { index < 8 }
    ensures { result < 16 }
{
    ((reasons >> (4 * index)) % 16) as usize
}

// The first `ports` that have a reason, as a mask.
fn having(reasons: u64, ports: usize, reason: usize) -> u64
    requires { ports ≤ 8 }
{
    let mut mask = 0u64;
    for index in 0..ports {
        if at(reasons, index) == reason {
            mask |= 1 << index;
        }
    }
    mask
}

// The reasons of a frame's answer: each that some of the ports have, behind these ports.
pub fn tell(reasons: u64, ports: usize, out: &mut Line)
    requires { ports ≤ 8 }
{
    let mut parted = "";
    for reason in ORDER {
        let mask = having(reasons, ports, reason);
        if mask != 0 {
            let ports = Ports(mask);
            let words = words::reason(reason);
            out.put(format_args!("{parted}{ports}: {words}"));
            parted = ", ";
        }
    }
}

// How many frames a pair stopped on the way to a port.
pub(crate) fn stopped(port: &Port) -> u64 {
    port.met[STOPPED_AS_LISTED].wrapping_add(port.met[STOPPED_AS_NOT_LISTED])
}

// Each reason that was met at a port, and how often.
pub(crate) fn tell_met(port: &Port, out: &mut Line) {
    let mut parted = "";
    for reason in ORDER {
        let times = port.met[reason];
        if times != 0 {
            let words = words::reason(reason);
            out.put(format_args!("{parted}{words} {times}"));
            parted = ", ";
        }
    }
}
