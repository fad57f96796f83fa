// Where the buses of a bit rate would send: a take stands before the frame of the log that comes after it. A bus is busy until the end of a frame that the log has of it, then sends what
// waits, one frame after the other. What waits is reckoned with every pair cleared: a take that finds nothing does no harm.
ghost use Rattle.std.specs.Prelude.{◌<◌};

use crate::buffer::Buffer;

// The ports, and the frames that wait at one at most.
const PORTS: usize = 4;

const DEPTH: u64 = 32;

// The bits of a frame with 29 bits of identifier and 8 bytes of data, with the gap behind it and without stuff bits, at 10^9 ns a second.
const FRAME_BITS: u64 = 131000000000;

// The decimal digits of a text as one number, of the last sixteen; other bytes are passed over.
pub fn number(text: &[u8]) -> u64
    ensures { result < 10000000000000000 }
{
    let mut value: u64 = 0;
    for c in text {
        if c.is_ascii_digit() {
            value = value % 1000000000000000 * 10 + u64::from(*c - b'0');
        }
    }
    value
}

// The time of a line, (1763380800.000000), in ns.
pub fn time_of(line: &[u8]) -> u64 {
    if line.len() < 19 {
        return 0;
    }
    number(&line[..19]) * 1000
}

// A bus: the frames that wait for it, and when it is free, in ns.
#[derive(Clone, Copy, Drop)]
struct Bus {
    waiting: u64,
    free: u64,
}

impl Bus {
    // The bus is busy until a time at least.
    fn hold(&mut self, time: u64) {
        self.free = self.free.max(time);
    }

    // A frame that has arrived by a time joins the queue.
    fn join(&mut self, time: u64) {
        if self.waiting == 0 {
            self.hold(time);
        }
        if self.waiting < DEPTH {
            self.waiting += 1;
        }
    }

    // One frame fewer waits, and the bus is busy with it; or it would not begin to send by a time.
    fn send(&mut self, frame: u64, limit: u64) -> bool {
        if self.waiting == 0 || limit < self.free {
            return false;
        }
        self.waiting -= 1;
        self.free = self.free.wrapping_add(frame);
        true
    }
}

// The buses of the ports from 1 on, and the time of a frame in ns, if takes are asked for.
#[derive(Drop)]
pub struct Buses {
    frame: Option<u64>,
    buses: [Bus; PORTS],
}

impl Buses {
    // Buses of a bit rate, if there is one.
    pub fn new(rate: Option<u64>) -> Self {
        let idle = Bus {
            waiting: 0,
            free: 0,
        };
        Buses {
            frame: rate
                .and_then(|bits| FRAME_BITS.checked_div(bits))
                .filter(|frame| *frame != 0),
            buses: [idle; PORTS],
        }
    }

    // The takes at every port before a frame that has arrived at one by a time; that one's own bus was busy with the frame.
    pub fn before<const N: usize>(&mut self, port: u8, time: u64, records: &mut Buffer<N>) {
        let Some(frame) = self.frame else {
            return;
        };
        for (bus, q) in self.buses.iter_mut().zip(1u8..) {
            let limit = if q == port {
                time.saturating_sub(frame)
            } else {
                time
            };
            for _ in 0..DEPTH {
                if !bus.send(frame, limit) {
                    break;
                }
                records.push(&[2, q]);
            }
        }
    }

    // A frame that has arrived at a port by a time.
    pub fn arrive(&mut self, port: u8, time: u64) {
        for (bus, q) in self.buses.iter_mut().zip(1u8..) {
            if q == port {
                bus.hold(time);
            } else {
                bus.join(time);
            }
        }
    }

    // The log has ended: every bus sends what waits.
    pub fn drain<const N: usize>(&mut self, records: &mut Buffer<N>) {
        self.before(0, u64::MAX, records);
    }
}
