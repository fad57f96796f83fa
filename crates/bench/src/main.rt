// A log from standard input, run on a unit from power-on with NAME 0, never started: a line for each record on standard output. On standard error stands
// how many records were refused, if any: a program has no status of its own, and the script `./bench` makes one of that.
#![tactic(auto)]

use bench_io::{Turn, Turns};
use std::num::wrapping_add_u64;
use unit::Unit;

// The unit's record, and the records of the log that were refused.
#[derive(Drop)]
struct Run {
    words: [u64; Unit::RECORD_LENGTH],
    refused: u64,
}

// The records that were refused, by their lines: no other line has an R.
fn count_refused(text: &[u8]) -> u64 {
    text.iter().filter(|c| **c == b'R').count() as u64
}

impl Turns for Run {
    fn turn(&mut self, log: &[u8], last: bool, out: &mut [u8]) -> Turn {
        let ran = bench_log::run(&mut self.words, log, last, out);
        self.refused = wrapping_add_u64(self.refused, count_refused(&out[..ran.written]));
        Turn {
            used: ran.used,
            written: ran.written,
            over: ran.over,
        }
    }
}

fn main(rt: HostRuntime) {
    let mut run = Run {
        words: [0u64; Unit::RECORD_LENGTH],
        refused: 0,
    };
    let _ = Unit::power_on(&mut run.words, 0, 0);
    bench_io::turn_input(&rt, &mut rt.stdin(), &mut run);
    if 0 < run.refused {
        bench_io::tell(&rt.stderr(), b"records refused: ", run.refused);
    }
}
