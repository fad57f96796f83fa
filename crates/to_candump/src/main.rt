// A log from standard input as candump's text on standard output. A refused record writes no line and is told on standard error, as its place from 1 and its
// number; an unknown kind and a cut end it.
#![tactic(auto)]

use bench_io::{Turn, Turns};
use bench_records::Refusal;
use std::num::wrapping_add_u64;

// The place from 1 of the record that was turned last.
#[derive(Drop)]
struct Records<'a, R: Eprint> {
    rt: &'a R,
    place: u64,
}

impl<R: Eprint> Turns for Records<'_, R> {
    // Records until the log has no whole one, or the text has no room.
    fn turn(&mut self, log: &[u8], last: bool, out: &mut [u8]) -> Turn {
        let mut used = 0;
        let mut written = 0;
        'records: while used < log.len() && candump::LONGEST <= out.len() - written {
            let record = &log[used..];
            let front = bench_records::front(record);
            if front == Err(Refusal::CutShort) && !last {
                break;
            }
            self.place = wrapping_add_u64(self.place, 1);
            match bench_records::to_text(record, &mut out[written..]) {
                Ok(length) => written += length,
                Err(refusal) => bench_io::tell_refused(self.rt, self.place, refusal.number()),
            }
            let Ok(size) = front else {
                return Turn {
                    used,
                    written,
                    over: true,
                };
            };
            used += size;
        }
        Turn {
            used,
            written,
            over: false,
        }
    }
}

fn main(rt: HostRuntime) {
    let mut records = Records { rt: &rt, place: 0 };
    bench_io::turn_input(&rt, &mut rt.stdin(), &mut records);
}
