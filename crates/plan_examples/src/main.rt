// Plans as text, each ended by a form feed, from standard input: what `plan` prints for each, one after the other. Every kind of wrong line is among them.
#![tactic(auto)]

// The most bytes that are read.
const MOST: usize = 65536;

const FORM_FEED: u8 = 12;

fn main(rt: HostRuntime) {
    let mut space = [0u8; MOST];
    let n = bench_io::read_full(&mut rt.stdin(), &mut space);
    for ended in space[..n].split_inclusive(|byte| *byte == FORM_FEED) {
        if let Some((_, text)) = ended.split_last() {
            let mut text = text;
            let _ = plan_reading::answer(&rt, &mut text);
        }
    }
}
