// A script of calls from standard input on the proved unit: each call beside its answer, or with --plain the answers alone, then a summary. What fails is told on
// standard error, and at the end how many lines are no call: a program has no status of its own, and the script `./replay` makes one of that.
#![tactic(auto)]

mod calls;
mod lines;

use line_parts::{Failure, arguments, read_lines};
use lines::Script;
use std::env::Env;
use std::io::Read;

// How answers are written: beside their calls, or alone.
#[derive(Clone, Copy, PartialEq, Eq)]
enum Output {
    Beside,
    Plain,
}

fn read(rt: &impl Print, input: &mut impl Read, script: &mut Script) -> Result<(), Failure> {
    read_lines(input, |line| script.take(rt, line))?;
    script.run.tally.print(rt).map_err(Failure::Write)
}

// A script, whether its last line is ended or not, and the summary. That all was read and written, and how many lines are no call, is what the script `./replay`
// looks for.
fn run(rt: &(impl Print + Eprint), input: &mut impl Read, output: Output) {
    let mut script = Script::new(output == Output::Plain);
    if let Err(failure) = read(rt, input, &mut script) {
        failure.tell(rt, "replay", "the script");
        return;
    }
    let n = script.run.tally.no_call;
    let _ = eprintln!(rt; "replay: lines that are no call: {n}");
}

// What the one argument asks for that there may be.
fn output_asked(rt: &impl Env) -> Option<Output> {
    if !arguments::is_given(rt, 1) {
        return Some(Output::Beside);
    }
    let mut space = [0u8; 16];
    match arguments::get(rt, 1, &mut space) {
        Some(b"--plain") if !arguments::is_given(rt, 2) => Some(Output::Plain),
        _ => None,
    }
}

fn main(rt: HostRuntime) {
    match output_asked(&rt) {
        Some(output) => run(&rt, &mut rt.stdin(), output),
        None => {
            let _ = rt.eprintln("replay: the one argument is --plain");
        }
    }
}
