// A plan as text from standard input: for each question which segments hear the PGN, and why the others do not. What fails, and that a line was wrong, is told
// on standard error: a program has no status of its own, and the script `./plan` makes one of that.
#![tactic(auto)]

fn main(rt: HostRuntime) {
    let wrong = plan_reading::answer(&rt, &mut rt.stdin());
    if 0 < wrong {
        let _ = eprintln!(rt; "plan: lines that are wrong: {wrong}");
    }
}
