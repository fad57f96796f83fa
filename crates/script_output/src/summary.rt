// The summary of a script: the calls of each kind, what came of them, and what became of frames at each port.
use crate::tally::{Calls, Port, Tally};
use crate::{reasons, words};
use line_parts::Line;
use std::fmt::Display;
use std::io;

// A line, made in the place of the one before it.
fn print<D: Display + Drop>(rt: &impl Print, out: &mut Line, text: D) -> io::Result<()> {
    out.put(text);
    out.print(rt)
}

// A line for each number that refused calls of a kind, rising.
fn print_refusals(rt: &impl Print, out: &mut Line, calls: &Calls) -> io::Result<()> {
    for (number, times) in (0..).zip(calls.by_number()) {
        let times = *times;
        if 0 < times {
            let words = words::refusal(number);
            print(rt, out, format_args!("    {number} {words}: {times}"))?;
        }
    }
    Ok(())
}

// What became of frames at a port, and by which reasons, if some were met.
fn print_port(rt: &impl Print, out: &mut Line, number: usize, port: &Port) -> io::Result<()> {
    let stopped = reasons::stopped(port);
    let Port {
        accepted,
        lost,
        own_lost,
        ..
    } = *port;
    print(
        rt,
        out,
        format_args!(
            "  port {number}: accepted {accepted}, stopped {stopped}, lost {lost}, own lost {own_lost}"
        ),
    )?;
    if port.met.iter().all(|times| *times == 0) {
        return Ok(());
    }
    out.push(b"    ");
    reasons::tell_met(port, out);
    out.print(rt)
}

impl Tally {
    fn print_beginnings(&self, rt: &impl Print, out: &mut Line) -> io::Result<()> {
        let all = self.power_on.all();
        let no_call = self.no_call;
        print(
            rt,
            out,
            format_args!("power-on {all}, lines that are no call {no_call}"),
        )?;
        print_refusals(rt, out, &self.power_on)?;
        print_done(rt, out, "Start", "done", &self.start)?;
        print_done(rt, out, "Quiet", "done", &self.quiet)?;
        print_done(rt, out, "unit", "told", &self.unit)
    }

    fn print_frames(&self, rt: &impl Print, out: &mut Line) -> io::Result<()> {
        let all = self.frames.all();
        let consumed = self.consumed;
        let refused = self.frames.refused();
        print(
            rt,
            out,
            format_args!("frames {all}: consumed {consumed}, refused {refused}"),
        )?;
        print_refusals(rt, out, &self.frames)?;
        for (number, port) in (1..).zip(self.ports()) {
            print_port(rt, out, number, port)?;
        }
        Ok(())
    }

    fn print_takes(&self, rt: &impl Print, out: &mut Line) -> io::Result<()> {
        let all = self.takes.all();
        let given = self.given;
        let nothing = self.takes.done().wrapping_sub(given);
        let refused = self.takes.refused();
        print(
            rt,
            out,
            format_args!(
                "takes {all}: given {given}, nothing waiting {nothing}, refused {refused}"
            ),
        )?;
        print_refusals(rt, out, &self.takes)
    }

    // The summary, behind an empty line.
    pub fn print(&self, rt: &impl Print) -> io::Result<()> {
        let mut line = Line::new();
        let out = &mut line;
        print(rt, out, "")?;
        self.print_beginnings(rt, out)?;
        self.print_frames(rt, out)?;
        self.print_takes(rt, out)?;
        print_done(rt, out, "counts", "told", &self.counts)?;
        print_done(rt, out, "messages", "answered", &self.messages)
    }
}

// The calls of a kind of which no more is told than how many were done, by a word for that.
fn print_done(
    rt: &impl Print,
    out: &mut Line,
    kind: &str,
    done: &str,
    calls: &Calls,
) -> io::Result<()> {
    let all = calls.all();
    let times = calls.done();
    let refused = calls.refused();
    print(
        rt,
        out,
        format_args!("{kind} {all}: {done} {times}, refused {refused}"),
    )?;
    print_refusals(rt, out, calls)
}
