// The answer to a question: which segments hear a PGN, and for each that does not, at which unit and why it stopped. And why a line is wrong.
#![tactic(auto)]

mod paths;
mod wrong;

use filter::Reason;
use line_parts::Line;
use paths::Paths;
use plan_draft::{Draft, Mask, Question};
use std::io;
pub use wrong::tell_wrong;

// Where a PGN stopped, and why.
#[derive(Clone, Copy)]
struct Stop {
    unit: u32,
    from: u32,
    to: u32,
    reason: Reason,
}

// A question, the segments that hear, and those that a path leads to.
#[derive(Clone, Copy)]
struct Answer<'a> {
    draft: &'a Draft,
    question: Question,
    heard: Mask,
    reached: Mask,
}

impl<'a> Answer<'a> {
    // Where it stops in a unit on the way to a segment. Nothing stops where nothing came in.
    fn stop_at(&self, target: u32, unit: u32) -> Option<Stop> {
        let draft = self.draft;
        let paths = Paths {
            draft,
            units: draft.units.count(),
            first: self.question.first,
        };
        let way = paths.way_through(target, unit)?;
        let entered = draft.ports.segment(unit, way.from)?;
        if !self.heard.has(entered) {
            return None;
        }
        let reason = draft
            .lists
            .reason(unit, way.from, way.to, self.question.pgn);
        if reason.crosses() {
            return None;
        }
        Some(Stop {
            unit,
            from: way.from,
            to: way.to,
            reason,
        })
    }

    // Where it stopped on the way to a segment; nowhere if no path leads there, which needs no look at each unit.
    fn find_stop(&self, target: u32) -> Option<Stop> {
        if !self.reached.has(target) {
            return None;
        }
        (1..=self.draft.units.count()).find_map(|unit| self.stop_at(target, unit))
    }

    // What a segment is told that does not hear it.
    fn tell_stop(&self, segment: u32, out: &mut Line) {
        let Some(stop) = self.find_stop(segment) else {
            out.push(b"does not hear it: no path leads there");
            return;
        };
        let Stop {
            unit,
            from,
            to,
            reason,
        } = stop;
        out.push(b"does not hear it: unit ");
        self.draft.units.tell(unit, out);
        let why = match reason {
            Reason::StoppedAsListed => "stopped as listed",
            Reason::StoppedAsNotListed => "stopped as not listed",
            _ => "",
        };
        out.put(format_args!(", port {from} to port {to}: {why}"));
    }

    // What a segment is told.
    fn tell_segment(&self, segment: u32, out: &mut Line) {
        out.push(b"  ");
        self.draft.segments.tell(segment, out);
        out.push(b": ");
        if segment == self.question.first {
            out.push(b"sent here");
        } else if self.heard.has(segment) {
            out.push(b"hears it");
        } else {
            self.tell_stop(segment, out);
        }
    }

    // The question.
    fn tell_question(&self, out: &mut Line) {
        let Question { pgn, first } = self.question;
        out.put(format_args!("PGN {pgn} sent on segment "));
        self.draft.segments.tell(first, out);
    }
}

// A question, which is right, and what each segment is told, line by line.
pub fn tell_answer(
    rt: &impl Print,
    draft: &Draft,
    question: Question,
    out: &mut Line,
) -> io::Result<()> {
    let units = draft.units.count();
    let answer = Answer {
        draft,
        question,
        heard: draft.heard(&draft.ports, units, question),
        reached: draft.reached(&draft.ports, units, question.first),
    };
    answer.tell_question(out);
    out.print(rt)?;
    for segment in 1..=draft.segments.count() {
        answer.tell_segment(segment, out);
        out.print(rt)?;
    }
    Ok(())
}
