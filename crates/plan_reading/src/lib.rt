// A plan's text: each line is taken into the plan or answered, or told to be wrong. Below a wrong line nothing is answered.
#![tactic(auto)]

use line_parts::{Failure, Line, read_lines, words};
use plan_draft::Draft;
use plan_text::Finding;
use std::io;
use std::io::Read;

// A plan as far as its text is read, the lines, those of them that were wrong, and the line that is written.
#[derive(Drop)]
struct Reading {
    draft: Draft,
    lines: u32,
    wrong: u32,
    out: Line,
}

impl Reading {
    // Why the line that was read last is wrong.
    fn tell_wrong(&mut self, rt: &impl Print, line: &[u8], found: Finding) -> io::Result<()> {
        let number = self.lines;
        self.out.put(format_args!("? line {number}: "));
        found.tell_word(line, &mut self.out);
        plan_answers::tell_wrong(&self.draft, found.wrong, &mut self.out);
        self.wrong = self.wrong.saturating_add(1);
        self.draft.take_wrong(line);
        self.out.print(rt)
    }

    // A line that is not passed over: it is taken into the plan. A question is answered unless a line above is wrong. Apart, so that a line that is passed over costs little.
    #[inline(never)]
    fn judge(&mut self, rt: &impl Print, line: &[u8]) -> io::Result<()> {
        let taken = match plan_text::parse(line) {
            Ok(said) => self.draft.take(said),
            Err(found) => Err(found),
        };
        match taken {
            Ok(Some(question)) if self.wrong == 0 => {
                plan_answers::tell_answer(rt, &self.draft, question, &mut self.out)
            }
            Ok(_) => Ok(()),
            Err(found) => self.tell_wrong(rt, line, found),
        }
    }

    // A line without blanks at its ends. One that is empty or a comment is passed over.
    fn take(&mut self, rt: &impl Print, line: &[u8]) -> io::Result<()> {
        self.lines = self.lines.saturating_add(1);
        if words::is_passed_over(line) {
            return Ok(());
        }
        self.judge(rt, line)
    }

    // How much there was, or how many lines were wrong.
    fn tell_end(&mut self, rt: &impl Print) -> io::Result<()> {
        let out = &mut self.out;
        let wrong = self.wrong;
        let segments = self.draft.segments.count();
        let units = self.draft.units.count();
        let answers = self.draft.questions;
        if 0 < wrong {
            out.put(format_args!("wrong lines {wrong}"));
        } else {
            out.put(format_args!("segments {segments}, units {units}, answers {answers}"));
        }
        out.print(rt)
    }

    fn read(&mut self, rt: &impl Print, input: &mut impl Read) -> Result<(), Failure> {
        read_lines(input, |line| self.take(rt, line))?;
        self.tell_end(rt).map_err(Failure::Write)
    }
}

// A plan's text, and how many of its lines were wrong. What fails is told on standard error.
pub fn answer(rt: &(impl Print + Eprint), input: &mut impl Read) -> u32 {
    let mut reading = Reading {
        draft: Draft::new(),
        lines: 0,
        wrong: 0,
        out: Line::new(),
    };
    if let Err(failure) = reading.read(rt, input) {
        failure.tell(rt, "plan", "the plan");
    }
    reading.wrong
}
