// The lines of a script: each is passed over or answered, and what is written for it.
use crate::calls::Run;
use line_parts::{Line, words};
use script::{Call, Wrong};
use script_output::words::refusal;
use std::io;

// Where an answer stands beside its call.
const COLUMN: usize = 36;

// A script as far as it is read, and the line that is written; where `is_plain`, answers stand alone, without their calls.
#[derive(Drop)]
pub struct Script {
    pub run: Run,
    is_plain: bool,
    lines: u64,
    out: Line,
}

// A line as it is, as much as a call can have.
fn shown(line: &[u8]) -> &[u8] {
    let n = line.len().min(script::LONGEST_LINE);
    &line[..n]
}

impl Script {
    pub fn new(is_plain: bool) -> Script {
        Script {
            run: Run::new(),
            is_plain,
            lines: 0,
            out: Line::new(),
        }
    }

    // The call that a line is. Before the first power-on there is no unit to call.
    fn parse<'a>(&self, line: &'a [u8]) -> Result<Call<'a>, Wrong> {
        let call = script::parse(line)?;
        if !self.run.tally.is_on() && !matches!(call, Call::PowerOn { .. }) {
            return Err(Wrong::NoUnit);
        }
        Ok(call)
    }

    // A call's answer, or why the line is none.
    fn answer(&mut self, line: &[u8]) -> Result<(), u32> {
        match self.parse(line) {
            Ok(call) => self.run.make(call, &mut self.out),
            Err(wrong) => {
                self.run.tally.no_call();
                let number = self.lines;
                self.out.put(format_args!("? line {number}: {wrong}"));
                Ok(())
            }
        }
    }

    // A call, its answer, and the words of a refusal.
    fn tell(&mut self, line: &[u8]) {
        if self.is_plain {
            let _ = self.answer(line);
            return;
        }
        self.out.push(shown(line));
        self.out.pad(COLUMN);
        self.out.push(b"  ");
        if let Err(number) = self.answer(line) {
            let words = refusal(number);
            self.out.put(format_args!("  ({number} {words})"));
        }
    }

    // A line without blanks at its ends. One that is passed over stands as it is, unless answers stand alone.
    pub fn take(&mut self, rt: &impl Print, line: &[u8]) -> io::Result<()> {
        self.lines = self.lines.saturating_add(1);
        if !words::is_passed_over(line) {
            self.tell(line);
        } else if self.is_plain {
            return Ok(());
        } else {
            self.out.push(shown(line));
        }
        self.out.print(rt)
    }
}
