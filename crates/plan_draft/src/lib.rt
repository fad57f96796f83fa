// A plan as far as its text is read: the segments, the units with what is on their ports, the lists, and the names.
#![tactic(auto)]

mod lists;
mod names;
mod ports;

use lists::Lists;
pub use names::Names;
use plan_shape::PORTS;
use plan_text::{Field, Finding, Kind, List, Mode, ON, Place, Said, Wrong};
pub use ports::{Mask, Ports};

#[derive(Drop)]
pub struct Draft {
    pub segments: Names,
    pub units: Names,
    pub ports: Ports,
    pub lists: Lists,
    // How many questions were right: behind one come questions alone.
    pub questions: u32,
}

// Which segments hear a PGN that is sent on the first one.
#[derive(Clone, Copy)]
pub struct Question {
    pub pgn: u32,
    pub first: u32,
}

impl Draft {
    pub fn new() -> Draft {
        Draft {
            segments: Names::new(),
            units: Names::new(),
            ports: Ports::new(),
            lists: Lists::new(),
            questions: 0,
        }
    }

    // The segments that hear a PGN through the first units, with these on their ports. What is read of a plan is never refused.
    pub fn heard(&self, ports: &Ports, units: u32, question: Question) -> Mask {
        let Question { pgn, first } = question;
        let heard = plans::hear(
            ports.words(),
            self.lists.words(),
            self.segments.count(),
            units,
            first,
            pgn,
        );
        Mask(heard.unwrap_or(0))
    }

    // The segments that a path leads to, whatever the lists say: those that hear a claim, which crosses every pair.
    pub fn reached(&self, ports: &Ports, units: u32, first: u32) -> Mask {
        let pgn = identifier::ADDRESS_CLAIMED;
        self.heard(ports, units, Question { pgn, first })
    }

    // The segment that a port's line or a question is on.
    fn find(&self, on: Place) -> Result<u32, Finding> {
        let found = match on {
            Place::Number(number) if 1 <= number && number <= self.segments.count() => Ok(number),
            Place::Number(_) => Err(Wrong::NoSegment),
            Place::Name(name) => self.segments.find(name),
        };
        found.map_err(|wrong| wrong.at(ON))
    }

    // A path over the units above from a segment to one that a port of the last unit is on already is wrong.
    fn check_paths(&self, unit: u32, segment: u32) -> Result<(), Finding> {
        let reached = self.reached(&self.ports, unit.saturating_sub(1), segment);
        let Some(port) = self.ports.first_in(unit, reached) else {
            return Ok(());
        };
        let Some(other) = self.ports.segment(unit, port) else {
            return Ok(());
        };
        if other == segment {
            return Err(Wrong::TwoPorts(port).at(ON));
        }
        let wrong = Wrong::TwoPaths {
            one: other,
            other: segment,
        };
        Err(wrong.at(ON))
    }

    // The last unit, which ports and pairs are of.
    fn last_unit(&self) -> Result<u32, Finding> {
        match self.units.count() {
            0 => Err(Wrong::NoUnit.at(0)),
            unit => Ok(unit),
        }
    }

    fn add_port(&mut self, port: u32, on: Place) -> Result<(), Finding> {
        let unit = self.last_unit()?;
        if port < 1 || PORTS < port as usize {
            return Err(Wrong::NoPort.at(1));
        }
        if let Some(segment) = self.ports.segment(unit, port) {
            return Err(Wrong::UsedPort(segment).at(1));
        }
        let segment = self.find(on)?;
        self.check_paths(unit, segment)?;
        self.ports.put(unit, port, segment);
        Ok(())
    }

    fn add_pair(&mut self, from: u32, to: u32, mode: Mode, list: &List) -> Result<(), Finding> {
        let unit = self.last_unit()?;
        if self.ports.segment(unit, from).is_none() {
            return Err(Wrong::UnknownPort(Field::From).at(1));
        }
        if self.ports.segment(unit, to).is_none() {
            return Err(Wrong::UnknownPort(Field::To).at(2));
        }
        if from == to {
            return Err(Wrong::FromIsTo.at(2));
        }
        self.lists.add(unit, from, to, mode, list)
    }

    fn ask(&mut self, pgn: u32, on: Place) -> Result<Question, Finding> {
        if !identifier::is_pgn(pgn) {
            return Err(Wrong::NoPgn.at(1));
        }
        let first = self.find(on)?;
        self.questions = self.questions.saturating_add(1);
        Ok(Question { pgn, first })
    }

    // What a line says that is right by its form: it is taken into the plan, or wrong by what stands above it. A question is given back.
    pub fn take(&mut self, said: Said) -> Result<Option<Question>, Finding> {
        if 0 < self.questions && !matches!(said, Said::Ask { .. }) {
            return Err(Wrong::AfterAsk.at(0));
        }
        match said {
            Said::Segment { number, name } => self
                .segments
                .add(number, name, Wrong::ManySegments, Wrong::NextSegment)
                .map_err(|wrong| wrong.at(1))?,
            Said::Unit { number, name } => self
                .units
                .add(number, name, Wrong::ManyUnits, Wrong::NextUnit)
                .map_err(|wrong| wrong.at(1))?,
            Said::Port { port, on } => self.add_port(port, on)?,
            Said::Pair {
                from,
                to,
                mode,
                list,
            } => self.add_pair(from, to, mode, &list)?,
            Said::Ask { pgn, on } => return Ok(Some(self.ask(pgn, on)?)),
        }
        Ok(None)
    }

    // A segment or a unit whose line is wrong counts all the same, without a name, so that the lines below are judged as they were meant.
    pub fn take_wrong(&mut self, line: &[u8]) {
        if 0 < self.questions || plan_text::LONGEST_LINE < line.len() {
            return;
        }
        match Kind::of(line) {
            Some(Kind::Segment) => self.segments.add_unnamed(),
            Some(Kind::Unit) => self.units.add_unnamed(),
            _ => {}
        }
    }
}
