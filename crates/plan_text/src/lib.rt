// A line of a plan as a dealer writes it (docs/PLANS.md): what it says, or why it is wrong by its form.
#![tactic(auto)]

mod list;
mod words;
mod wrong;

use line_parts::words::decimal;
pub use list::List;
use words::Words;
pub use wrong::{Field, Finding, Wrong};

// The most bytes of a line, blanks at its end aside, and of a name.
pub const LONGEST_LINE: usize = line_parts::LONGEST;

pub const LONGEST_NAME: usize = 32;

// Where a pair's list begins among the words of its line; where a segment is named in a port's line and a question.
pub const LIST: usize = 4;

pub const ON: usize = 3;

// A line's kind, by its first word.
#[derive(Clone, Copy, Debug, PartialEq, Eq)]
pub enum Kind {
    Segment,
    Unit,
    Port,
    Pair,
    Ask,
}

impl Kind {
    pub fn of(line: &[u8]) -> Option<Kind> {
        match Words(line).next()? {
            b"segment" => Some(Kind::Segment),
            b"unit" => Some(Kind::Unit),
            b"port" => Some(Kind::Port),
            b"pair" => Some(Kind::Pair),
            b"ask" => Some(Kind::Ask),
            _ => None,
        }
    }
}

// What a pair's list says of its PGNs.
#[derive(Clone, Copy, Debug, PartialEq, Eq)]
pub enum Mode {
    Block,
    Pass,
}

// A segment, by its number or its name.
#[derive(Clone, Copy)]
pub enum Place<'a> {
    Number(u32),
    Name(&'a [u8]),
}

// What a line says. A segment or a unit that has no name has an empty one.
#[derive(Clone, Copy)]
pub enum Said<'a> {
    Segment {
        number: u32,
        name: &'a [u8],
    },
    Unit {
        number: u32,
        name: &'a [u8],
    },
    Port {
        port: u32,
        on: Place<'a>,
    },
    Pair {
        from: u32,
        to: u32,
        mode: Mode,
        list: List,
    },
    Ask {
        pgn: u32,
        on: Place<'a>,
    },
}

// The word at a place, which stands for a field.
fn word<'a>(line: &'a [u8], place: usize, field: Field) -> Result<&'a [u8], Finding> {
    Words(line)
        .nth(place)
        .ok_or(Wrong::Missing(field).at(place))
}

fn number(line: &[u8], place: usize, field: Field) -> Result<u32, Finding> {
    decimal(word(line, place, field)?).ok_or(Wrong::NoNumber(field).at(place))
}

// A word that may stand in quotation marks.
fn marked<'a>(word: &'a [u8], place: usize) -> Result<&'a [u8], Finding> {
    if words::is_open(word) {
        return Err(Wrong::NoEnd.at(place));
    }
    Ok(words::inside(word))
}

fn end(line: &[u8], place: usize) -> Result<(), Finding> {
    match Words(line).nth(place) {
        Some(_) => Err(Wrong::MoreWords.at(place)),
        None => Ok(()),
    }
}

// The name that may stand at the end of a segment's line, or a unit's.
fn parse_name(line: &[u8]) -> Result<&[u8], Finding> {
    let Some(word) = Words(line).nth(2) else {
        return Ok(&[]);
    };
    let name = marked(word, 2)?;
    if LONGEST_NAME < name.len() {
        return Err(Wrong::LongName.at(2));
    }
    end(line, 3)?;
    Ok(name)
}

// The segment at the end of a port's line, or a question, behind the word segment.
fn parse_place(line: &[u8]) -> Result<Place<'_>, Finding> {
    if word(line, 2, Field::WordSegment)? != b"segment".as_slice() {
        return Err(Wrong::Missing(Field::WordSegment).at(2));
    }
    let word = word(line, ON, Field::Segment)?;
    let name = marked(word, ON)?;
    end(line, 4)?;
    Ok(match decimal(word) {
        Some(number) => Place::Number(number),
        None => Place::Name(name),
    })
}

fn parse_mode(line: &[u8]) -> Result<Mode, Finding> {
    match word(line, 3, Field::Mode)? {
        b"block" => Ok(Mode::Block),
        b"pass" => Ok(Mode::Pass),
        _ => Err(Wrong::NoMode.at(3)),
    }
}

// segment 1 tractor
fn parse_segment(line: &[u8]) -> Result<Said<'_>, Finding> {
    Ok(Said::Segment {
        number: number(line, 1, Field::Segment)?,
        name: parse_name(line)?,
    })
}

// unit 1 cab
fn parse_unit(line: &[u8]) -> Result<Said<'_>, Finding> {
    Ok(Said::Unit {
        number: number(line, 1, Field::Unit)?,
        name: parse_name(line)?,
    })
}

// port 2 segment 1
fn parse_port(line: &[u8]) -> Result<Said<'_>, Finding> {
    Ok(Said::Port {
        port: number(line, 1, Field::Port)?,
        on: parse_place(line)?,
    })
}

// pair 1 2 pass 65097
fn parse_pair(line: &[u8]) -> Result<Said<'_>, Finding> {
    Ok(Said::Pair {
        from: number(line, 1, Field::From)?,
        to: number(line, 2, Field::To)?,
        mode: parse_mode(line)?,
        list: List::parse(line)?,
    })
}

// ask 65097 segment 1
fn parse_ask(line: &[u8]) -> Result<Said<'_>, Finding> {
    Ok(Said::Ask {
        pgn: words::pgn(word(line, 1, Field::Pgn)?).ok_or(Wrong::NoHex.at(1))?,
        on: parse_place(line)?,
    })
}

// What a line, without blanks at its ends, says, or why it is wrong by its form.
pub fn parse(line: &[u8]) -> Result<Said<'_>, Finding> {
    if LONGEST_LINE < line.len() {
        return Err(Wrong::TooLong.at(0));
    }
    match Kind::of(line) {
        Some(Kind::Segment) => parse_segment(line),
        Some(Kind::Unit) => parse_unit(line),
        Some(Kind::Port) => parse_port(line),
        Some(Kind::Pair) => parse_pair(line),
        Some(Kind::Ask) => parse_ask(line),
        None => Err(Wrong::NoKind.at(0)),
    }
}
