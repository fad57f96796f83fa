// Why a line is wrong, and that in words: what its word stands for, the word, and the reason.
use crate::words::Words;
use line_parts::Line;
use std::fmt;

// The most bytes that are shown of a word.
const SHOWN: usize = 32;

// What a word after the first stands for.
#[derive(Clone, Copy, Debug, PartialEq, Eq)]
pub enum Field {
    Segment,
    Unit,
    Port,
    WordSegment,
    From,
    To,
    Mode,
    Pgn,
    Name,
}

impl fmt::Display for Field {
    fn fmt<W: fmt::Write>(&self, f: &mut fmt::Formatter<W>) -> fmt::Result {
        let name = match self {
            Field::Segment => "segment",
            Field::Unit => "unit",
            Field::Port => "port",
            Field::WordSegment => "the word segment",
            Field::From => "From",
            Field::To => "To",
            Field::Mode => "mode",
            Field::Pgn => "PGN",
            Field::Name => "name",
        };
        write!(f, "{name}")
    }
}

// Why a line is wrong: by its form up to `MoreWords`, then by what stands above it.
#[derive(Clone, Copy, Debug, PartialEq, Eq)]
pub enum Wrong {
    TooLong,
    NoKind,
    Missing(Field),
    NoNumber(Field),
    NoHex,
    NoEnd,
    LongName,
    NoMode,
    ManyPgns,
    MoreWords,
    AfterAsk,
    ManySegments,
    ManyUnits,
    NextSegment(u32),
    NextUnit(u32),
    NoUnit,
    NoPort,
    UsedPort(u32),
    NoSegment,
    TwoNames,
    TwoPorts(u32),
    TwoPaths { one: u32, other: u32 },
    UnknownPort(Field),
    FromIsTo,
    KnownPair { from: u32, to: u32 },
    NoPgn,
}

impl Wrong {
    pub fn at(self, place: usize) -> Finding {
        Finding { wrong: self, place }
    }

    // What the wrong word stands for, where that is told.
    fn subject(self) -> Option<Field> {
        match self {
            Wrong::NoNumber(field) | Wrong::UnknownPort(field) => Some(field),
            Wrong::ManySegments | Wrong::NextSegment(_) => Some(Field::Segment),
            Wrong::NoSegment | Wrong::TwoNames | Wrong::TwoPorts(_) => Some(Field::Segment),
            Wrong::TwoPaths { .. } => Some(Field::Segment),
            Wrong::ManyUnits | Wrong::NextUnit(_) => Some(Field::Unit),
            Wrong::NoPort | Wrong::UsedPort(_) => Some(Field::Port),
            Wrong::KnownPair { .. } => Some(Field::From),
            Wrong::FromIsTo => Some(Field::To),
            Wrong::NoMode => Some(Field::Mode),
            Wrong::NoHex | Wrong::ManyPgns | Wrong::NoPgn => Some(Field::Pgn),
            Wrong::LongName => Some(Field::Name),
            _ => None,
        }
    }
}

// The reason. Segments and units are told by their numbers alone: their names are not known here.
impl fmt::Display for Wrong {
    fn fmt<W: fmt::Write>(&self, f: &mut fmt::Formatter<W>) -> fmt::Result {
        match *self {
            Wrong::TooLong => write!(f, "longer than 4,096 bytes"),
            Wrong::NoKind => write!(
                f,
                "the first word is none of segment, unit, port, pair, ask"
            ),
            Wrong::Missing(field) => write!(f, "{field} missing"),
            Wrong::NoNumber(_) => write!(f, "not a decimal number below 2^32"),
            Wrong::NoHex => write!(f, "not a number below 2^32, decimal or 0x hex"),
            Wrong::NoEnd => write!(f, "no quotation mark ends it"),
            Wrong::LongName => write!(f, "longer than 32 bytes"),
            Wrong::NoMode => write!(f, "not pass or block"),
            Wrong::ManyPgns => write!(f, "more than 32 PGNs"),
            Wrong::MoreWords => write!(f, "more words than the line has"),
            Wrong::AfterAsk => write!(f, "after an ask come asks alone"),
            Wrong::ManySegments => write!(f, "there are 16 segments already"),
            Wrong::ManyUnits => write!(f, "there are 16 units already"),
            Wrong::NextSegment(number) => write!(f, "the next segment is {number}"),
            Wrong::NextUnit(number) => write!(f, "the next unit is {number}"),
            Wrong::NoUnit => write!(f, "no unit yet"),
            Wrong::NoPort => write!(f, "not 1 to 8"),
            Wrong::UsedPort(segment) => write!(f, "on segment {segment} already"),
            Wrong::NoSegment => write!(f, "not above"),
            Wrong::TwoNames => write!(f, "two have this name"),
            Wrong::TwoPorts(port) => write!(f, "port {port} is on it already (29)"),
            Wrong::TwoPaths { one, .. } => write!(f, "two paths to segment {one} (29)"),
            Wrong::UnknownPort(_) => write!(f, "no such port above"),
            Wrong::FromIsTo => write!(f, "equals From"),
            Wrong::KnownPair { from, to } => write!(f, "pair {from} {to} is above already"),
            Wrong::NoPgn => write!(f, "no PGN"),
        }
    }
}

// Why a line is wrong, and which word of it, by its number from 0.
#[derive(Clone, Copy, Debug, PartialEq, Eq)]
pub struct Finding {
    pub wrong: Wrong,
    pub place: usize,
}

impl Finding {
    // The word that is wrong, if the line has it, behind what it stands for, and a colon.
    pub fn tell_word(self, line: &[u8], out: &mut Line) {
        let Some(word) = Words(line).nth(self.place) else {
            return;
        };
        if let Some(field) = self.wrong.subject() {
            out.put(format_args!("{field} "));
        }
        tell_quoted(word, out);
        out.push(b": ");
    }
}

// A word in quotation marks; one that begins with one as it stands.
fn tell_quoted(word: &[u8], out: &mut Line) {
    if word.starts_with(b"\"") {
        tell_cut(word, out);
    } else {
        out.push(b"\"");
        tell_cut(word, out);
        out.push(b"\"");
    }
}

// The beginning of a word, or all of it.
fn tell_cut(word: &[u8], out: &mut Line) {
    let shown = word.len().min(SHOWN);
    out.push(&word[..shown]);
    if shown < word.len() {
        out.push(b"..");
    }
}
