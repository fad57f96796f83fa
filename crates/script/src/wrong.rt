// Why a line is no call, and that in words.
use std::fmt;

// What a word after the letter stands for.
#[derive(Clone, Copy, Debug, PartialEq, Eq)]
pub enum Field {
    Name,
    Preferred,
    Ports,
    Port,
    Identifier,
    Bytes,
    Requester,
    Payload,
}

impl Field {
    // What a word is that can stand for it.
    fn form(self) -> &'static str {
        match self {
            Field::Name => "1 to 16 hex digits",
            Field::Identifier => "1 to 8 hex digits",
            Field::Bytes | Field::Payload => "pairs of hex digits, or - for none",
            _ => "a decimal number below 2^32",
        }
    }
}

impl fmt::Display for Field {
    fn fmt<W: fmt::Write>(&self, f: &mut fmt::Formatter<W>) -> fmt::Result {
        let name = match self {
            Field::Name => "NAME",
            Field::Preferred => "preferred address",
            Field::Ports => "number of ports",
            Field::Port => "port",
            Field::Identifier => "identifier",
            Field::Bytes => "bytes",
            Field::Requester => "requester",
            Field::Payload => "payload",
        };
        write!(f, "{name}")
    }
}

#[derive(Clone, Copy, Debug, PartialEq, Eq)]
pub enum Wrong {
    TooLong,
    NoLetter,
    MoreWords,
    NoUnit,
    Missing(Field),
    Malformed(Field),
}

impl fmt::Display for Wrong {
    fn fmt<W: fmt::Write>(&self, f: &mut fmt::Formatter<W>) -> fmt::Result {
        match *self {
            Wrong::TooLong => write!(f, "longer than 4,096 bytes"),
            Wrong::NoLetter => write!(f, "the first word is none of P S Q F T M U C"),
            Wrong::MoreWords => write!(f, "more words than the call has"),
            Wrong::NoUnit => write!(f, "no unit yet: a power-on, P, comes first"),
            Wrong::Missing(field) => write!(f, "{field} missing"),
            Wrong::Malformed(field) => {
                let form = field.form();
                write!(f, "{field}: not {form}")
            }
        }
    }
}
