// The script format: the call that a line is, or why it is none.
#![tactic(auto)]

mod wrong;

ghost use Rattle.std.specs.Prelude.{◌≤◌};

use line_parts::words::{decimal, hex, is_blank};
use unit::Unit;
pub use wrong::{Field, Wrong};

// The most bytes of a line, blanks at its end aside; a longer one is no call.
pub const LONGEST_LINE: usize = line_parts::LONGEST;

// Bytes are as they are written: two hex digits each, - for none.
#[derive(Clone, Copy)]
pub enum Call<'a> {
    PowerOn {
        name: u64,
        preferred: u32,
        ports: u32,
    },
    Start,
    Quiet,
    Unit,
    Frame {
        port: u32,
        identifier: u32,
        bytes: &'a [u8],
    },
    Take {
        port: u32,
    },
    Counts {
        port: u32,
    },
    Message {
        port: u32,
        requester: u32,
        payload: &'a [u8],
    },
}

impl<'a> Call<'a> {
    pub fn letter(&self) -> char {
        match self {
            Call::PowerOn { .. } => 'P',
            Call::Start => 'S',
            Call::Quiet => 'Q',
            Call::Unit => 'U',
            Call::Frame { .. } => 'F',
            Call::Take { .. } => 'T',
            Call::Counts { .. } => 'C',
            Call::Message { .. } => 'M',
        }
    }
}

// A line's word, by its number from 0: 0 is the letter.
fn nth_word(line: &[u8], number: usize) -> Option<&[u8]> {
    line.split(|byte| is_blank(*byte))
        .filter(|word| !word.is_empty())
        .nth(number)
}

// The word that stands for a field.
fn word<'a>(line: &'a [u8], number: usize, field: Field) -> Result<&'a [u8], Wrong> {
    nth_word(line, number).ok_or(Wrong::Missing(field))
}

fn decimal_at(line: &[u8], number: usize, field: Field) -> Result<u32, Wrong> {
    decimal(word(line, number, field)?).ok_or(Wrong::Malformed(field))
}

// A number of one to sixteen hex digits.
fn name(line: &[u8]) -> Result<u64, Wrong> {
    let digits = word(line, 1, Field::Name)?;
    match hex(digits) {
        Some(name) if digits.len() <= 16 => Ok(name),
        _ => Err(Wrong::Malformed(Field::Name)),
    }
}

// The same of one to eight.
fn identifier(line: &[u8]) -> Result<u32, Wrong> {
    let digits = word(line, 2, Field::Identifier)?;
    match hex(digits).map(u32::try_from) {
        Some(Ok(identifier)) if digits.len() <= 8 => Ok(identifier),
        _ => Err(Wrong::Malformed(Field::Identifier)),
    }
}

// Four where the number of ports is left out.
fn ports(line: &[u8]) -> Result<u32, Wrong> {
    if nth_word(line, 3).is_none() {
        return Ok(Unit::PORTS);
    }
    decimal_at(line, 3, Field::Ports)
}

// Two hex digits each, - for none.
fn bytes<'a>(line: &'a [u8], field: Field) -> Result<&'a [u8], Wrong> {
    let digits = word(line, 3, field)?;
    let is_even = digits.len() % 2 == 0;
    let is_hex = digits.iter().all(|digit| digit.is_ascii_hexdigit());
    if digits == b"-".as_slice() || (is_even && is_hex) {
        return Ok(digits);
    }
    Err(Wrong::Malformed(field))
}

// Nothing stands behind a call's last word.
fn end(line: &[u8], number: usize) -> Result<(), Wrong> {
    match nth_word(line, number) {
        Some(_) => Err(Wrong::MoreWords),
        None => Ok(()),
    }
}

fn power_on(line: &[u8]) -> Result<Call<'_>, Wrong> {
    let name = name(line)?;
    let preferred = decimal_at(line, 2, Field::Preferred)?;
    let ports = ports(line)?;
    end(line, 4)?;
    Ok(Call::PowerOn {
        name,
        preferred,
        ports,
    })
}

fn frame(line: &[u8]) -> Result<Call<'_>, Wrong> {
    let port = decimal_at(line, 1, Field::Port)?;
    let identifier = identifier(line)?;
    let bytes = bytes(line, Field::Bytes)?;
    end(line, 4)?;
    Ok(Call::Frame {
        port,
        identifier,
        bytes,
    })
}

fn message(line: &[u8]) -> Result<Call<'_>, Wrong> {
    let port = decimal_at(line, 1, Field::Port)?;
    let requester = decimal_at(line, 2, Field::Requester)?;
    let payload = bytes(line, Field::Payload)?;
    end(line, 4)?;
    Ok(Call::Message {
        port,
        requester,
        payload,
    })
}

// A call's only argument, a port.
fn port(line: &[u8]) -> Result<u32, Wrong> {
    let port = decimal_at(line, 1, Field::Port)?;
    end(line, 2)?;
    Ok(port)
}

// A call that has no argument.
fn alone<'a>(line: &'a [u8], call: Call<'a>) -> Result<Call<'a>, Wrong> {
    end(line, 1)?;
    Ok(call)
}

// The call that a line, without blanks at its ends, is, by its letter.
pub fn parse(line: &[u8]) -> Result<Call<'_>, Wrong> {
    if LONGEST_LINE < line.len() {
        return Err(Wrong::TooLong);
    }
    match nth_word(line, 0) {
        Some(b"P") => power_on(line),
        Some(b"S") => alone(line, Call::Start),
        Some(b"Q") => alone(line, Call::Quiet),
        Some(b"U") => alone(line, Call::Unit),
        Some(b"F") => frame(line),
        Some(b"T") => Ok(Call::Take { port: port(line)? }),
        Some(b"C") => Ok(Call::Counts { port: port(line)? }),
        Some(b"M") => message(line),
        _ => Err(Wrong::NoLetter),
    }
}

// A hex digit's value.
fn digit(byte: u8) -> u8
    ensures { result ≤ 15 }
{
    match byte {
        b'0'..=b'9' => byte - b'0',
        b'A'..=b'F' => byte - b'A' + 10,
        b'a'..=b'f' => byte - b'a' + 10,
        _ => 0,
    }
}

// The bytes that digits stand for, as many as there is room for.
pub fn decode<'a>(digits: &[u8], space: &'a mut [u8]) -> &'a [u8] {
    let n = (digits.len() / 2).min(space.len());
    for (byte, pair) in space.iter_mut().zip(digits.chunks_exact(2)) {
        if let [high, low] = pair {
            *byte = 16 * digit(*high) + digit(*low);
        }
    }
    &space[..n]
}
