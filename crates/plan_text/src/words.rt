// The words of a plan's line: parted by blanks, up to one that begins with #. One that begins with a quotation mark goes up to the next, blanks and all.
ghost use Rattle.std.specs.Prelude.{◌≤◌, ◌<◌, length};
ghost use Rattle.std.specs.Iterator.{at_most};

use line_parts::words;

// The words of what is left of a line, one after the other.
#[derive(Clone, Copy)]
pub struct Words<'a>(pub &'a [u8]);

impl<'a> Iterator for Words<'a> {
    type Item = &'a [u8];

    ghost remaining = { λ s. at_most (length s.0.now) };

    fn next(&mut self) -> Option<&'a [u8]> {
        let line = words::trim_start(self.0);
        if line.is_empty() || line[0] == b'#' {
            return None;
        }
        let (word, rest) = line.split_at(end_of(line));
        self.0 = rest;
        Some(word)
    }
}

// Where the word ends that a line begins with.
fn end_of(line: &[u8]) -> usize
    requires { 0 < length line.now }
    ensures { (0 < result) × (result ≤ length line.now) }
{
    let behind = &line[1..];
    let end = if line[0] == b'"' {
        behind.iter().position(|byte| *byte == b'"').map(|i| i + 2)
    } else {
        behind
            .iter()
            .position(|byte| words::is_blank(*byte))
            .map(|i| i + 1)
    };
    end.unwrap_or(line.len())
}

// Whether a word begins with a quotation mark and no other ends it.
pub fn is_open(word: &[u8]) -> bool {
    match word {
        [b'"', .., last] => *last != b'"',
        [b'"'] => true,
        _ => false,
    }
}

// A word, which is not open, without its quotation marks.
pub fn inside(word: &[u8]) -> &[u8] {
    match word {
        [b'"', inner @ .., _] => inner,
        _ => word,
    }
}

// The number of a PGN: decimal, or hex behind 0x, as the gateway's lists file has it.
pub fn pgn(word: &[u8]) -> Option<u32> {
    match word {
        [b'0', b'x' | b'X', digits @ ..] if !digits.is_empty() => u32::try_from(words::hex(
            digits,
        )?).ok(),
        _ => words::decimal(word),
    }
}
