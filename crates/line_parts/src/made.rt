// A line that is made, piece by piece, and then printed; the next is made in the same place. What has no room is left out.
ghost use Rattle.std.specs.Prelude.{◌≡◌, ◌≤◌, ◌++◌, ℕ, List, [], take};
ghost use Rattle.line_parts.specs.declared.made.TheConstants.{ROOM};

use std::fmt::Write;
use std::marker::Model;
use std::{fmt, io};

// Room for the longest line of a script, and the longest answer beside it.
const ROOM: usize = 8192;

#[derive(Drop)]
pub struct Line {
    bytes: [u8; ROOM],
    len: usize,
}

impl Model for Line {
    ghost Value = { List ℕ };

    ghost view = { λ l. take l.len l.bytes };

    ghost invariant = { λ l. l.len ≤ ROOM };
}

impl Line {
    pub fn new() -> Line
        ensures { result ≡ [] }
    {
        Line {
            bytes: [0; ROOM],
            len: 0,
        }
    }

    pub fn bytes(&self) -> &[u8]
        ensures { result.now ≡ self.now }
    {
        &self.bytes[..self.len]
    }

    pub fn push(&mut self, bytes: &[u8])
        ensures { self.new ≡ take ROOM (self.old ++ bytes.now) }
    {
        let n = (ROOM - self.len).min(bytes.len());
        let end = self.len + n;
        self.bytes[self.len..end].copy_from_slice(&bytes[..n]);
        self.len = end;
    }

    // No text is refused.
    pub fn put<D: fmt::Display + Drop>(&mut self, text: D) {
        let _ = write!(self, "{text}");
    }

    // Blanks up to a column.
    pub fn pad(&mut self, column: usize) {
        let width = column.min(ROOM);
        if self.len < width {
            self.bytes[self.len..width].fill(b' ');
            self.len = width;
        }
    }

    // The line, ended, on standard output. The next begins without it.
    pub fn print(&mut self, rt: &impl Print) -> io::Result<()>
        ensures { self.new ≡ [] }
    {
        self.push(b"\n");
        let printed = rt.write_all(self.bytes());
        self.len = 0;
        printed
    }
}

impl fmt::Write for Line {
    fn write_str(&mut self, text: &str) -> fmt::Result {
        self.push(text.as_bytes());
        Ok(())
    }
}

// Bytes in hex, - for none.
#[derive(Clone, Copy)]
pub struct Hex<'a>(pub &'a [u8]);

impl<'a> fmt::Display for Hex<'a> {
    fn fmt<W: fmt::Write>(&self, f: &mut fmt::Formatter<W>) -> fmt::Result {
        if self.0.is_empty() {
            return write!(f, "-");
        }
        for byte in self.0 {
            write!(f, "{byte:02X}")?;
        }
        Ok(())
    }
}

// The ports of a mask, rising, - for none.
#[derive(Clone, Copy)]
pub struct Ports(pub u64);

impl fmt::Display for Ports {
    fn fmt<W: fmt::Write>(&self, f: &mut fmt::Formatter<W>) -> fmt::Result {
        if self.0 == 0 {
            return write!(f, "-");
        }
        for index in 0..8u32 {
            if (self.0 >> index) % 2 == 1 {
                let port = index + 1;
                write!(f, "{port}")?;
            }
        }
        Ok(())
    }
}
