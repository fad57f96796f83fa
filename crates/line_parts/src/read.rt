// Lines of an input, read one after the other into one buffer. Blanks before a line and a byte-order mark before the first are passed over.
ghost use Rattle.std.specs.Prelude.{◌≤◌};
ghost use Rattle.line_parts.specs.declared.read.TheConstants.{ROOM};

use crate::words;
use std::io;
use std::io::Read;

// The most bytes of a line, blanks at its end aside. A longer one is cut to one byte more, by which it is known.
pub const LONGEST: usize = 4096;

const ROOM: usize = LONGEST + 1;

// The bytes of a read.
const BLOCK: usize = 65536;

// A line as far as it is read.
#[derive(Drop)]
struct Begun {
    bytes: [u8; ROOM],
    len: usize,
    is_first: bool,
    ghost in_range: { len ≤ ROOM },
}

impl Begun {
    fn new() -> Begun {
        Begun {
            bytes: [0; ROOM],
            len: 0,
            is_first: true,
        }
    }

    fn bytes(&self) -> &[u8] {
        &self.bytes[..self.len]
    }

    // Bytes more: at once, where none is left out and no mark can stand among them.
    fn push(&mut self, bytes: &[u8]) {
        let bytes = if self.len == 0 {
            words::trim_start(bytes)
        } else {
            bytes
        };
        if self.is_first || ROOM - self.len < bytes.len() {
            for byte in bytes {
                self.push_byte(*byte);
            }
            return;
        }
        let end = self.len + bytes.len();
        self.bytes[self.len..end].copy_from_slice(bytes);
        self.len = end;
    }

    // The line that ends with these bytes; the next begins behind it. One that lies whole in them is not copied, unless it is the first or has to be cut.
    fn end<'a>(&'a mut self, bytes: &'a [u8]) -> &'a [u8] {
        if self.len == 0 && !self.is_first && bytes.len() <= ROOM {
            return words::trim_end(words::trim_start(bytes));
        }
        self.push(bytes);
        let n = self.len;
        self.len = 0;
        self.is_first = false;
        words::trim_end(&self.bytes[..n])
    }

    // One byte more. One that has no room stands at the line's end, unless it is a blank: so a line that is too long is known by its length.
    fn push_byte(&mut self, byte: u8) {
        let is_blank = words::is_blank(byte);
        if self.len == 0 && is_blank {
            return;
        }
        if self.len < ROOM {
            self.bytes[self.len] = byte;
            self.len += 1;
        } else if !is_blank {
            self.bytes[ROOM - 1] = byte;
        }
        if self.is_first && matches!(self.bytes(), b"\xEF\xBB\xBF") {
            self.len = 0;
        }
    }
}

// Why an input is not read to its end.
#[derive(Drop)]
pub enum Failure {
    Read(io::Error),
    Write(io::Error),
}

impl Failure {
    // On standard error, with the program's name and what it reads.
    pub fn tell(&self, rt: &impl Eprint, program: &str, input: &str) {
        let _ = match self {
            Failure::Read(error) => eprintln!(rt; "{program}: cannot read {input}: {error}"),
            Failure::Write(error) => eprintln!(rt; "{program}: cannot write: {error}"),
        };
    }
}

// Each line of an input, taken by a function that writes what it makes of it. A proved loop has to end, and nothing says that the input does: so the reads are
// counted, to as many as u64::MAX lines of u64::MAX bytes can take.
pub fn read_lines<R: Read, F: FnMut(&[u8]) -> io::Result<()>>(
    input: &mut R,
    mut take: F,
) -> Result<(), Failure>
    requires { F.IsAlwaysCallable take }
{
    let mut block = [0u8; BLOCK];
    let mut begun = Begun::new();
    for _ in 0..u64::MAX {
        for _ in 0..u64::MAX {
            let n = input.read(&mut block).map_err(Failure::Read)?;
            // A last line that is not ended is ended here.
            let read: &[u8] = if n == 0 && 0 < begun.len {
                b"\n"
            } else {
                &block[..n]
            };
            for piece in read.split_inclusive(|byte| *byte == b'\n') {
                match piece.split_last() {
                    Some((b'\n', bytes)) => take(begun.end(bytes)).map_err(Failure::Write)?,
                    _ => begun.push(piece),
                }
            }
            if n == 0 {
                return Ok(());
            }
        }
    }
    Ok(())
}
