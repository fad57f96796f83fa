// Standard input by pieces, standard output, and what is told on standard error, for the programs.
#![tactic(auto)]

ghost use Rattle.std.specs.Prelude.{◌≤◌, length, IfOk, IfSome};

use std::io::Read;

// What a program does with a piece of its input.
pub trait Pieces {
    // The bytes at the front of a piece that are done with, or none if all is over; `last` says that nothing follows the piece.
    fn take(&mut self, piece: &[u8], last: bool) -> Option<usize>
        ensures { IfSome result (λ n. n ≤ length piece.now) };
}

// All of the input, piece by piece; what is left of a piece stands at the front of the next. A failure is told. A proved loop has to end, and nothing says that the
// input does: so the reads are counted, up to a number that no run comes to.
pub fn read_pieces<P: Pieces>(
    rt: &impl Eprint,
    input: &mut impl Read,
    buffer: &mut [u8],
    program: &mut P,
) {
    let mut left = 0;
    'reads: for _ in 0..u64::MAX {
        let read = match input.read(&mut buffer[left..]) {
            Ok(n) => n,
            Err(e) => {
                let _ = eprintln!(rt; "cannot read standard input: {e}");
                return;
            }
        };
        let end = left + read;
        let last = read == 0;
        let Some(used) = program.take(&buffer[..end], last) else {
            return;
        };
        if last {
            return;
        }
        buffer.copy_within(used..end, 0);
        left = end - used;
    }
}

// What a turn over a piece came to: the bytes of it that were used, those of text that were written, whether all is over.
#[derive(Clone, Copy)]
pub struct Turn {
    pub used: usize,
    pub written: usize,
    pub over: bool,
}

// What a program turns into text: as much of a piece as is whole and has room; a turn that uses nothing has run out of the piece.
pub trait Turns {
    fn turn(&mut self, piece: &[u8], last: bool, out: &mut [u8]) -> Turn
        ensures { (result.used ≤ length piece.now) × (result.written ≤ length out.old) };
}

// All that a piece has, a buffer of text at a time, to standard output: how much of it was used, or none if all is over or the text can't be written.
fn write_turns<T: Turns>(
    rt: &(impl Print + Eprint),
    piece: &[u8],
    last: bool,
    out: &mut [u8],
    program: &mut T,
) -> Option<usize>
    ensures { IfSome result (λ n. n ≤ length piece.now) }
{
    let mut used = 0;
    'turns: loop {
        let turn = program.turn(&piece[used..], last, out);
        let is_written = write(rt, &out[..turn.written]);
        if turn.over || !is_written {
            return None;
        }
        used += turn.used;
        if turn.used == 0 {
            return Some(used);
        }
    }
}

// The bytes of input, and of text, that are kept at a time.
const BLOCK: usize = 65536;

// A program that turns its input into text.
#[derive(Drop)]
struct Writer<'a, R: Print + Eprint, T: Turns> {
    rt: &'a R,
    program: &'a mut T,
    text: [u8; BLOCK],
}

impl<R: Print + Eprint, T: Turns> Pieces for Writer<'_, R, T> {
    fn take(&mut self, piece: &[u8], last: bool) -> Option<usize> {
        write_turns(self.rt, piece, last, &mut self.text, self.program)
    }
}

// All of the input turned into text on standard output.
pub fn turn_input<R: Print + Eprint, T: Turns>(rt: &R, input: &mut impl Read, program: &mut T) {
    let mut buffer = [0u8; BLOCK];
    let mut writer = Writer {
        rt,
        program,
        text: [0u8; BLOCK],
    };
    read_pieces(rt, input, &mut buffer, &mut writer);
}

// Reads until a buffer is full, the input ends or a read fails: how many bytes stand at its start.
pub fn read_full(input: &mut impl Read, buffer: &mut [u8]) -> usize
    ensures { result ≤ length buffer.old }
{
    let mut done = 0;
    while done < buffer.len() {
        match input.read(&mut buffer[done..]) {
            Ok(0) | Err(_) => break,
            Ok(n) => done += n,
        }
    }
    done
}

// Writes bytes to standard output. A failure is told.
pub fn write(rt: &(impl Print + Eprint), bytes: &[u8]) -> bool {
    match rt.write_all(bytes) {
        Ok(()) => true,
        Err(e) => {
            let _ = eprintln!(rt; "cannot write standard output: {e}");
            false
        }
    }
}

// A line that ends with a number, for `err`, which is standard error.
pub fn tell(err: &impl Print, words: &[u8], number: u64) {
    let _ = err.write_all(words);
    let _ = err.println(number);
}

// What was refused: its place from 1 and its number.
pub fn tell_refused(rt: &impl Eprint, place: u64, number: u32) {
    let _ = eprintln!(rt; "{place} {number}");
}
