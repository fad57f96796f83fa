// A line as `candump -l` writes it on a real bus, written anew as the strict reader of `candump` takes it: the interface's name becomes can1 to can4 by a map
// such as can0=1,vcan1=2, hex digits become upper case, and a direction letter, a carriage return and the blanks that fill a short name up are left out. What is a
// frame the strict reader says.
#![tactic(auto)]

ghost use Rattle.std.specs.Prelude.{◌≡◌, ◌+◌, ◌≤◌, length, IfOk};

// Why a line is passed over.
#[derive(Clone, Copy, Debug, PartialEq, Eq)]
pub enum Reason {
    NotMapped,
    ElevenBits,
    Remote,
    Flexible,
    Error,
    NoLine,
}

// The bytes of a time and a blank, of the most that is kept of an identifier with its data (one more than a frame has), and of the longest line that is written.
const HEAD: usize = 20;

const WORD: usize = 26;

pub const ROOM: usize = 52;

// A text up to the first byte that ends it, and what begins with that byte.
fn split_where<F: Fn(u8) -> bool>(text: &[u8], ends: F) -> (&[u8], &[u8])
    requires { F.IsAlwaysCallable ends }
{
    let n = text.iter().position(|c| ends(*c)).unwrap_or(text.len());
    text.split_at(n)
}

// The interface of a map's item, NAME=PORT, and its digit, which is 1 to 4.
fn item_of(item: &[u8]) -> Option<(&[u8], u8)> {
    let (name, rest) = split_where(item, |c| c == b'=');
    match rest {
        [b'=', digit @ b'1'..=b'4'] if !name.is_empty() => Some((name, *digit)),
        _ => None,
    }
}

// The digit of the port that an interface is mapped to; the first item that names it counts.
fn port_of(map: &[u8], name: &[u8]) -> Option<u8> {
    for item in map.split(|c| *c == b',') {
        if let Some((interface, digit)) = item_of(item)
            && interface == name
        {
            return Some(digit);
        }
    }
    None
}

// Whether a text is a map: NAME=PORT, with commas between.
pub fn is_map(map: &[u8]) -> bool {
    map.split(|c| *c == b',')
        .all(|item| item_of(item).is_some())
}

// Whether this may stand behind a frame: a line feed, before it a direction and a carriage return if there are.
fn is_tail(rest: &[u8]) -> bool {
    matches!(
        rest,
        b"\n" | b"\r\n" | b" R\n" | b" T\n" | b" R\r\n" | b" T\r\n"
    )
}

// A hex digit in upper case; any other byte as it is.
fn upper(byte: u8) -> u8 {
    if byte.is_ascii_hexdigit() {
        byte.to_ascii_uppercase()
    } else {
        byte
    }
}

// An identifier with its data, as far as it is kept.
fn put_word(out: &mut [u8], at: usize, word: &[u8]) -> usize
    requires { at + 26 ≤ length out.old }
    ensures { result ≤ at + 26 }
{
    let end = at + word.len().min(WORD);
    for (place, byte) in out[at..end].iter_mut().zip(word) {
        *place = upper(*byte);
    }
    end
}

// The line: the time as it is, can1 to can4, identifier and data.
fn put_line(out: &mut [u8], head: &[u8], digit: u8, word: &[u8]) -> usize
    requires { (52 ≤ length out.old) × (length head.now ≡ 20) }
    ensures { result ≤ 52 }
{
    let next = text::copy(out, 0, head);
    let next = text::copy(out, next, b"can");
    let next = text::byte(out, next, digit);
    let next = text::byte(out, next, b' ');
    let next = put_word(out, next, word);
    text::byte(out, next, b'\n')
}

// A line, its line feed with it, written anew into a buffer of `ROOM` bytes: its length.
pub fn rewrite(map: &[u8], line: &[u8], out: &mut [u8]) -> Result<usize, Reason>
    ensures { IfOk result (λ n. n ≤ length out.old) }
{
    if out.len() < ROOM || line.len() < HEAD {
        return Err(Reason::NoLine);
    }
    let (head, rest) = line.split_at(HEAD);
    let (_, rest) = split_where(rest, |c| c != b' ');
    let (name, rest) = split_where(rest, |c| c == b' ');
    let (_, rest) = rest.split_first().ok_or(Reason::NoLine)?;
    let (word, tail) = split_where(rest, |c| matches!(c, b' ' | b'\r' | b'\n'));
    if !is_tail(tail) {
        return Err(Reason::NoLine);
    }
    let digit = port_of(map, name).ok_or(Reason::NotMapped)?;
    Ok(put_line(out, head, digit, word))
}

// Why a line that was written anew is no frame's.
pub fn why_no_frame(line: &[u8]) -> Reason {
    if line.len() < 30 {
        return Reason::NoLine;
    }
    match (line[28], line[29]) {
        (b'#', b'#') => return Reason::Flexible,
        (b'#', _) => return Reason::ElevenBits,
        _ => {}
    }
    if line.len() < 35 || line[33] != b'#' {
        return Reason::NoLine;
    }
    match (line[34], line[25]) {
        (b'#', _) => Reason::Flexible,
        (b'R', _) => Reason::Remote,
        (_, b'2' | b'3') => Reason::Error,
        _ => Reason::NoLine,
    }
}
