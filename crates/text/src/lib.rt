// Text in a buffer that the caller lends: each function puts something at a place and answers the next place.
#![tactic(auto)]

ghost use Rattle.std.specs.Prelude.{◌≡◌, [], ◌∷◌, ◌+◌, ◌*◌, ◌%◌, ◌≤◌, ◌<◌, length, take, drop, get_or};
ghost use Rattle.storage.specs.Bytes.{bytes_of};
ghost use Rattle.text.specs.Digits.{hex_digit, Reading, hex_of, pair_at, four_bytes, decimal_of};
ghost use Rattle.text.specs.Writing.{Writing};

// One character.
pub fn byte(out: &mut [u8], at: usize, value: u8) -> usize
    requires { at < length out.old }
    ensures { Writing out.old out.new at (value ∷ []) result }
{
    out[at] = value;
    at + 1
}

// A word.
pub fn copy(out: &mut [u8], at: usize, characters: &[u8]) -> usize
    requires { at + length characters.now ≤ length out.old }
    ensures { Writing out.old out.new at characters.now result }
{
    let next = at + characters.len();
    out[at..next].copy_from_slice(characters);
    next
}

// The hex digit of the lowest four bits.
#[tactic(auto, using(std::proofs::lemmas::Bool::Decides::nat_tests), unfolding(crate::specs::Digits::hex_digit))]
pub fn digit(value: u8) -> u8
    ensures { result ≡ hex_digit (value % 16) }
{
    match value % 16 {
        d @ 0..=9 => b'0' + d,
        d => b'A' - 10 + d,
    }
}

// What an upper-case hex digit stands for.
#[tactic(auto, using(std::proofs::lemmas::Bool::Decides::nat_tests), unfolding(crate::specs::Digits::hex_value))]
pub fn value(character: u8) -> Option<u8>
    ensures { Reading character result }
{
    match character {
        b'0'..=b'9' => Some(character - b'0'),
        b'A'..=b'F' => Some(character - b'A' + 10),
        _ => None,
    }
}

// The byte that two digits from a place on stand for; a character that is none counts as 0.
pub fn pair_value(characters: &[u8], at: usize) -> u8
    requires { at + 2 ≤ length characters.now }
    ensures { result ≡ pair_at characters.now at }
{
    let high = value(characters[at]).unwrap_or(0);
    let low = value(characters[at + 1]).unwrap_or(0);
    16 * high + low
}

// The two hex digits of a byte.
pub fn pair(out: &mut [u8], at: usize, value: u8) -> usize
    requires { at + 2 ≤ length out.old }
    ensures { Writing out.old out.new at (hex_of (value ∷ [])) result }
{
    let next = byte(out, at, digit(value / 16));
    byte(out, next, digit(value))
}

// The hex digits of bytes.
fn hex(out: &mut [u8], at: usize, bytes: &[u8]) -> usize
    requires { at + 2 * length bytes.now ≤ length out.old }
    ensures { Writing out.old out.new at (hex_of bytes.now) result }
{
    let mut next = at;
    for value in bytes {
        next = pair(out, next, *value);
    }
    next
}

// The eight hex digits of a number of 32 bits.
pub fn eight_digits(out: &mut [u8], at: usize, n: u32) -> usize
    requires { at + 8 ≤ length out.old }
    ensures { Writing out.old out.new at (hex_of (four_bytes n)) result }
{
    hex(out, at, &n.to_be_bytes())
}

// The hex digits of the first bytes of a word, the least significant first.
pub fn word(out: &mut [u8], at: usize, word: u64, len: usize) -> usize
    requires { (at + 2 * len ≤ length out.old) × (len ≤ 8) }
    ensures { Writing out.old out.new at (hex_of (take len (bytes_of 8 word))) result }
{
    hex(out, at, &word.to_le_bytes()[..len])
}

// A number in decimal.
pub fn decimal(out: &mut [u8], at: usize, n: u32) -> usize
    requires { at + 10 ≤ length out.old }
    ensures { Writing out.old out.new at (decimal_of n) result }
{
    if n < 10 {
        return byte(out, at, b'0' + n as u8);
    }
    let next = decimal(out, at, n / 10);
    byte(out, next, b'0' + (n % 10) as u8)
}
