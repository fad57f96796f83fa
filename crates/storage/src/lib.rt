// Storage that a caller lends. The laws of its parts and blocks are in proofs/; the code here packs bytes into a word and reads them back.
#![tactic(auto)]

ghost use Rattle.std.specs.Prelude.{◌≡◌, ◌^◌, ◌<◌, length, take, get_or};
ghost use Rattle.storage.specs.Bytes.{packed, bytes_of};

// The word of three bytes at most.
fn pack_few(bytes: &[u8]) -> u64
    requires { length bytes.now < 4 }
    ensures number { result ≡ packed bytes.now }
    ensures small { result < 2 ^ 24 }
{
    match *bytes {
        [] => 0,
        [a] => a as u64,
        [a, b] => u16::from_le_bytes([a, b]) as u64,
        [a, b, c, ..] => u32::from_le_bytes([a, b, c, 0]) as u64,
    }
}

// The word that up to eight bytes make, least significant first; a ninth byte has no say. No loop, so that a short frame costs little.
pub fn pack(bytes: &[u8]) -> u64
    ensures { result ≡ packed (take 8 bytes.now) }
{
    if let Some(eight) = bytes.first_chunk() {
        return u64::from_le_bytes(*eight);
    }
    match bytes.split_first_chunk() {
        Some((four, rest)) => u32::from_le_bytes(*four) as u64 + (pack_few(rest) << 32),
        None => pack_few(bytes),
    }
}

// Byte i of a word, the least significant being byte 0; 0 where a word has no such byte.
pub fn byte_at(word: u64, i: usize) -> u8
    ensures { result ≡ get_or (bytes_of 8 word) i 0 }
{
    if 8 <= i {
        return 0;
    }
    ((word >> (8 * i)) % 256) as u8
}
