// The frames of the transport protocol, each as the word of its eight bytes, least significant first: what a frame says,
// the frames that are sent, and a message cut into packets.
#![tactic(auto)]

ghost use Rattle.std.specs.Prelude.{◌≡◌};
ghost use Rattle.storage.specs.Bytes.{bytes_of};
ghost use Rattle.packets.specs.Words.{Cutting};
ghost use Rattle.packets.specs.Frames.{kind_of, request_bytes, clear_bytes, end_bytes, abort_bytes};

// What a frame of PGN 60416 says about a message of PGN 60672; `Other` for every other frame of it.
#[derive(Clone, Copy, Debug, PartialEq, Eq)]
pub enum Kind {
    RequestToSend { size: u16, packets: u8, limit: u8 },
    ClearToSend { count: u8, first: u8 },
    End,
    Abort,
    Other,
}

// Bytes 6 to 8, the PGN of network messages.
const ABOUT: u64 = 0x00ED00;

// What the eight bytes of a frame of PGN 60416 say.
pub fn kind_of(word: u64) -> Kind
    ensures { result ≡ kind_of (bytes_of 8 word) }
{
    let about = word >> 40;
    if about != ABOUT {
        return Kind::Other;
    }
    match word.to_le_bytes() {
        [0x10, low, high, packets, limit, ..] => Kind::RequestToSend {
            size: u16::from_le_bytes([low, high]),
            packets,
            limit,
        },
        [0x11, count, first, ..] => Kind::ClearToSend { count, first },
        [0x13, ..] => Kind::End,
        [0xFF, ..] => Kind::Abort,
        _ => Kind::Other,
    }
}

// Request to send a message of so many bytes in so many packets, 16 at a time at most.
pub fn request_to_send(size: u16, packets: u8) -> u64
    ensures { bytes_of 8 result ≡ request_bytes size packets }
{
    let [low, high] = size.to_le_bytes();
    u64::from_le_bytes([0x10, low, high, packets, 0x10, 0x00, 0xED, 0x00])
}

// Clear to send, for so many packets from the one numbered `first` on.
pub fn clear_to_send(count: u8, first: u8) -> u64
    ensures { bytes_of 8 result ≡ clear_bytes count first }
{
    u64::from_le_bytes([0x11, count, first, 0xFF, 0xFF, 0x00, 0xED, 0x00])
}

// The end: a message of so many bytes came whole, in so many packets.
pub fn end(size: u16, packets: u8) -> u64
    ensures { bytes_of 8 result ≡ end_bytes size packets }
{
    let [low, high] = size.to_le_bytes();
    u64::from_le_bytes([0x13, low, high, packets, 0xFF, 0x00, 0xED, 0x00])
}

// Abort, for a time that ran out.
pub fn abort() -> u64
    ensures { bytes_of 8 result ≡ abort_bytes }
{
    u64::from_le_bytes([0xFF, 0x03, 0xFF, 0xFF, 0xFF, 0x00, 0xED, 0x00])
}

// The packet numbered k: seven bytes of what is left of a message, or those that are left and FF behind them.
pub fn packet(left: &[u8], k: u8) -> u64
    ensures { Cutting left.now k result }
{
    let part = &left[..left.len().min(7)];
    let mut bytes = [0xFF; 8];
    bytes[0] = k;
    bytes[1..1 + part.len()].copy_from_slice(part);
    u64::from_le_bytes(bytes)
}
