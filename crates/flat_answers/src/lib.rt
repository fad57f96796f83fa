// Answers flat: as words and bytes that the caller lends, for an interface that passes no structs and no enums.
#![tactic(auto)]

ghost use Rattle.std.specs.Prelude.{◌≡◌, length};
ghost use Rattle.storage.specs.Bytes.{bytes_of};
ghost use Rattle.bridge.specs.Told.{frame_done_told};
ghost use Rattle.flat_answers.specs.Answers.{frame_length, take_length, bytes_length, unit_length, counts_length, frame_words, counts_words, bytes_of_frame, unit_words, Telling};

use bridge::FrameAnswer;
use queue::{Frame, Tally};
use unit::Unit;

// The bytes that a take writes.
pub const FRAME_BYTES: usize = 8;

// The answer to a frame.
pub fn tell_frame(answer: &mut [u64], a: FrameAnswer)
    requires { length answer.old ≡ frame_length }
    ensures { answer.new ≡ frame_words (frame_done_told a) }
{
    answer.copy_from_slice(&[
        a.consumed as u64,
        a.accepted as u64,
        a.lost as u64,
        a.event.number() as u64,
        a.event.old_name(),
        a.unsent as u64,
        a.compared as u64,
        a.reasons,
    ]);
}

// Writes the eight bytes of a word, least significant first.
fn write_word(bytes: &mut [u8], word: u64)
    requires { length bytes.old ≡ bytes_length }
    ensures { bytes.new ≡ bytes_of bytes_length word }
{
    for i in 0..FRAME_BYTES {
        bytes[i] = storage::byte_at(word, i);
    }
}

// Writes a frame's bytes, with 0 past its length: its word as it is, where no byte stands there.
fn write_bytes(bytes: &mut [u8], f: Frame)
    requires { length bytes.old ≡ bytes_length }
    ensures { bytes.new ≡ bytes_of_frame f }
{
    if 8 <= f.len {
        write_word(bytes, f.bytes);
        return;
    }
    let limit: u64 = 1 << (8 * f.len);
    if f.bytes < limit {
        write_word(bytes, f.bytes);
        return;
    }
    write_word(bytes, f.bytes % limit);
}

// The answer to a take that is done.
pub fn tell_taken(answer: &mut [u64], bytes: &mut [u8], taken: Option<Frame>)
    requires { (length answer.old ≡ take_length) × (length bytes.old ≡ bytes_length) }
    ensures { Telling answer.new bytes.old bytes.new taken }
{
    match taken {
        None => answer.fill(0),
        Some(f) => {
            answer.copy_from_slice(&[1, f.id as u64, f.len as u64]);
            write_bytes(bytes, f);
        }
    }
}

// The unit, read.
pub fn tell_unit(answer: &mut [u64], unit: Unit)
    requires { length answer.old ≡ unit_length }
    ensures { answer.new ≡ unit_words unit }
{
    answer.copy_from_slice(&[
        unit.claim.word(),
        unit.address as u64,
        unit.preferred as u64,
        unit.name,
        unit.ports as u64,
    ]);
}

// What is counted at a port.
pub fn tell_counts(answer: &mut [u64], tally: Tally)
    requires { length answer.old ≡ counts_length }
    ensures { answer.new ≡ counts_words tally }
{
    let [a, b, c, d, e, f, g, h] = tally.waiting;
    answer.copy_from_slice(&[a, b, c, d, e, f, g, h, tally.accepted, tally.taken]);
}
