// The records of our log, and the two turnings between a line of candump's text and a frame's record.
#![tactic(auto)]

ghost use Rattle.std.specs.Prelude.{◌≡◌, ◌+◌, ◌≤◌, ◌<◌, length, get_or};
ghost use Rattle.text.specs.Writing.{Writing};
ghost use Rattle.bench_records.specs.Records.{id_of, word_of, record_of, arrival_of};
ghost use Rattle.bench_records.specs.Turning.{Fronting, frame_refusal, ToRecord, ToText};

use candump::Arrival;
pub use candump::Refusal;

// The bytes of a frame's record, and of a take's.
pub const FRAME_SIZE: usize = 15;

pub const TAKE_SIZE: usize = 2;

// The identifier of a frame's record, most significant byte first.
pub fn id_of(log: &[u8]) -> u32
    requires { 6 ≤ length log.now }
    ensures { result ≡ id_of log.now }
{
    u32::from_be_bytes([log[2], log[3], log[4], log[5]])
}

// The word of a frame's bytes. Those past its length are not read.
fn word_of(log: &[u8]) -> u64
    requires { 15 ≤ length log.now }
    ensures { result ≡ word_of log.now }
{
    let len = usize::from(log[6]).min(8);
    storage::pack(&log[7..7 + len])
}

// The frame of a record, which is whole.
#[tactic(auto, unfolding(crate::specs::Records::arrival_of))]
fn arrival_of(log: &[u8]) -> Arrival
    requires { 15 ≤ length log.now }
    ensures { result ≡ arrival_of log.now }
{
    Arrival {
        port: u32::from(log[1]),
        id: id_of(log),
        len: u32::from(log[6]),
        bytes: word_of(log),
    }
}

// A frame's record.
fn put_record(out: &mut [u8], a: Arrival) -> usize
    requires { (15 ≤ length out.old) × (a.port < 256) × (a.len < 256) }
    ensures { Writing out.old out.new 0 (record_of a) result }
{
    let next = text::byte(out, 0, 1);
    let next = text::byte(out, next, a.port as u8);
    let next = text::copy(out, next, &a.id.to_be_bytes());
    let next = text::byte(out, next, a.len as u8);
    text::copy(out, next, &a.bytes.to_le_bytes())
}

// A line of text, its line feed with it, as a record. Of a refusal nothing is written.
#[tactic(auto, using(crate::proofs::Records::record_refused))]
pub fn to_record(line: &[u8], out: &mut [u8]) -> Result<(), Refusal>
    ensures { ToRecord line.now out.old out.new result }
{
    if out.len() < FRAME_SIZE {
        return Err(Refusal::NoRoom);
    }
    let a = candump::read_line(line)?;
    put_record(out, a);
    Ok(())
}

// The size of the record at the front of a log. An empty log has none, which is an unknown kind too.
pub fn front(log: &[u8]) -> Result<usize, Refusal>
    ensures { Fronting log.now result }
{
    if log.is_empty() {
        return Err(Refusal::UnknownKind);
    }
    let size = match log[0] {
        1 => FRAME_SIZE,
        2 => TAKE_SIZE,
        _ => return Err(Refusal::UnknownKind),
    };
    if log.len() < size {
        return Err(Refusal::CutShort);
    }
    Ok(size)
}

// Whether a log is a frame's record, which is whole.
fn check_record(log: &[u8]) -> Result<(), Refusal>
    ensures { result ≡ frame_refusal log.now }
{
    match log {
        [] => Err(Refusal::CutShort),
        [1, ..] if log.len() < FRAME_SIZE => Err(Refusal::CutShort),
        [1, ..] => Ok(()),
        _ => Err(Refusal::UnknownKind),
    }
}

// A frame's record as a line of text: the line's length. Refused where it is no frame's, or is cut short, then as `write_line` does; of a refusal nothing is written.
#[tactic(auto, using(crate::proofs::Records::text_refused))]
pub fn to_text(log: &[u8], line: &mut [u8]) -> Result<usize, Refusal>
    ensures { ToText log.now line.old line.new result }
{
    check_record(log)?;
    candump::write_line(line, arrival_of(log))
}
