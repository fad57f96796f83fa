// The lines that a run prints, each at the start of a lent buffer; the answer is the line's length.
#![tactic(auto)]

ghost use Rattle.std.specs.Prelude.{◌≡◌, ◌∷◌, [], ◌++◌, ◌+◌, ◌≤◌, length};
ghost use Rattle.text.specs.Digits.{hex_of, four_bytes, decimal_of};
ghost use Rattle.text.specs.Writing.{Writing};
ghost use Rattle.bench_lines.specs.Lines.{line_room, refused_text, digit_if, ports_text, passed_text, data_text, id_text, given_text, taken_text, Within};

use queue::Frame;

// R and the number.
pub fn put_refused(out: &mut [u8], number: u32) -> usize
    requires { line_room ≤ length out.old }
    ensures { Writing out.old out.new 0 (refused_text number) result }
{
    let next = text::copy(out, 0, b"R ");
    let next = text::decimal(out, next, number);
    text::byte(out, next, b'\n')
}

// A port's digit where its bit is 1.
fn digit_if(out: &mut [u8], at: usize, bit: u32, digit: u8) -> usize
    requires { at + 1 ≤ length out.old }
    ensures { Within out.old out.new at (digit_if bit digit) result 1 }
{
    if bit == 1 {
        return text::byte(out, at, digit);
    }
    at
}

// The ports of a mask in rising order, - for none.
fn put_ports(out: &mut [u8], at: usize, mask: u32) -> usize
    requires { at + 4 ≤ length out.old }
    ensures { Within out.old out.new at (ports_text mask) result 4 }
{
    let next = digit_if(out, at, mask % 2, b'1');
    let next = digit_if(out, next, mask / 2 % 2, b'2');
    let next = digit_if(out, next, mask / 4 % 2, b'3');
    let next = digit_if(out, next, mask / 8 % 2, b'4');
    if next == at {
        return text::byte(out, at, b'-');
    }
    next
}

// F, accepted ports, lost ports.
pub fn put_passed(out: &mut [u8], accepted: u32, lost: u32) -> usize
    requires { line_room ≤ length out.old }
    ensures { Writing out.old out.new 0 (passed_text accepted lost) result }
{
    let next = text::copy(out, 0, b"F ");
    let next = put_ports(out, next, accepted);
    let next = text::byte(out, next, b' ');
    let next = put_ports(out, next, lost);
    text::byte(out, next, b'\n')
}

// A blank and the bytes, if there are any.
fn put_data(out: &mut [u8], at: usize, len: u32, bytes: u64) -> usize
    requires { at + 17 ≤ length out.old }
    ensures { Within out.old out.new at (data_text len bytes) result 17 }
{
    if len == 0 {
        return at;
    }
    let next = text::byte(out, at, b' ');
    if 8 < len {
        return text::word(out, next, bytes, 8);
    }
    text::word(out, next, bytes, len as usize)
}

// T, the identifier, a blank.
fn put_id(out: &mut [u8], id: u32) -> usize
    requires { line_room ≤ length out.old }
    ensures { Writing out.old out.new 0 (id_text id) result }
{
    let next = text::copy(out, 0, b"T ");
    let next = text::eight_digits(out, next, id);
    text::byte(out, next, b' ')
}

// A frame that was given: its identifier, its length, its bytes.
fn put_given(out: &mut [u8], id: u32, len: u32, bytes: u64) -> usize
    requires { line_room ≤ length out.old }
    ensures { Writing out.old out.new 0 (given_text id len bytes) result }
{
    let next = put_id(out, id);
    let next = text::decimal(out, next, len);
    let next = put_data(out, next, len, bytes);
    text::byte(out, next, b'\n')
}

// What a take gave.
pub fn put_taken(out: &mut [u8], taken: Option<Frame>) -> usize
    requires { line_room ≤ length out.old }
    ensures { Writing out.old out.new 0 (taken_text taken) result }
{
    match taken {
        Some(f) => put_given(out, f.id, f.len, f.bytes),
        None => text::copy(out, 0, b"T -\n"),
    }
}
