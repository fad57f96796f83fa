// The words of a line, which blanks part, and the numbers that words stand for.
ghost use Rattle.std.specs.Prelude.{◌≤◌, length};

// Blanks, tabs and carriage returns part words and are no part of them.
pub fn is_blank(byte: u8) -> bool {
    matches!(byte, b' ' | b'\t' | b'\r')
}

// A line without the blanks before its first word.
pub fn trim_start(line: &[u8]) -> &[u8]
    ensures { length result.now ≤ length line.now }
{
    match line.iter().position(|byte| !is_blank(*byte)) {
        Some(first) => &line[first..],
        None => &[],
    }
}

// A line without the blanks behind its last word.
pub fn trim_end(line: &[u8]) -> &[u8]
    ensures { length result.now ≤ length line.now }
{
    match line.iter().rposition(|byte| !is_blank(*byte)) {
        Some(last) => &line[..=last],
        None => &[],
    }
}

// Digits of a number below 2^64.
fn number(digits: &[u8], radix: u32) -> Option<u64>
    requires { (2 ≤ radix) × (radix ≤ 16) }
{
    if digits.is_empty() {
        return None;
    }
    let mut n = 0u64;
    for byte in digits {
        let digit = char::from(*byte).to_digit(radix)?;
        n = n
            .checked_mul(u64::from(radix))?
            .checked_add(u64::from(digit))?;
    }
    Some(n)
}

// Decimal digits of a number below 2^32.
pub fn decimal(word: &[u8]) -> Option<u32> {
    u32::try_from(number(word, 10)?).ok()
}

// Hex digits of a number below 2^64.
pub fn hex(word: &[u8]) -> Option<u64> {
    number(word, 16)
}

// Whether a line without blanks at its ends says nothing: it is empty or a comment.
pub fn is_passed_over(line: &[u8]) -> bool {
    line.is_empty() || line[0] == b'#'
}
