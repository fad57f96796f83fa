// The lines of the programs that run the functions which C calls: what is called and the number given back, the words of its answer, the bytes that it wrote.
// A line that can't be written is left out.
#![tactic(auto)]

pub fn text(out: &impl Print, word: &[u8]) {
    let _ = out.write_all(word);
}

// A line's beginning: what is called, and the number given back.
pub fn head(out: &impl Print, word: &[u8], number: u32) {
    text(out, word);
    let _ = print!(out; ": {number}");
}

// The words of an answer.
pub fn words(out: &impl Print, answer: &[u64]) {
    for word in answer {
        let _ = print!(out; " {word}");
    }
}

// Bytes in hex.
pub fn bytes(out: &impl Print, written: &[u8]) {
    text(out, b" |");
    for byte in written {
        let _ = print!(out; " {byte:02x}");
    }
}
