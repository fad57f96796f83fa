// What programs that read and write lines share: lines read, the words of a line, a line that is made, and the arguments.
#![tactic(auto)]

pub mod arguments;
mod made;
mod read;
pub mod words;

pub use made::{Hex, Line, Ports};
pub use read::{Failure, LONGEST, read_lines};
