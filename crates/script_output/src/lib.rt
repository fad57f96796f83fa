// What a run of a script prints: what came of the calls counted, the summary, and the numbers in words.
#![tactic(auto)]

pub mod reasons;
mod summary;
mod tally;
pub mod words;

pub use tally::{Frame, Tally};
