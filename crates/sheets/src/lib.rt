// The sheet: card bytes in, the printed sheet of test vectors out, in a buffer that the caller lends.
// The verdicts on it are those of a job that worked on every fault in turn, and they are proved to be true of the card.
#![tactic(auto)]

pub mod fault;
pub mod print;
pub mod progress;
pub mod sheet;
mod work;
