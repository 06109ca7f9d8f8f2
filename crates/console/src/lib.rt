// What the programs that answer lines about a card are given: the card that bytes spell, or those in the file that the
// first argument names, and the numbers that stand in a line.
#![tactic(auto)]

mod card_file;
mod numbers;

pub use card_file::{card_named, card_of};
pub use numbers::number;
