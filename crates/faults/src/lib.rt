// Faults of a card: which lines can stick, in order, with the readers of its nets that branches are counted by.
// A card with its branches is opened once; faults then go by number.
#![tactic(auto)]

pub mod catching;
pub mod model;
pub mod number;
pub mod open;
pub mod reader;
mod readers;
pub mod refusal;
pub mod response;
pub mod thinning;
mod trial;
