// Reading and writing cards: bytes into a card, rule by rule, and a card into its canonical bytes, which read back to it.
#![tactic(auto)]

pub mod command;
mod decode;
mod draft;
pub mod fault;
mod judge;
pub mod read;
pub mod write;
