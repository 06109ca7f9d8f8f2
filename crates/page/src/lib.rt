// Text in a buffer that the caller lends: bytes and decimal numbers, one behind the other.
#![tactic(auto)]

pub mod buffer;
pub mod number;
pub mod put;
