// Test vectors: a cell 0, 1 or X for each input of a card, held by two numbers of 32 bits.
// A vector is made from its numbers or from a row of characters, and entered into the nets of a walk.
#![tactic(auto)]

pub mod cell;
pub mod entry;
pub mod fault;
pub mod freeing;
pub mod merge_fault;
pub mod merging;
pub mod numbers;
pub mod row;
pub mod vector;
