// Signals and the walk: one interface for every kind of value that a net can carry, the plain bit and the three values 0, 1, X,
// and the one walk that gives each net of a card its value, with or without a line that sticks.
#![tactic(auto)]

pub mod bit;
pub mod kind;
pub mod line;
pub mod ternary;
mod value;
pub mod walk;
