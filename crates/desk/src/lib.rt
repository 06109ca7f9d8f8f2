// The operator's desk: a job together with the tickets that it gave and that are not closed yet.
// The type of a desk carries that each taken fault has exactly one ticket there; so every ticket can be closed at the end.
#![tactic(auto)]

mod calls;
mod closing;
pub mod desk;

pub use desk::Desk;
