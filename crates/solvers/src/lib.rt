// Two solvers that keep the interface of `solving`, step for step as they are defined there: backtracking and counting.
// Both close by unit propagation; all memory is reserved when a solver is opened.
#![tactic(auto)]

mod append;
mod backtrack;
mod backtracking;
mod count;
mod counting;
mod decision;
mod keep;
mod leading;
mod store;
mod turn;

pub use backtracking::Backtracking;
pub use counting::Counting;
