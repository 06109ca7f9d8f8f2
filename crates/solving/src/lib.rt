// Solving: what a solver of formulas holds, answers and promises, as a trait that any solver can keep; closure, led formulas,
// and two solvers by definition, backtracking and counting, with the laws that they obey.
#![tactic(auto)]

pub mod fault;
pub mod laws;
pub mod solver;
pub mod state;
pub mod verdict;

pub use fault::{AppendFault, StartFault, ValueFault};
pub use solver::Solver;
pub use state::State;
pub use verdict::{Solved, Verdict};
