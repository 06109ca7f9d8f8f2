// Asking a solver about a fault: the solver is given the fault's formula, and its answer is read as a vector that shows the fault,
// as the verdict that no setting does, or as neither. It serves any solver that keeps its interface's promises.
#![tactic(auto)]

pub mod ask;
pub mod outcome;
mod setting;
