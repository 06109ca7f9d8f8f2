// The workbench: both solvers, opened once, and the method that says which of them a search is made by.
// The programs that let their user choose the solver begin with it.
#![tactic(auto)]

ghost use Rattle.std.specs.Prelude.{◌≡◌, IfOk};
ghost use Rattle.solving.specs.Models.{fresh};

use solvers::{Backtracking, Counting};
use solving::Solver;
use std::alloc::{AllocError, Global};

// The solver that a search is made by.
#[derive(Clone, Copy)]
pub enum Method {
    Backtracking,
    Counting,
}

// Both solvers.
#[derive(Drop)]
pub struct Workbench {
    pub backtracking: Backtracking,
    pub counting: Counting,
}

impl Workbench {
    // Both solvers fresh, with all the memory that they will ever need.
    pub fn new(heap: Global) -> Result<Workbench, AllocError>
        ensures backtracking_begins_fresh { IfOk result (λ b. ⟦<Backtracking as Solver>⟧.model b.backtracking ≡ fresh) }
        ensures counting_begins_fresh { IfOk result (λ b. ⟦<Counting as Solver>⟧.model b.counting ≡ fresh) }
    {
        let backtracking = Backtracking::new(heap)?;
        let counting = Counting::new(heap)?;
        Ok(Workbench {
            backtracking,
            counting,
        })
    }
}
