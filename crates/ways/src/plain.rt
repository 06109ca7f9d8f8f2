// Any solver, used where a way of answering is told. Of its way no more is known than what every solver promises, so the way told is the
// relation that always holds.
ghost use Rattle.std.specs.Prelude.{◌≡◌};
ghost use Rattle.ways.specs.Ways.{AnyWay};

use crate::Answering;
use solving::{AppendFault, Solved, Solver, StartFault, ValueFault};

// A solver that keeps the interface's promises and tells nothing beyond them. Every call is the solver's own.
#[derive(Drop)]
pub struct Plain<S> {
    solver: S,
}

impl<S: Solver> Plain<S> {
    pub fn new(solver: S) -> Plain<S>
        ensures holds_the_solver { result.solver ≡ solver }
    {
        Self { solver }
    }

    // The solver, to look at.
    pub fn solver(&self) -> &S
        ensures is_the_solver_held { result.now ≡ self.now.solver }
    {
        &self.solver
    }

    // The solver, given back.
    pub fn into_inner(self) -> S
        ensures is_the_solver_held { result ≡ self.solver }
    {
        let Plain { solver } = self;
        solver
    }
}

impl<S: Solver> Solver for Plain<S> {
    ghost model = { λ p. S.model p.solver };

    fn start(&mut self, variables: u16, leading: u16) -> Result<(), StartFault> {
        self.solver.start(variables, leading)
    }

    fn append(&mut self, clause: &[i16]) -> Result<(), AppendFault> {
        self.solver.append(clause)
    }

    fn solve(&mut self, budget: u64) -> Solved {
        self.solver.solve(budget)
    }

    fn value(&self, variable: u16) -> Result<bool, ValueFault> {
        self.solver.value(variable)
    }
}

impl<S: Solver> Answering for Plain<S> {
    ghost answering = { AnyWay };

    fn answer(&mut self, budget: u64) -> Solved {
        self.solve(budget)
    }
}
