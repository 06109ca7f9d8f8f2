// Solvers whose way of answering is told: beside what every solver promises, what a solver of its kind may answer, and what it holds then.
#![tactic(auto)]

ghost use Rattle.std.specs.Prelude.{ℕ};
ghost use Rattle.solving.specs.Models.{Model};
ghost use Rattle.solving.specs.Answers.{Answers};
ghost use Rattle.solving.specs.declared.verdict.Solved.{Solved as SolvedAs};

mod plain;

pub use plain::Plain;
use solving::{Solved, Solver};

pub trait Answering: Solver {
    // The way of this kind of solver: the answers that it may give from what it holds and a budget, and what it holds then.
    ghost answering: { Model → ℕ → SolvedAs → Model → Type 0 };

    // Looks for a reading as `solve` does.
    fn answer(&mut self, budget: u64) -> Solved
        ensures answers { Answers (Self.model self.old) budget result (Self.model self.new) }
        ensures in_its_own_way { answering (Self.model self.old) budget result (Self.model self.new) };
}
