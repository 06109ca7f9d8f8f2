// The interface of a solver: what it holds as a model, and what each of its four calls answers and leaves.
// Code over any solver relies on these promises alone.
ghost use Rattle.std.specs.Prelude.{◌≡◌, is_ok, if◌then◌else◌};
ghost use Rattle.solving.specs.Models.{Model, begun, longer, startable, appendable};
ghost use Rattle.solving.specs.Refusals.{started, appended, valued};
ghost use Rattle.solving.specs.Answers.{Answers};

use crate::fault::{AppendFault, StartFault, ValueFault};
use crate::verdict::Solved;

pub trait Solver {
    ghost model: { Self → Model };

    // Begins a formula of so many variables, the first of which lead: no clause, no reading.
    fn start(&mut self, variables: u16, leading: u16) -> Result<(), StartFault>
        ensures answer { result ≡ started variables leading }
        ensures granted { is_ok result ≡ startable variables leading }
        ensures state { model self.new ≡ (if startable variables leading then begun variables leading else model self.old) };

    // Puts a clause last, and drops the reading. An empty clause is false.
    fn append(&mut self, clause: &[i16]) -> Result<(), AppendFault>
        ensures answer { result ≡ appended (model self.old) clause.now }
        ensures granted { is_ok result ≡ appendable (model self.old) clause.now }
        ensures state { model self.new ≡ (if appendable (model self.old) clause.now then longer (model self.old) clause.now else model self.old) };

    // Looks for a reading that satisfies every clause, in no more steps than the budget.
    fn solve(&mut self, budget: u64) -> Solved
        ensures answers { Answers (model self.old) budget result (model self.new) };

    // The bit of a variable in the reading.
    fn value(&self, variable: u16) -> Result<bool, ValueFault>
        ensures answer { result ≡ valued (model self.now) variable };
}
