// Counting as a solver: it answers, step for step, what its definition says, and so keeps the promises of every solver.
ghost use Rattle.std.specs.Prelude.{◌≡◌, ◌≤◌, length, IfOk, vec_len};
ghost use Rattle.solving.specs.Models.{fresh};
ghost use Rattle.solving.specs.Answers.{Answers};
ghost use Rattle.ways.specs.Ways.{ByCounting};
ghost use Rattle.solving.specs.Trials.{told, after};
ghost use Rattle.solving.specs.Counting.{counted};
ghost use Rattle.solvers.specs.Stores.{model_of};

use crate::count::count;
use crate::store::Store;
use propagation::{Assignment, Index};
use solving::{AppendFault, Solved, Solver, StartFault, ValueFault, Verdict};
use std::alloc::{AllocError, Global};
use ways::Answering;

// Setting and trail over what is lent. No method of the solver: it lends slices of its vectors, since nothing is known of a vector's
// length after a stack over it.
fn run(
    store: &mut Store,
    index: &mut Index,
    setting: &mut [Option<bool>],
    places: &mut [i16],
    budget: u64,
) -> Solved
    requires room_for_variables { 560 ≤ length setting.old }
    requires room_for_literals { 560 ≤ length places.old }
    ensures answers_as_defined { result ≡ told (counted (model_of store.old) budget) }
    ensures leaves_as_defined { model_of store.new ≡ after (model_of store.old) (counted (model_of store.old) budget) }
{
    store.forget();
    let leading = store.leading();
    let clauses = index.fill(store.row());
    let mut assignment = Assignment::new(&mut setting[..store.variables], places);
    let solved = count(clauses, &mut assignment, leading, budget);
    if let Verdict::Found = solved.verdict {
        store.keep(assignment.values());
    }
    solved
}

// Its memory is that of backtracking but for the decisions. A type of both parts would only be reached through: `run` is lent each by
// itself.
#[derive(Drop)]
pub struct Counting {
    store: Store,
    index: Index,
    setting: Vec<Option<bool>>,
    trail: Vec<i16>,
    ghost room_for_variables: { 560 ≤ vec_len setting },
    ghost room_for_literals: { 560 ≤ vec_len trail },
}

impl Counting {
    // A fresh solver, with all the memory that it will ever need.
    pub fn new(heap: Global) -> Result<Counting, AllocError>
        ensures begins_fresh { IfOk result (λ s. model_of s.store ≡ fresh) }
    {
        let store = Store::new(heap)?;
        let index = Index::new(heap)?;
        let setting = vec![in heap; None; 560]?;
        let trail = vec![in heap; 0i16; 560]?;
        Ok(Counting {
            store,
            index,
            setting,
            trail,
        })
    }
}

impl Solver for Counting {
    ghost model = { λ s. model_of s.store };

    fn start(&mut self, variables: u16, leading: u16) -> Result<(), StartFault> {
        self.store.start(variables, leading)
    }

    fn append(&mut self, clause: &[i16]) -> Result<(), AppendFault> {
        self.store.append(clause)
    }

    fn solve(&mut self, budget: u64) -> Solved
        ensures answers { Answers (model_of self.old.store) budget result (model_of self.new.store) }
        ensures answers_as_defined { result ≡ told (counted (model_of self.old.store) budget) }
        ensures leaves_as_defined { model_of self.new.store ≡ after (model_of self.old.store) (counted (model_of self.old.store) budget) }
    {
        run(
            &mut self.store,
            &mut self.index,
            &mut self.setting,
            &mut self.trail,
            budget,
        )
    }

    fn value(&self, variable: u16) -> Result<bool, ValueFault> {
        self.store.value(variable)
    }
}

impl Answering for Counting {
    ghost answering = { ByCounting };

    fn answer(&mut self, budget: u64) -> Solved {
        self.solve(budget)
    }
}
