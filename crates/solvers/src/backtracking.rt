// Backtracking as a solver: it answers, step for step, what its definition says, and so keeps the promises of every solver.
ghost use Rattle.std.specs.Prelude.{◌≡◌, ◌≤◌, length, IfOk, vec_len};
ghost use Rattle.solving.specs.Models.{fresh};
ghost use Rattle.solving.specs.Answers.{Answers};
ghost use Rattle.ways.specs.Ways.{ByBacktracking};
ghost use Rattle.solving.specs.Trials.{told, after};
ghost use Rattle.solving.specs.Backtracking.{backtracked};
ghost use Rattle.solvers.specs.Stores.{model_of};

use crate::backtrack::backtrack;
use crate::decision::Decision;
use crate::store::Store;
use propagation::{Assignment, Index, Stack};
use solving::{AppendFault, Solved, Solver, StartFault, ValueFault, Verdict};
use std::alloc::{AllocError, Global};
use ways::Answering;

mod clauses;

// Setting, trail and decisions over what is lent, from every variable open. No method of the solver: it lends slices of its vectors,
// since nothing is known of a vector's length after a stack over it.
fn run(
    store: &mut Store,
    index: &mut Index,
    setting: &mut [Option<bool>],
    places: &mut [i16],
    records: &mut [Decision],
    budget: u64,
) -> Solved
    requires room_for_variables { 560 ≤ length setting.old }
    requires room_for_literals { 560 ≤ length places.old }
    requires room_for_decisions { 560 ≤ length records.old }
    ensures answers_as_defined { result ≡ told (backtracked (model_of store.old) budget) }
    ensures leaves_as_defined { model_of store.new ≡ after (model_of store.old) (backtracked (model_of store.old) budget) }
{
    store.forget();
    let clauses = index.fill(store.row());
    let mut assignment = Assignment::new(&mut setting[..store.variables], places);
    assignment.clear();
    let mut decisions = Stack::new(records);
    let solved = backtrack(clauses, &mut assignment, &mut decisions, budget);
    if let Verdict::Found = solved.verdict {
        store.keep(assignment.values());
    }
    solved
}

#[derive(Drop)]
pub struct Backtracking {
    store: Store,
    index: Index,
    setting: Vec<Option<bool>>,
    trail: Vec<i16>,
    decisions: Vec<Decision>,
    ghost room_for_variables: { 560 ≤ vec_len setting },
    ghost room_for_literals: { 560 ≤ vec_len trail },
    ghost room_for_decisions: { 560 ≤ vec_len decisions },
}

impl Backtracking {
    // A fresh solver, with all the memory that it will ever need.
    pub fn new(heap: Global) -> Result<Backtracking, AllocError>
        ensures begins_fresh { IfOk result (λ s. model_of s.store ≡ fresh) }
    {
        let store = Store::new(heap)?;
        let index = Index::new(heap)?;
        let setting = vec![in heap; None; 560]?;
        let trail = vec![in heap; 0i16; 560]?;
        let decisions = vec![in heap; Decision { at: 0, var: 0 }; 560]?;
        Ok(Backtracking {
            store,
            index,
            setting,
            trail,
            decisions,
        })
    }
}

impl Solver for Backtracking {
    ghost model = { λ s. model_of s.store };

    fn start(&mut self, variables: u16, leading: u16) -> Result<(), StartFault> {
        self.store.start(variables, leading)
    }

    fn append(&mut self, clause: &[i16]) -> Result<(), AppendFault> {
        self.store.append(clause)
    }

    fn solve(&mut self, budget: u64) -> Solved
        ensures answers { Answers (model_of self.old.store) budget result (model_of self.new.store) }
        ensures answers_as_defined { result ≡ told (backtracked (model_of self.old.store) budget) }
        ensures leaves_as_defined { model_of self.new.store ≡ after (model_of self.old.store) (backtracked (model_of self.old.store) budget) }
    {
        run(
            &mut self.store,
            &mut self.index,
            &mut self.setting,
            &mut self.trail,
            &mut self.decisions,
            budget,
        )
    }

    fn value(&self, variable: u16) -> Result<bool, ValueFault> {
        self.store.value(variable)
    }
}

impl Answering for Backtracking {
    ghost answering = { ByBacktracking };

    fn answer(&mut self, budget: u64) -> Solved {
        self.solve(budget)
    }
}
