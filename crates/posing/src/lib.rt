// Posing a small formula to any solver: two bits that differ. What is promised of them rests on the interface's promises alone.
#![tactic(auto)]

ghost use Rattle.std.specs.Prelude.{◌≡◌, ◌<◌, Bool, true, false, not, List, is_some, IfOk, Some, MatchOption, slice_index_or};
ghost use Rattle.solving.specs.Answers.{Answers};
ghost use Rattle.solving.specs.declared.verdict.Solved.{Solved as SolvedAs};
ghost use Rattle.posing.specs.Differing.{bits_in, differing};

use solvers::{Backtracking, Counting};
use solving::{Solver, Verdict};
use std::alloc::{AllocError, Global};

// Puts the formula to the solver: one of two variables is true, and one is false.
fn pose<S: Solver>(solver: &mut S)
    ensures holds_the_formula { S.Solver.model solver.new ≡ differing }
{
    let _ = solver.start(2, 2);
    let _ = solver.append(&[1, 2]);
    let _ = solver.append(&[-1, -2]);
}

// The bits of both variables, if there is a reading.
fn read<S: Solver>(solver: &S) -> Option<(bool, bool)>
    ensures are_the_readings_bits { (bits : List Bool) → (S.Solver.model solver.now).variables ≡ 2 → (S.Solver.model solver.now).reading ≡ Some bits → result ≡ Some (slice_index_or bits 0 false, slice_index_or bits 1 false) }
{
    let first = solver.value(1).ok()?;
    let second = solver.value(2).ok()?;
    Some((first, second))
}

// Two bits that differ; none only if the budget is below 6.
pub fn differ<S: Solver>(solver: &mut S, budget: u64) -> Option<(bool, bool)>
    ensures differ_or_the_budget_is_small { MatchOption result (budget < 6) (λ p. p.0 ≡ not p.1) }
    ensures the_solver_was_asked_the_formula { (solved : SolvedAs) × Answers differing budget solved (S.Solver.model solver.new) }
    ensures are_the_bits_that_the_solver_found { result ≡ bits_in (S.Solver.model solver.new).reading }
{
    pose(solver);
    match solver.solve(budget).verdict {
        Verdict::Found => read(solver),
        Verdict::None => None,
        Verdict::Undecided => None,
    }
}

// Two bits that differ, from any solver: 6 steps are always enough.
pub fn settle<S: Solver>(solver: &mut S) -> Option<(bool, bool)>
    ensures settles { is_some result ≡ true }
    ensures differ { MatchOption result ⊥ (λ p. p.0 ≡ not p.1) }
    ensures the_solver_was_asked_the_formula { (solved : SolvedAs) × Answers differing 6 solved (S.Solver.model solver.new) }
    ensures are_the_bits_that_the_solver_found { result ≡ bits_in (S.Solver.model solver.new).reading }
{
    differ(solver, 6)
}

// Whether both solvers settle it, one after the other: they do.
pub fn settle_by_both(heap: Global) -> Result<bool, AllocError>
    ensures both_settle { IfOk result (λ both. both ≡ true) }
{
    let mut backtracking = Backtracking::new(heap)?;
    let mut counting = Counting::new(heap)?;
    let first = settle(&mut backtracking);
    let second = settle(&mut counting);
    Ok(first.is_some() && second.is_some())
}
