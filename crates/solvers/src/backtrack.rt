// Backtracking's loop: follow up what was made true, then decide, turn or answer; the budget is tested before each step and nowhere else.
ghost use Rattle.std.specs.Prelude.{◌≡◌, ◌≤◌, length};
ghost use Rattle.solving.specs.Backtracking.{backtracking, lowest};
ghost use Rattle.propagation.specs.Stacks.{room};
ghost use Rattle.propagation.specs.Clauses.{clauses_of};
ghost use Rattle.solvers.specs.Outcomes.{answered};

use crate::decision::Decision;
use crate::turn::{decide, lowest_open, turn};
use propagation::{Assignment, Clauses, Conflict, Stack};
use solving::{Solved, Verdict};

pub fn backtrack(
    clauses: Clauses,
    assignment: &mut Assignment,
    decisions: &mut Stack<Decision>,
    budget: u64,
) -> Solved
    requires fresh { assignment.old.trail.len ≡ 0 }
    requires blank { decisions.old.len ≡ 0 }
    requires more { length assignment.old.values.now ≤ room decisions.old }
    ensures answers_as_defined { backtracking lowest (clauses_of clauses.entry) budget assignment.old.values.now ≡ answered result assignment.new.values.now }
    ensures keeps_the_variables { length assignment.new.values.now ≡ length assignment.old.values.now }
{
    if assignment.begin(clauses).is_err() {
        return Solved {
            verdict: Verdict::None,
            steps: 0,
        };
    }
    // Counted by hand: a step is a decision or a turn, and the look that ends the search is none.
    let mut steps = 0;
    // The literals on the trail from here on have yet to be followed up.
    let mut front = 0;
    let verdict = loop {
        let spent = steps >= budget;
        match assignment.follow(clauses, front) {
            Ok(()) => match lowest_open(assignment.values()) {
                None => break Verdict::Found,
                Some(_) if spent => break Verdict::Undecided,
                Some(j) => decide(assignment, decisions, j),
            },
            Err(Conflict) => match decisions.pop() {
                None => break Verdict::None,
                Some(_) if spent => break Verdict::Undecided,
                Some(d) => turn(assignment, d),
            },
        }
        steps += 1;
        front = assignment.len() - 1;
    };
    Solved { verdict, steps }
}
