// Counting's loop: the settings of the leading variables by their numbers, each for a step, and what the closure of each says.
ghost use Rattle.std.specs.Prelude.{◌≡◌, ℕ, ◌+◌, ◌≤◌, length};
ghost use Rattle.solving.specs.Counting.{tried, counting};
ghost use Rattle.propagation.specs.Clauses.{clauses_of};
ghost use Rattle.solvers.specs.Numbering.{bits_of};
ghost use Rattle.solvers.specs.Outcomes.{meant, answered};

use crate::leading::Leading;
use crate::turn::lowest_open;
use propagation::{Assignment, Clauses, Conflict};
use solving::{Solved, Verdict};

// What every call asks and promises of the variables stands at `Leading`.
// One setting: none where its closure is violated, found where it sets every variable, else undecided.
fn try_setting(
    clauses: Clauses,
    assignment: &mut Assignment,
    leading: Leading,
    number: u64,
) -> Verdict
    requires inside { leading.count ≤ length assignment.old.values.now }
    ensures is_what_it_comes_to { (s : ℕ) → tried (clauses_of clauses.entry) (length assignment.old.values.now) (bits_of leading.count number) s ≡ meant result s assignment.new.values.now }
    ensures keeps_the_variables { length assignment.new.values.now ≡ length assignment.old.values.now }
{
    leading.enter(assignment, number);
    match assignment.close(clauses) {
        Err(Conflict) => Verdict::None,
        Ok(()) => match lowest_open(assignment.values()) {
            None => Verdict::Found,
            Some(_) => Verdict::Undecided,
        },
    }
}

pub fn count(clauses: Clauses, assignment: &mut Assignment, leading: Leading, budget: u64) -> Solved
    requires inside { leading.count ≤ length assignment.old.values.now }
    ensures answers_as_defined { counting (clauses_of clauses.entry) (length assignment.old.values.now) leading.count budget ≡ answered result assignment.new.values.now }
    ensures keeps_the_variables { length assignment.new.values.now ≡ length assignment.old.values.now }
{
    let all = leading.settings();
    for number in 0..all {
        if number >= budget {
            return Solved {
                verdict: Verdict::Undecided,
                steps: number,
            };
        }
        match try_setting(clauses, assignment, leading, number) {
            Verdict::None => {}
            verdict => {
                return Solved {
                    verdict,
                    steps: number + 1,
                };
            }
        }
    }
    Solved {
        verdict: Verdict::None,
        steps: all,
    }
}
