// What a search does to a setting and its trail: the lowest open variable is decided, and a decision is gone back to and turned.
ghost use Rattle.std.specs.Prelude.{◌≡◌, ◌+◌, ◌<◌, ◌≤◌, [], ◌∷◌, ◌++◌, length, drop, pos, negsuc, None};
ghost use Rattle.solving.specs.Settings.{at};
ghost use Rattle.solving.specs.Backtracking.{lowest_open};
ghost use Rattle.propagation.specs.Stacks.{held, room};
ghost use Rattle.propagation.specs.Trails.{unmade_all};
ghost use Rattle.propagation.specs.Assignments.{assigned, making, unwound};

use crate::decision::Decision;
use propagation::{Assignment, Stack};

// The place of the lowest open variable, if one is open.
pub fn lowest_open(values: &[Option<bool>]) -> Option<usize>
    ensures is_the_lowest { result ≡ lowest_open values.now }
{
    values.iter().position(|value| value.is_none())
}

// Sets an open variable to 0, and records the decision.
pub fn decide(assignment: &mut Assignment, decisions: &mut Stack<Decision>, j: usize)
    requires is_open { at assignment.old.values.now j ≡ None }
    requires more { decisions.old.len < room decisions.old }
    ensures makes_it_false { assigned assignment.new ≡ making (assigned assignment.old) (negsuc j) }
    ensures decisions { held decisions.new ≡ held decisions.old ++ (record { at = assignment.old.trail.len; var = j } ∷ []) }
    ensures kept { room decisions.new ≡ room decisions.old }
{
    let at = assignment.len();
    let _ = decisions.push(Decision { at, var: j });
    assignment.make(-(j as i16) - 1);
}

// Goes back to a decision, and sets its variable to 1.
pub fn turn(assignment: &mut Assignment, d: Decision)
    requires is_open { at (unmade_all assignment.old.values.now (drop d.at (held assignment.old.trail))) d.var ≡ None }
    ensures makes_it_true { assigned assignment.new ≡ making (unwound (assigned assignment.old) d.at) (pos (d.var + 1)) }
{
    assignment.unwind(d.at);
    assignment.make(d.var as i16 + 1);
}
