// The scan with which a closure begins: from some clause on, literal by literal, to the first clause that is false throughout or unit.
ghost use Rattle.std.specs.Prelude.{◌≡◌, ◌≤◌, length, drop};
ghost use Rattle.propagation.specs.Scanning.{foremost, Ends};
ghost use Rattle.propagation.specs.Occurrences.{start_of};
ghost use Rattle.propagation.specs.Clauses.{clauses_listed};

use crate::conflict::Violated;
use crate::lists::Lists;
use crate::literal::{join, value_of};
use solving::State;

// Where a clause begins: where the one before it ends.
pub fn start_of(ends: &[usize], c: usize) -> usize
    requires inside { c ≤ length ends.now }
    ensures is_its_start { result ≡ start_of ends.now c }
{
    if c > 0 { ends[c - 1] } else { 0 }
}

// The first clause from one on that is false throughout or unit: a violated one, or by its number a unit one and its open literal;
// none where every clause from there on is at rest.
pub(crate) fn scan(
    clauses: Lists,
    values: &[Option<bool>],
    first: usize,
) -> Result<Option<(usize, i16)>, Violated>
    requires ended { Ends clauses.literals.now 0 clauses.ends.now }
    requires inside { first ≤ length clauses.ends.now }
    ensures is_the_first_such_clause { result ≡ foremost values.now first (drop first (clauses_listed clauses.entry)) }
{
    let literals = clauses.literals;
    let ends = clauses.ends;
    let mut from = start_of(ends, first);
    'scan: {
        // Nested, and left by a label: a rule of the project. By number: the answer names a clause by it.
        for c in first..ends.len() {
            let end = ends[c];
            let clause = &literals[from..end];
            let mut state = State::Broken;
            for &literal in clause {
                state = join(value_of(values, literal), literal, state);
            }
            match state {
                State::Other => {}
                State::Broken => break 'scan Err(Violated { clause: c }),
                State::Lone(literal) => break 'scan Ok(Some((c, literal))),
            }
            from = end;
        }
        Ok(None)
    }
}
