// Looking at the clauses that the solver holds, as they were appended: for whoever hands a formula on to another solver.
ghost use Rattle.std.specs.Prelude.{◌≡◌, [], length, is_some, IfSome, nat_lt, slice_index_or};
ghost use Rattle.solvers.specs.Stores.{model_of};

use super::Backtracking;
use propagation::start_of;

impl Backtracking {
    // The clause of this number, from 0 in the order of appending; none past the last.
    pub fn clause(&self, number: usize) -> Option<&[i16]>
        ensures given_exactly_if_there_is_such_a_clause { is_some result ≡ nat_lt number (length (model_of self.now.store).clauses) }
        ensures is_the_clause_of_this_number { IfSome result (λ x. x.now ≡ slice_index_or (model_of self.now.store).clauses number []) }
    {
        let literals = self.store.literals.as_slice();
        let ends = self.store.ends.as_slice();
        let &end = ends.get(number)?;
        Some(&literals[start_of(ends, number)..end])
    }
}
