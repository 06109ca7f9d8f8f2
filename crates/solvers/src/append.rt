// Appending a clause to a store: its literals are tested, then the places that are left; it goes to the end of the row.
ghost use Rattle.std.specs.Prelude.{◌≡◌, is_ok, if◌then◌else◌};
ghost use Rattle.solving.specs.Literals.{all_in_range, in_range};
ghost use Rattle.solving.specs.Models.{longer, appendable};
ghost use Rattle.solving.specs.Refusals.{appended};
ghost use Rattle.solvers.specs.Stores.{model_of};

use crate::store::Store;
use solving::AppendFault;

// Not 0, and of one of so many variables.
fn in_range(literal: i16, variables: usize) -> bool
    ensures tells_a_literal_in_range { result ≡ in_range variables literal }
{
    literal != 0 && literal.unsigned_abs() as usize <= variables
}

fn all_in_range(clause: &[i16], variables: usize) -> bool
    ensures tells_literals_in_range { result ≡ all_in_range variables clause.now }
{
    clause.iter().all(|&literal| in_range(literal, variables))
}

impl Store {
    pub fn append(&mut self, clause: &[i16]) -> Result<(), AppendFault>
        ensures answer { result ≡ appended (model_of self.old) clause.now }
        ensures granted { is_ok result ≡ appendable (model_of self.old) clause.now }
        ensures state { model_of self.new ≡ (if appendable (model_of self.old) clause.now then longer (model_of self.old) clause.now else model_of self.old) }
    {
        if !all_in_range(clause, self.variables) {
            return Err(AppendFault::Literal);
        }
        if clause.len() >= 9216 - (self.literals.len() + self.ends.len()) {
            return Err(AppendFault::Places);
        }
        let _ = self.literals.extend_from_slice(clause);
        let end = self.literals.len();
        self.ends.push_reserved(end);
        self.read = false;
        Ok(())
    }
}
