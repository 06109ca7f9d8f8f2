// Add: a vector that the caller brings is put last.
ghost use Rattle.history.specs.Steps.{added};
ghost use Rattle.job.specs.Tables.{Led};

use crate::open::MOST;
use crate::table::Table;
use history::refusal::AddRefusal;
use vectors::vector::Vector;

impl Table {
    #[tactic(auto, using(crate::proofs::Tabled::all_listed, crate::proofs::Tabled::added_last))]
    pub(crate) fn add(&mut self, care: u32, value: u32) -> Result<usize, AddRefusal>
        ensures leads_on { Led self.old (added care value result) self.new }
    {
        let inputs = self.faults.card().inputs();
        let vector = Vector::new(inputs, care, value)?;
        let number = self.vectors.len();
        if number >= MOST {
            return Err(AddRefusal::Full);
        }
        self.vectors.push_reserved(vector);
        Ok(number)
    }
}
