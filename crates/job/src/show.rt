// Showing a mark, a vector and the counts. Nothing changes by it, and whatever calls the job has met, the law of jobs holds.
ghost use Rattle.std.specs.Prelude.{◌≡◌, map};
ghost use Rattle.card.specs.Views.{netlist_of};
ghost use Rattle.vectors.specs.Views.{cells_of};
ghost use Rattle.history.specs.Promises.{Stands};
ghost use Rattle.job.specs.Jobs.{card_held, held};
ghost use Rattle.job.specs.Showing.{counts_of, mark_shown, VectorShown};
ghost use Rattle.job.specs.Tables.{mark_of, taken_of};

use crate::job::Job;
use crate::outputs::outputs_of;
use crate::shown::{Counts, Listed, Marked};
use card::netlist::Card;
use faults::refusal::FaultRefusal;
use history::refusal::VectorRefusal;
use vectors::vector::Vector;

// Each states the law of jobs, a rule of the project.
#[tactic(auto, using(crate::proofs::Reaching::stands))]
impl Job {
    // The card.
    pub fn card(&self) -> &Card
        ensures is_the_jobs_card { netlist_of result.now ≡ card_held self.now }
    {
        self.table.faults.card()
    }

    // The mark of every fault, and whether it is taken, by number.
    pub fn marks(&self) -> &[Marked]
        ensures are_the_marks { map mark_of result.now ≡ (held self.now).marks }
        ensures tell_which_are_taken { map taken_of result.now ≡ (held self.now).taken }
        ensures the_law_of_jobs_holds { Stands (card_held self.now) (held self.now) }
    {
        &self.table.states
    }

    // The vectors, by number.
    pub fn vectors(&self) -> &[Vector]
        ensures are_the_vectors { map cells_of result.now ≡ (held self.now).vectors }
        ensures the_law_of_jobs_holds { Stands (card_held self.now) (held self.now) }
    {
        &self.table.vectors
    }

    // The mark of a fault, and whether it is taken.
    pub fn mark(&self, fault: usize) -> Result<Marked, FaultRefusal>
        ensures shows_the_mark_or_that_there_is_no_such_fault { result ≡ mark_shown (card_held self.now) (held self.now) fault }
        ensures the_law_of_jobs_holds { Stands (card_held self.now) (held self.now) }
    {
        let states = &self.table.states;
        states.get(fault).copied().ok_or(FaultRefusal::NoSuchFault)
    }

    // A vector and its outputs.
    pub fn vector(&self, number: usize) -> Result<Listed, VectorRefusal>
        ensures shows_the_vector_with_its_outputs_or_that_there_is_none { VectorShown (card_held self.now) (held self.now) number result }
        ensures the_law_of_jobs_holds { Stands (card_held self.now) (held self.now) }
    {
        let vectors = &self.table.vectors;
        let vector = *vectors.get(number).ok_or(VectorRefusal::NoSuchVector)?;
        let outputs = outputs_of(self.table.faults.card(), &vector);
        Ok(Listed { vector, outputs })
    }

    // How many faults are open, detected, untestable and taken. It refuses nothing.
    pub fn counts(&self) -> Counts
        ensures counts_the_faults { result ≡ counts_of (held self.now) }
        ensures the_law_of_jobs_holds { Stands (card_held self.now) (held self.now) }
    {
        Counts::of(self.marks())
    }
}
