// Sweep: every open fault, not taken, that a listed vector catches is marked detected by it.
ghost use Rattle.std.specs.Prelude.{◌≡◌, not, ◌&&◌};
ghost use Rattle.vectors.specs.Views.{cells_of};
ghost use Rattle.faults.specs.Catching.{catches_fault};
ghost use Rattle.faults.specs.Views.{modelled};
ghost use Rattle.history.specs.Steps.{swept};
ghost use Rattle.history.specs.Views.{is_open};
ghost use Rattle.job.specs.Tables.{Led};

use crate::shown::Marked;
use crate::table::Table;
use faults::response::Response;
use history::mark::Mark;
use history::refusal::VectorRefusal;

// Whether a sweep by the response's vector marks the fault, which is in this state.
fn sweep_marks(response: &Response, fault: usize, state: Marked) -> bool
    ensures open_not_taken_and_caught { result ≡ (is_open state.mark && (not state.taken && catches_fault (modelled response.now.faults.now) fault (cells_of response.now.vector))) }
{
    state.mark.is_open() && !state.taken && response.catches(fault)
}

impl Table {
    pub(crate) fn sweep(&mut self, number: usize) -> Result<usize, VectorRefusal>
        ensures leads_on { Led self.old (swept number result) self.new }
    {
        let vector = *self.vectors.get(number).ok_or(VectorRefusal::NoSuchVector)?;
        // The good card is walked once for all faults.
        let response = self.faults.response(&vector);
        // Counted by hand: the faults are marked while they are counted.
        let mut count = 0;
        for (fault, state) in self.states.iter_mut().enumerate() {
            if sweep_marks(&response, fault, *state) {
                state.mark = Mark::Detected(number);
                count += 1;
            }
        }
        Ok(count)
    }
}
