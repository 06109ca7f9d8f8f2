// Merge: one listed vector takes the fixed cells of another, which leaves the list, and every mark names its vector by the new number.
ghost use Rattle.std.specs.Prelude.{◌≡◌, map};
ghost use Rattle.history.specs.Changing.{renamed as renamed_mark, renumbered};
ghost use Rattle.history.specs.Steps.{merged as merged_step};
ghost use Rattle.job.specs.Tables.{granted, Led, mark_of, taken_of};

use crate::shown::Marked;
use crate::table::Table;
use history::mark::Mark;
use history::refusal::MergeRefusal;
use vectors::merging::merged;

// The number of a vector once `gone` has gone into `into` and left the list.
fn renumber(into: usize, gone: usize, number: usize) -> usize
    ensures is_the_new_number { result ≡ renumbered into gone number }
{
    let now = if number == gone { into } else { number };
    if now > gone { now - 1 } else { now }
}

// Every mark names its vector by the new number.
fn rename_all(states: &mut [Marked], into: usize, gone: usize)
    ensures renames_each { map mark_of states.new ≡ map (renamed_mark into gone) (map mark_of states.old) }
    ensures leaves_the_flags { map taken_of states.new ≡ map taken_of states.old }
{
    for state in states.iter_mut() {
        if let Mark::Detected(number) = state.mark {
            state.mark = Mark::Detected(renumber(into, gone, number));
        }
    }
}

impl Table {
    #[tactic(auto, using(crate::proofs::Tabled::all_listed))]
    pub(crate) fn merge(&mut self, into: usize, gone: usize) -> Result<(), MergeRefusal>
        ensures leads_on { Led self.old (merged_step into gone (granted result)) self.new }
    {
        let count = self.vectors.len();
        if into >= count || gone >= count {
            return Err(MergeRefusal::NoSuchVector);
        }
        if into == gone {
            return Err(MergeRefusal::SameVector);
        }
        let both = merged(&self.vectors[into], &self.vectors[gone])?;
        self.vectors[into] = both;
        let _gone = self.vectors.remove(gone);
        rename_all(&mut self.states, into, gone);
        Ok(())
    }
}
