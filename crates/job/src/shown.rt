// What a job shows of itself: the mark of a fault, a listed vector with its outputs, and how many faults are in each state.
// They are plain values, which hold no part of the job; since a job keeps a `Marked` for each fault, it can also lend all of them at once.
ghost use Rattle.std.specs.Prelude.{◌≡◌, map, count_by};
ghost use Rattle.history.specs.Views.{is_detected, is_open, is_untestable};
ghost use Rattle.job.specs.Tables.{mark_of, taken_of};

use history::mark::Mark;
use vectors::vector::Vector;

// The mark of a fault, and whether it is taken.
#[derive(Clone, Copy)]
pub struct Marked {
    pub mark: Mark,
    pub taken: bool,
}

// A listed vector, and what the good card's outputs show for it: the cell of output i stands at place i.
#[derive(Clone, Copy)]
pub struct Listed {
    pub vector: Vector,
    pub outputs: Vector,
}

// How many faults are open, detected, untestable and taken.
#[derive(Clone, Copy)]
pub struct Counts {
    pub open: usize,
    pub detected: usize,
    pub untestable: usize,
    pub taken: usize,
}

impl Counts {
    // The counts of faults of which these are the marks.
    pub(crate) fn of(marks: &[Marked]) -> Counts
        ensures counts_the_open { result.«open» ≡ count_by is_open (map mark_of marks.now) }
        ensures counts_the_detected { result.detected ≡ count_by is_detected (map mark_of marks.now) }
        ensures counts_the_untestable { result.untestable ≡ count_by is_untestable (map mark_of marks.now) }
        ensures counts_the_taken { result.taken ≡ count_by (λ b. b) (map taken_of marks.now) }
    {
        let mut open = 0;
        let mut detected = 0;
        let mut untestable = 0;
        let mut taken = 0;
        for marked in marks {
            match marked.mark {
                Mark::Open => open += 1,
                Mark::Detected(_) => detected += 1,
                Mark::Untestable => untestable += 1,
            }
            if marked.taken {
                taken += 1;
            }
        }
        Counts {
            open,
            detected,
            untestable,
            taken,
        }
    }
}
