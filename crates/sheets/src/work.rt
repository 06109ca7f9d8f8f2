// The work on a card: each open fault, rising, is taken, searched and closed, and a new vector is swept.
ghost use Rattle.std.specs.Prelude.{◌≡◌, ◌<◌};
ghost use Rattle.faults.specs.Sites.{fault_count};
ghost use Rattle.history.specs.Views.{new_view};
ghost use Rattle.job.specs.Jobs.{card_held, held};
ghost use Rattle.sheets.specs.Telling.{Told};
ghost use Rattle.sheets.specs.Working.{NoneTaken, sheet_view, working};

use crate::progress::Progress;
use job::Job;
use solvers::Backtracking;

// The steps that a search may take.
const BUDGET: u64 = 1_000_000;

// Works on one fault. That the card stays relates before and after, here and below, which no type can say.
fn work_on(job: &mut Job, solver: &mut Backtracking, fault: usize)
    requires a_fault { fault < fault_count (card_held job.old) }
    requires none_taken { NoneTaken (held job.old) }
    ensures works_as_defined { held job.new ≡ working (card_held job.old) (held job.old) fault }
    ensures card_stays { card_held job.new ≡ card_held job.old }
{
    let listed = job.vectors().len();
    let Ok(ticket) = job.take(fault) else {
        return;
    };
    let _ = job.search(&ticket, solver, BUDGET);
    if let Err(_back) = job.close(ticket) {
        unreachable!()
    }
    if listed < job.vectors().len() {
        let _ = job.sweep(listed);
    }
}

// Works on every fault of a new job.
pub(crate) fn work<P: Progress>(job: &mut Job, solver: &mut Backtracking, progress: &mut P)
    requires new { held job.old ≡ new_view (card_held job.old) }
    ensures reaches_what_is_defined { held job.new ≡ sheet_view (card_held job.old) }
    ensures tells_of_each_fault { Told P.tells (fault_count (card_held job.old)) (fault_count (card_held job.old)) progress.old progress.new }
    ensures card_stays { card_held job.new ≡ card_held job.old }
{
    let faults = job.marks().len();
    for fault in 0..faults {
        progress.begin(fault, faults);
        work_on(job, solver, fault);
    }
}
