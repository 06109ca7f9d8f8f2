// Clients that know only the contract of `run`. Two runs of requests on one job, by two kinds of solver: what each run promises joins to
// the promise over both. And a run by a solver of which only the interface is known.
#![tactic(auto)]

ghost use Rattle.std.specs.Prelude.{◌≡◌, IfOk, OnErr};
ghost use Rattle.solving.specs.Models.{Model, fresh};
ghost use Rattle.job.specs.Jobs.{card_held, held};
ghost use Rattle.requests.specs.Running.{Runs};
ghost use Rattle.two_solvers.specs.Joining.{Joined};
ghost use Rattle.ways.specs.Ways.{ByBacktracking, ByCounting};

mod any;

pub use any::{PlainRun, by_any};
use job::{Job, Ticket};
use requests::{Reply, Request, run};
use solvers::{Backtracking, Counting};
use std::alloc::{AllocError, Global};
use ways::Answering;

// What the requests of each run got. Without room for the second run only the first was made.
#[derive(Drop)]
pub struct Replies {
    pub first: Vec<Reply>,
    pub second: Result<Vec<Reply>, AllocError>,
}

// Asks the job for the first requests with one solver and for the second with another.
// An error is want of room for the first run: nothing was asked then.
pub fn two_runs<S: Answering, R: Answering>(
    heap: Global,
    job: &mut Job,
    solvers: (&mut S, &mut R),
    wallet: &mut Vec<Ticket>,
    requests: (&[Request], &[Request]),
) -> Result<Replies, AllocError>
    ensures the_promise_holds_over_both_runs { IfOk result (λ replies. IfOk replies.second (λ second. Joined S.Answering.answering R.Answering.answering (card_held job.old) (held job.old) wallet.old.items requests.entry.0.now requests.entry.1.now replies.first.items second.items (held job.new) wallet.new.items (S.Solver.model solvers.entry.0.now) (S.Solver.model solvers.exit.0.now) (R.Solver.model solvers.entry.1.now) (R.Solver.model solvers.exit.1.0.now))) }
    ensures without_room_for_the_second_run_the_first_was_made { IfOk result (λ replies. OnErr replies.second (Runs S.Answering.answering (card_held job.old) (held job.old) wallet.old.items requests.entry.0.now replies.first.items (held job.new) wallet.new.items (S.Solver.model solvers.entry.0.now) (S.Solver.model solvers.exit.0.now))) }
    ensures without_room_for_the_second_run_its_solver_stays { IfOk result (λ replies. OnErr replies.second (solvers.exit.1.0.now ≡ solvers.entry.1.now)) }
    ensures without_room_for_the_first_run_the_job_stays { OnErr result (job.new ≡ job.old) }
    ensures without_room_for_the_first_run_the_solvers_stay { OnErr result ((solvers.exit.0.now ≡ solvers.entry.0.now) × (solvers.exit.1.0.now ≡ solvers.entry.1.now)) }
    ensures without_room_for_the_first_run_the_tickets_stay { OnErr result (wallet.new.items ≡ wallet.old.items) }
    ensures the_card_stays { card_held job.new ≡ card_held job.old }
{
    let first = run(heap, job, solvers.0, wallet, requests.0)?;
    let second = run(heap, job, solvers.1, wallet, requests.1);
    Ok(Replies { first, second })
}

// Both runs by our own solvers: the first by backtracking, the second by counting.
// An error is want of room for the solvers or for the first run: nothing was asked then.
pub fn by_both(
    heap: Global,
    job: &mut Job,
    wallet: &mut Vec<Ticket>,
    requests: (&[Request], &[Request]),
) -> Result<Replies, AllocError>
    ensures the_promise_holds_over_both_runs { IfOk result (λ replies. IfOk replies.second (λ second. (o : Model) × ((q : Model) × Joined ByBacktracking ByCounting (card_held job.old) (held job.old) wallet.old.items requests.entry.0.now requests.entry.1.now replies.first.items second.items (held job.new) wallet.new.items fresh o fresh q))) }
    ensures without_room_for_the_second_run_the_first_was_made { IfOk result (λ replies. OnErr replies.second ((o : Model) × Runs ByBacktracking (card_held job.old) (held job.old) wallet.old.items requests.entry.0.now replies.first.items (held job.new) wallet.new.items fresh o)) }
    ensures without_room_for_the_first_run_the_job_stays { OnErr result (job.new ≡ job.old) }
    ensures without_room_for_the_first_run_the_tickets_stay { OnErr result (wallet.new.items ≡ wallet.old.items) }
    ensures the_card_stays { card_held job.new ≡ card_held job.old }
{
    let mut backtracking = Backtracking::new(heap)?;
    let mut counting = Counting::new(heap)?;
    two_runs(
        heap,
        job,
        (&mut backtracking, &mut counting),
        wallet,
        requests,
    )
}
