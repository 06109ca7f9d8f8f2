// A run of requests by a solver that promises no more than every solver does: the law of jobs holds of it too.
ghost use Rattle.std.specs.Prelude.{◌≡◌, IfOk, OnErr};
ghost use Rattle.job.specs.Jobs.{card_held, held};
ghost use Rattle.requests.specs.Running.{Runs};
ghost use Rattle.ways.specs.Ways.{AnyWay};

use job::{Job, Ticket};
use requests::{Reply, Request, run};
use solving::Solver;
use std::alloc::{AllocError, Global};
use ways::Plain;

// What the requests got, and the solver again.
#[derive(Drop)]
pub struct PlainRun<S> {
    pub replies: Result<Vec<Reply>, AllocError>,
    pub solver: S,
}

// Asks the job for each request with this solver, and gives it back with the replies.
pub fn by_any<S: Solver>(
    heap: Global,
    job: &mut Job,
    solver: S,
    wallet: &mut Vec<Ticket>,
    requests: &[Request],
) -> PlainRun<S>
    ensures the_law_of_jobs_holds_over_every_history { IfOk result.replies (λ replies. Runs AnyWay (card_held job.old) (held job.old) wallet.old.items requests.now replies.items (held job.new) wallet.new.items (S.model solver) (S.model result.solver)) }
    ensures the_card_stays { card_held job.new ≡ card_held job.old }
    ensures without_room_the_job_stays { OnErr result.replies (job.new ≡ job.old) }
    ensures without_room_the_solver_stays { OnErr result.replies (result.solver ≡ solver) }
    ensures without_room_the_tickets_stay { OnErr result.replies (wallet.new.items ≡ wallet.old.items) }
{
    let mut plain = Plain::new(solver);
    let replies = run(heap, job, &mut plain, wallet, requests);
    let solver = plain.into_inner();
    PlainRun { replies, solver }
}
