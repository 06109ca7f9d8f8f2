// A run: a list of requests, asked in turn. Here the law of jobs stands whole on a public call.
ghost use Rattle.std.specs.Prelude.{◌≡◌, IfOk, OnErr};
ghost use Rattle.job.specs.Jobs.{card_held, held};
ghost use Rattle.requests.specs.Running.{Runs};

use crate::reply::Reply;
use crate::request::Request;
use crate::serve::serve;
use job::{Job, Ticket};
use std::alloc::{AllocError, Global};
use ways::Answering;

// Asks the job for each request, with the wallet's tickets and the solver, and answers what each got.
// Room for every ticket and reply is asked for first: without it nothing is asked of the job, and nothing changes.
// The solver changes by granted searches alone: each is answered by the solver, in its own way, on the formula of its fault.
// The wallet is no part of the job, since it may hold tickets that another job gave. That the card stays is said of each
// call: no type says of a job that is lent that it was not exchanged for another.
pub fn run<S: Answering>(
    heap: Global,
    job: &mut Job,
    solver: &mut S,
    wallet: &mut Vec<Ticket>,
    requests: &[Request],
) -> Result<Vec<Reply>, AllocError>
    ensures the_law_of_jobs_holds_over_every_history { IfOk result (λ replies. Runs S.Answering.answering (card_held job.old) (held job.old) wallet.old.items requests.now replies.items (held job.new) wallet.new.items (S.Solver.model solver.old) (S.Solver.model solver.new)) }
    ensures the_card_stays { card_held job.new ≡ card_held job.old }
    ensures without_room_the_job_stays { OnErr result (job.new ≡ job.old) }
    ensures without_room_the_solver_stays { OnErr result (solver.new ≡ solver.old) }
    ensures without_room_the_tickets_stay { OnErr result (wallet.new.items ≡ wallet.old.items) }
{
    wallet.reserve(requests.len())?;
    let mut replies = Vec::with_capacity(heap, requests.len())?;
    for request in requests {
        replies.push_reserved(serve(job, solver, wallet, *request));
    }
    Ok(replies)
}
