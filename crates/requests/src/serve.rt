// One request, asked of the job.
ghost use Rattle.std.specs.Prelude.{◌≡◌, ◌+◌, ◌<◌, ◌≤◌, vec_len, vec_capacity};
ghost use Rattle.solving.specs.Answers.{Answers};
ghost use Rattle.solving.specs.Models.{Model};
ghost use Rattle.job.specs.Jobs.{card_held, held};
ghost use Rattle.requests.specs.Serving.{One, replied};
ghost use Rattle.requests.specs.declared.request.Request.TheVariants.{Close as Closes};

use crate::refusal::Refusal;
use crate::reply::Reply;
use crate::request::Request;
use crate::wallet::put_back;
use job::{Back, Job, Ticket};
use ways::Answering;

// Closes the ticket at this place; a ticket that is handed back returns to it. No solver is asked, so the contract holds of any.
fn close(job: &mut Job, wallet: &mut Vec<Ticket>, place: usize) -> Result<Reply, Refusal>
    ensures served { (m : Model) → One Answers (card_held job.old) (held job.old) wallet.old.items (Closes place) (replied result) (held job.new) wallet.new.items m m }
    ensures card_stays { card_held job.new ≡ card_held job.old }
    ensures none_more { vec_len wallet.new ≤ vec_len wallet.old }
    ensures room_stays { vec_capacity wallet.old ≤ vec_capacity wallet.new }
{
    if place >= wallet.len() {
        return Ok(Reply::NoTicket);
    }
    let ticket = wallet.remove(place);
    match job.close(ticket) {
        Ok(()) => Ok(Reply::Closed),
        Err(Back { why, ticket }) => {
            put_back(wallet, place, ticket);
            Err(Refusal::from(why))
        }
    }
}

// What the job answers to the request. Job, solver and wallet are each the caller's own: in one type each call would have to promise
// too that they are the ones that were lent. That the wallet's room stays relates before and after, which no type can say.
fn answer<S: Answering>(
    job: &mut Job,
    solver: &mut S,
    wallet: &mut Vec<Ticket>,
    request: Request,
) -> Result<Reply, Refusal>
    requires room { vec_len wallet.old < vec_capacity wallet.old }
    ensures served { One S.Answering.answering (card_held job.old) (held job.old) wallet.old.items request (replied result) (held job.new) wallet.new.items (S.Solver.model solver.old) (S.Solver.model solver.new) }
    ensures card_stays { card_held job.new ≡ card_held job.old }
    ensures at_most_one_more { vec_len wallet.new ≤ vec_len wallet.old + 1 }
    ensures room_stays { vec_capacity wallet.old ≤ vec_capacity wallet.new }
{
    match request {
        Request::Take(fault) => {
            wallet.push_reserved(job.take(fault)?);
            Ok(Reply::Taken)
        }
        Request::Search(place, budget) => {
            let Some(ticket) = wallet.get(place) else {
                return Ok(Reply::NoTicket);
            };
            Ok(Reply::Searched(job.search(ticket, solver, budget)?))
        }
        Request::Close(place) => close(job, wallet, place),
        Request::Sweep(vector) => Ok(Reply::Swept(job.sweep(vector)?)),
        Request::Add(care, value) => Ok(Reply::Added(job.add(care, value)?)),
        Request::Merge(into, gone) => {
            job.merge(into, gone)?;
            Ok(Reply::Merged)
        }
    }
}

// Asks the job for the request, with the wallet's tickets and the solver; a refusal is a reply.
pub(crate) fn serve<S: Answering>(
    job: &mut Job,
    solver: &mut S,
    wallet: &mut Vec<Ticket>,
    request: Request,
) -> Reply
    requires room { vec_len wallet.old < vec_capacity wallet.old }
    ensures served { One S.Answering.answering (card_held job.old) (held job.old) wallet.old.items request result (held job.new) wallet.new.items (S.Solver.model solver.old) (S.Solver.model solver.new) }
    ensures card_stays { card_held job.new ≡ card_held job.old }
    ensures at_most_one_more { vec_len wallet.new ≤ vec_len wallet.old + 1 }
    ensures room_stays { vec_capacity wallet.old ≤ vec_capacity wallet.new }
{
    answer(job, solver, wallet, request).unwrap_or_else(Reply::Refused)
}
