// The calls of a desk: whatever is asked of its job goes through `run`, one request at a time.
ghost use Rattle.std.specs.Prelude.{◌≡◌, false, [], ◌∷◌, IfOk, vec_len, MatchOption, OnErr};
ghost use Rattle.card.specs.Views.{netlist_of};
ghost use Rattle.history.specs.Views.{is_taken, new_view};
ghost use Rattle.requests.specs.Running.{Runs};
ghost use Rattle.desk.specs.Desks.{card_at, held_at, tickets_at};
ghost use Rattle.desk.specs.Keeping.{IsFor};

use crate::closing::close_each;
use crate::desk::Desk;
use card::netlist::Card;
use job::Job;
use requests::reply::Reply;
use requests::request::Request;
use requests::turns::run;
use std::alloc::{AllocError, Global};
use ways::Answering;

impl Desk {
    // A desk with a new job on the card, and no ticket.
    pub fn open(heap: Global, card: Card) -> Result<Desk, AllocError>
        ensures has_the_card { IfOk result (λ d. card_at d ≡ netlist_of card) }
        ensures the_job_is_new { IfOk result (λ d. held_at d ≡ new_view (netlist_of card)) }
        ensures no_ticket_is_kept { IfOk result (λ d. tickets_at d ≡ []) }
    {
        let job = Job::open(heap, card)?;
        let tickets = Vec::new(heap);
        Ok(Desk { job, tickets })
    }

    // The job, to look at.
    pub fn job(&self) -> &Job
        ensures is_the_desks_job { result.now ≡ self.now.job }
    {
        &self.job
    }

    // The place of the ticket for a fault; None exactly if the fault is not taken.
    pub fn place(&self, fault: usize) -> Option<usize>
        ensures finds_its_ticket_unless_the_fault_is_not_taken { MatchOption result (is_taken (held_at self.now) fault ≡ false) (λ i. IsFor fault (tickets_at self.now) i) }
    {
        self.tickets
            .iter()
            .position(|ticket| ticket.fault() == fault)
    }

    // Asks the job for the request, with the tickets and the solver, and answers what it got.
    // Without room nothing is asked, and nothing changes. The solver changes by a granted search alone, which it answers in its own way.
    pub fn ask<S: Answering>(
        &mut self,
        heap: Global,
        solver: &mut S,
        request: Request,
    ) -> Result<Reply, AllocError>
        ensures the_law_of_jobs_holds_over_every_history { IfOk result (λ reply. Runs S.Answering.answering (card_at self.old) (held_at self.old) (tickets_at self.old) (request ∷ []) (reply ∷ []) (held_at self.new) (tickets_at self.new) (S.Solver.model solver.old) (S.Solver.model solver.new)) }
        ensures the_card_stays { card_at self.new ≡ card_at self.old }
        ensures without_room_the_job_stays { OnErr result (held_at self.new ≡ held_at self.old) }
        ensures without_room_the_solver_stays { OnErr result (solver.new ≡ solver.old) }
        ensures without_room_the_tickets_stay { OnErr result (tickets_at self.new ≡ tickets_at self.old) }
    {
        let replies = run(heap, &mut self.job, solver, &mut self.tickets, &[request])?;
        Ok(replies[0])
    }

    // Closes every ticket that is left, lets the job go, and answers how many tickets there were.
    pub fn finish(self) -> usize
        ensures answers_how_many_were_kept { result ≡ vec_len self.tickets }
    {
        let Desk {
            mut job,
            mut tickets,
        } = self;
        let closed = close_each(&mut job, &mut tickets);
        tickets.destroy_empty();
        closed
    }
}
