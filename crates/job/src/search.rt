// Search: a solver is asked about the ticket's fault, and what it found is entered.
ghost use Rattle.std.specs.Prelude.{◌≡◌, IfOk, OnErr, Some};
ghost use Rattle.signal.specs.declared.line.Stuck.{Stuck as StuckLine};
ghost use Rattle.faults.specs.Sites.{stuck_of};
ghost use Rattle.formula.specs.Posing.{holds_formula};
ghost use Rattle.job.specs.Tables.{card_of, SearchAnswers, view_of};

use crate::open::MOST;
use crate::table::Table;
use crate::ticket::Ticket;
use asking::ask::ask;
use history::refusal::SearchRefusal;
use solving::Solved;
use ways::Answering;

impl Table {
    #[tactic(auto, using(crate::proofs::Tabled::all_listed, crate::proofs::Tabled::full_answer))]
    pub(crate) fn search<S: Answering>(
        &mut self,
        ticket: &Ticket,
        solver: &mut S,
        budget: u64,
    ) -> Result<Solved, SearchRefusal>
        ensures answered { SearchAnswers (card_of self.old) (view_of self.old) ticket.now.fault budget (S.Solver.model solver.old) result (view_of self.new) (S.Solver.model solver.new) }
        ensures the_solver_answered_in_its_own_way { IfOk result (λ solved. (s : StuckLine) → stuck_of (card_of self.old) ticket.now.fault ≡ Some s → S.Answering.answering (holds_formula (card_of self.old) s) budget solved (S.Solver.model solver.new)) }
        ensures a_refusal_leaves_the_solver { OnErr result (solver.new ≡ solver.old) }
        ensures card_stays { card_of self.new ≡ card_of self.old }
    {
        let fault = ticket.fault();
        if !self.holds(fault) {
            return Err(SearchRefusal::NotTaken);
        }
        if !self.is_open(fault) {
            return Err(SearchRefusal::Decided);
        }
        if self.vectors.len() >= MOST {
            return Err(SearchRefusal::Full);
        }
        let Ok(stuck) = self.faults.line(fault) else {
            unreachable!()
        };
        let asked = ask(solver, self.faults.card(), stuck, budget);
        self.enter(fault, asked.outcome);
        Ok(asked.solved)
    }
}
