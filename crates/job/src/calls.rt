// The calls of a job. Each says when it is granted and what it then does; a refused call changes nothing;
// and each is a step of the job's history, after which the law of jobs holds.
ghost use Rattle.std.specs.Prelude.{◌≡◌, Bool, is_ok, IfOk, IfErr, OnErr, if◌then◌else◌, Some};
ghost use Rattle.card.specs.Views.{netlist_of};
ghost use Rattle.signal.specs.declared.line.Stuck.{Stuck as StuckLine};
ghost use Rattle.faults.specs.Sites.{stuck_of};
ghost use Rattle.formula.specs.Posing.{holds_formula};
ghost use Rattle.vectors.specs.Vectors.{holding};
ghost use Rattle.history.specs.Changing.{adding, closing, merging, sweeping, taking};
ghost use Rattle.history.specs.Granting.{adds, closes, merges, sweeps, takes};
ghost use Rattle.history.specs.Promises.{PromisedAfter, Stands};
ghost use Rattle.history.specs.Steps.{added, closed, merged, searched, Step, swept, took};
ghost use Rattle.history.specs.Views.{new_view};
ghost use Rattle.job.specs.Jobs.{card_held, held};
ghost use Rattle.job.specs.Tables.{closed_with, granted, known_as, SearchAnswers};

use crate::job::Job;
use crate::table::Table;
use crate::ticket::{Back, Ticket};
use card::netlist::Card;
use history::refusal::{AddRefusal, MergeRefusal, SearchRefusal, TakeRefusal, VectorRefusal};
use solving::Solved;
use std::alloc::{AllocError, Global};
use ways::Answering;

// The law follows from the type of `Job`, and stands with each call as what its caller is promised.
// That the card stays is said of before and after, and a type speaks of one moment, so it stands with each call too.
#[tactic(auto, using(crate::proofs::Reaching::led_on, crate::proofs::Reaching::stands))]
impl Job {
    // A new job on a card. It asks for all memory that any later call needs.
    pub fn open(heap: Global, card: Card) -> Result<Job, AllocError>
        ensures holds_the_card { IfOk result (λ j. card_held j ≡ netlist_of card) }
        ensures every_fault_is_open_none_taken_and_no_vector_listed { IfOk result (λ j. held j ≡ new_view (netlist_of card)) }
    {
        let table = Table::open(heap, card)?;
        Ok(Job { table })
    }

    // Takes a fault, and gives the ticket for it.
    pub fn take(&mut self, fault: usize) -> Result<Ticket, TakeRefusal>
        ensures granted_exactly_for_an_open_fault_that_is_not_taken { granted result ≡ takes (card_held self.old) (held self.old) fault }
        ensures the_ticket_is_for_the_fault { IfOk result (λ t. t.fault ≡ fault) }
        ensures the_fault_is_taken_or_nothing_changes { held self.new ≡ (if is_ok result then taking (held self.old) fault else held self.old) }
        ensures the_card_stays { card_held self.new ≡ card_held self.old }
        ensures is_a_step_of_the_history { Step (card_held self.old) (held self.old) (took fault (granted result)) (held self.new) }
        ensures the_promise_holds_after_whatever_history_led_here { PromisedAfter (card_held self.old) (held self.old) (took fault (granted result)) (held self.new) }
        ensures the_law_of_jobs_holds { Stands (card_held self.new) (held self.new) }
    {
        self.table.take(fault)
    }

    // Asks the solver about the ticket's fault, and enters what it found. The answer is the solver's own, with its steps.
    pub fn search<S: Answering>(
        &mut self,
        ticket: &Ticket,
        solver: &mut S,
        budget: u64,
    ) -> Result<Solved, SearchRefusal>
        ensures the_solvers_answer_is_entered_or_a_refusal_changes_neither_job_nor_solver { SearchAnswers (card_held self.old) (held self.old) ticket.now.fault budget (S.Solver.model solver.old) result (held self.new) (S.Solver.model solver.new) }
        ensures the_solver_answered_in_its_own_way { IfOk result (λ solved. (s : StuckLine) → stuck_of (card_held self.old) ticket.now.fault ≡ Some s → S.Answering.answering (holds_formula (card_held self.old) s) budget solved (S.Solver.model solver.new)) }
        ensures a_refusal_leaves_the_solver { OnErr result (solver.new ≡ solver.old) }
        ensures the_card_stays { card_held self.new ≡ card_held self.old }
        ensures is_a_step_of_the_history { (own : Bool) → Step (card_held self.old) (held self.old) (searched (known_as ticket.now own) budget result) (held self.new) }
        ensures the_promise_holds_after_whatever_history_led_here { (own : Bool) → PromisedAfter (card_held self.old) (held self.old) (searched (known_as ticket.now own) budget result) (held self.new) }
        ensures the_law_of_jobs_holds { Stands (card_held self.new) (held self.new) }
    {
        self.table.search(ticket, solver, budget)
    }

    // Closes the ticket's fault and spends the ticket; a refusal hands it back.
    pub fn close(&mut self, ticket: Ticket) -> Result<(), Back>
        ensures granted_exactly_for_a_taken_fault { closed_with result ≡ closes (held self.old) ticket.fault }
        ensures a_refusal_hands_the_ticket_back { IfErr result (λ back. back.ticket ≡ ticket) }
        ensures the_fault_is_closed_or_nothing_changes { held self.new ≡ (if is_ok result then closing (held self.old) ticket.fault else held self.old) }
        ensures the_card_stays { card_held self.new ≡ card_held self.old }
        ensures is_a_step_of_the_history { (own : Bool) → Step (card_held self.old) (held self.old) (closed (known_as ticket own) (closed_with result)) (held self.new) }
        ensures the_promise_holds_after_whatever_history_led_here { (own : Bool) → PromisedAfter (card_held self.old) (held self.old) (closed (known_as ticket own) (closed_with result)) (held self.new) }
        ensures the_law_of_jobs_holds { Stands (card_held self.new) (held self.new) }
    {
        self.table.close(ticket)
    }

    // Marks each open fault, not taken, that the vector catches as detected by it, and answers how many.
    pub fn sweep(&mut self, vector: usize) -> Result<usize, VectorRefusal>
        ensures answers_how_many_or_that_there_is_no_such_vector { result ≡ sweeps (card_held self.old) (held self.old) vector }
        ensures every_caught_fault_is_marked_or_nothing_changes { held self.new ≡ (if is_ok result then sweeping (card_held self.old) (held self.old) vector else held self.old) }
        ensures the_card_stays { card_held self.new ≡ card_held self.old }
        ensures is_a_step_of_the_history { Step (card_held self.old) (held self.old) (swept vector result) (held self.new) }
        ensures the_promise_holds_after_whatever_history_led_here { PromisedAfter (card_held self.old) (held self.old) (swept vector result) (held self.new) }
        ensures the_law_of_jobs_holds { Stands (card_held self.new) (held self.new) }
    {
        self.table.sweep(vector)
    }

    // Puts a vector last, and answers its number.
    pub fn add(&mut self, care: u32, value: u32) -> Result<usize, AddRefusal>
        ensures answers_the_number_or_refuses { result ≡ adds (card_held self.old) (held self.old) care value }
        ensures the_vector_is_put_last_or_nothing_changes { held self.new ≡ (if is_ok result then adding (held self.old) (holding care value) else held self.old) }
        ensures the_card_stays { card_held self.new ≡ card_held self.old }
        ensures is_a_step_of_the_history { Step (card_held self.old) (held self.old) (added care value result) (held self.new) }
        ensures the_promise_holds_after_whatever_history_led_here { PromisedAfter (card_held self.old) (held self.old) (added care value result) (held self.new) }
        ensures the_law_of_jobs_holds { Stands (card_held self.new) (held self.new) }
    {
        self.table.add(care, value)
    }

    // Vector `into` takes the fixed cells of vector `gone`, which leaves the list.
    pub fn merge(&mut self, into: usize, gone: usize) -> Result<(), MergeRefusal>
        ensures granted_exactly_for_two_vectors_that_fit { granted result ≡ merges (held self.old) into gone }
        ensures both_are_one_vector_under_its_new_number_or_nothing_changes { held self.new ≡ (if is_ok result then merging (held self.old) into gone else held self.old) }
        ensures the_card_stays { card_held self.new ≡ card_held self.old }
        ensures is_a_step_of_the_history { Step (card_held self.old) (held self.old) (merged into gone (granted result)) (held self.new) }
        ensures the_promise_holds_after_whatever_history_led_here { PromisedAfter (card_held self.old) (held self.old) (merged into gone (granted result)) (held self.new) }
        ensures the_law_of_jobs_holds { Stands (card_held self.new) (held self.new) }
    {
        self.table.merge(into, gone)
    }
}
