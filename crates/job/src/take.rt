// Take and close: the right to work on a fault is given to one holder at a time.
ghost use Rattle.std.specs.Prelude.{◌≡◌, ◌<◌, true, IfOk, IfErr, vec_len};
ghost use Rattle.history.specs.Steps.{closed, took};
ghost use Rattle.history.specs.Views.{is_open, is_taken, mark};
ghost use Rattle.job.specs.Tables.{closed_with, granted, known_as, Led, view_of};

use crate::table::Table;
use crate::ticket::{Back, Ticket};
use history::refusal::{CloseRefusal, TakeRefusal};

impl Table {
    // Whether the fault is taken; a fault that the card does not have is not.
    pub(crate) fn holds(&self, fault: usize) -> bool
        ensures tells_whether_it_is_taken { result ≡ is_taken (view_of self.now) fault }
        ensures a_taken_fault_has_a_flag { result ≡ true → fault < vec_len self.now.states }
    {
        self.states.get(fault).is_some_and(|state| state.taken)
    }

    // Whether the fault has no verdict yet.
    pub(crate) fn is_open(&self, fault: usize) -> bool
        ensures tells_whether_it_is_open { result ≡ is_open (mark (view_of self.now) fault) }
    {
        self.states
            .get(fault)
            .is_none_or(|state| state.mark.is_open())
    }

    pub(crate) fn take(&mut self, fault: usize) -> Result<Ticket, TakeRefusal>
        ensures ticket_is_for_the_fault { IfOk result (λ t. t.fault ≡ fault) }
        ensures leads_on { Led self.old (took fault (granted result)) self.new }
    {
        if fault >= self.states.len() {
            return Err(TakeRefusal::NoSuchFault);
        }
        if self.holds(fault) {
            return Err(TakeRefusal::Taken);
        }
        if !self.is_open(fault) {
            return Err(TakeRefusal::Decided);
        }
        self.states[fault].taken = true;
        Ok(Ticket::issue(fault))
    }

    pub(crate) fn close(&mut self, ticket: Ticket) -> Result<(), Back>
        ensures a_refusal_hands_the_ticket_back { IfErr result (λ back. back.ticket ≡ ticket) }
        ensures leads_on { Led self.old (closed (known_as ticket true) (closed_with result)) self.new }
    {
        let fault = ticket.fault();
        if !self.holds(fault) {
            return Err(Back {
                why: CloseRefusal::NotTaken,
                ticket,
            });
        }
        self.states[fault].taken = false;
        let _fault = ticket.spend();
        Ok(())
    }
}
