// Tickets: the right to work on one fault. A ticket is moved and never copied, only a take makes one, and only a granted close spends it;
// a program that lets go of one is refused, since a ticket cannot be dropped: its type is no `Drop`.
ghost use Rattle.std.specs.Prelude.{◌≡◌};

use history::refusal::CloseRefusal;

pub struct Ticket {
    fault: usize,
}

impl Ticket {
    // A ticket for a fault that was just taken.
    pub(crate) fn issue(fault: usize) -> Ticket
        ensures is_for_the_fault { result.fault ≡ fault }
    {
        Ticket { fault }
    }

    // The end of a ticket whose fault was just closed.
    pub(crate) fn spend(self) -> usize
        ensures was_for_this_fault { result ≡ self.fault }
    {
        let Ticket { fault } = self;
        fault
    }

    // The fault that the ticket is for.
    pub fn fault(&self) -> usize
        ensures is_the_tickets_fault { result ≡ self.now.fault }
    {
        self.fault
    }
}

// A refused close hands the ticket back.
pub struct Back {
    pub why: CloseRefusal,
    pub ticket: Ticket,
}
