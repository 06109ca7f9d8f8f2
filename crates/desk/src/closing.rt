// The end of a desk: every ticket is closed. Each close is granted, since the ticket's fault is taken.
ghost use Rattle.std.specs.Prelude.{◌≡◌, ℕ, false, vec_len};
ghost use Rattle.history.specs.Views.{is_taken};
ghost use Rattle.job.specs.Jobs.{held};
ghost use Rattle.desk.specs.Keeping.{Kept};

use job::{Job, Ticket};

// Closes the tickets, the last first, and answers how many there were.
pub(crate) fn close_each(job: &mut Job, tickets: &mut Vec<Ticket>) -> usize
    requires each_taken_fault_has_one_ticket { Kept (held job.old) tickets.old.items }
    ensures none_is_left { vec_len tickets.new ≡ 0 }
    ensures no_fault_is_taken { (f : ℕ) → is_taken (held job.new) f ≡ false }
    ensures answers_how_many { result ≡ vec_len tickets.old }
{
    let count = tickets.len();
    while let Some(ticket) = tickets.pop() {
        if let Err(_back) = job.close(ticket) {
            unreachable!()
        }
    }
    count
}
