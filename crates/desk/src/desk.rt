// `Desk`: a job and its tickets. It can be let go only by `finish`, which closes them all.
ghost use Rattle.job.specs.Jobs.{held};
ghost use Rattle.desk.specs.Keeping.{Kept};

use job::{Job, Ticket};

pub struct Desk {
    pub(crate) job: Job,
    pub(crate) tickets: Vec<Ticket>,
    ghost each_taken_fault_has_one_ticket: { Kept (held job) tickets.items },
}
