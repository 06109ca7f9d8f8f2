// `Job`: what a job holds, and that some history of calls has led a new job there. The law of jobs holds after every such history.
ghost use Rattle.history.specs.Promises.{Reached};
ghost use Rattle.job.specs.Tables.{card_of, view_of};

use crate::table::Table;

#[derive(Drop)]
pub struct Job {
    pub(crate) table: Table,
    ghost reached: { Reached (card_of table) (view_of table) },
}
