// Opening a job asks for all the memory that it will ever need.
ghost use Rattle.std.specs.Prelude.{◌≡◌, IfOk};
ghost use Rattle.card.specs.Views.{netlist_of};
ghost use Rattle.history.specs.Views.{new_view};
ghost use Rattle.job.specs.Tables.{card_of, view_of};

use crate::shown::Marked;
use crate::table::Table;
use card::netlist::Card;
use faults::model::FaultModel;
use history::mark::Mark;
use std::alloc::{AllocError, Global};

// As many vectors as a job can hold.
pub(crate) const MOST: usize = 512;

impl Table {
    // All faults open, none taken, no vector.
    pub(crate) fn open(heap: Global, card: Card) -> Result<Table, AllocError>
        ensures holds_the_card { IfOk result (λ t. card_of t ≡ netlist_of card) }
        ensures is_new { IfOk result (λ t. view_of t ≡ new_view (netlist_of card)) }
    {
        let faults = FaultModel::open(heap, card)?;
        let count = faults.fault_count();
        let untouched = Marked {
            mark: Mark::Open,
            taken: false,
        };
        let states = vec![in heap; untouched; count]?;
        let vectors = Vec::with_capacity(heap, MOST)?;
        Ok(Table {
            faults,
            states,
            vectors,
        })
    }
}
