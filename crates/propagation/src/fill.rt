// The calls of an index: it is opened with room for every formula, and filled with the places of one before a search.
ghost use Rattle.std.specs.Prelude.{◌≡◌, IfOk, vec_len};
ghost use Rattle.propagation.specs.Occurrences.{Listed};
ghost use Rattle.propagation.specs.Clauses.{clauses_in, clauses_of};

use crate::clauses::Clauses;
use crate::index::Index;
use crate::list::list;
use crate::occurrence::Occurrence;
use crate::row::Row;
use std::alloc::{AllocError, Global};

impl Index {
    // An index with room for the places of every formula that a solver takes.
    pub fn new(heap: Global) -> Result<Index, AllocError>
        ensures has_room_for_every_formula { IfOk result (λ index. (vec_len index.lasts ≡ 1120) × (vec_len index.places ≡ 9216)) }
    {
        let lasts = vec![in heap; 0u16; 1120]?;
        let nowhere = Occurrence {
            from: 0,
            to: 0,
            before: 0,
            first: 0,
            second: 0,
        };
        let places = vec![in heap; nowhere; 9216]?;
        Ok(Index { lasts, places })
    }

    // Lists every place.
    fn list(&mut self, row: Row)
        ensures listed { Listed row.entry.literals.now row.entry.ends.now self.new.lasts.items self.new.places.items }
    {
        list(row, &mut self.lasts, &mut self.places);
    }

    // The clauses with their lists.
    fn lend<'a>(&'a self, row: Row<'a>) -> Clauses<'a>
        requires listed { Listed row.literals.now row.ends.now self.now.lasts.items self.now.places.items }
        ensures has_the_clauses { clauses_of result ≡ clauses_in row.entry }
    {
        Clauses {
            row,
            lasts: &self.lasts,
            places: &self.places,
        }
    }

    // Lists every place of every clause of a formula, and lends the lists: the clauses as closure reads them.
    pub fn fill<'a>(&'a mut self, row: Row<'a>) -> Clauses<'a>
        ensures has_the_clauses { clauses_of result ≡ clauses_in row.entry }
    {
        self.list(row);
        self.lend(row)
    }
}
