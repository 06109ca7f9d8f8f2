// The same clauses with their lists as plain slices, which a caller can put together and read: what closure asks of them stands in
// the contracts of the calls that take them, and `Clauses` always lends such.
ghost use Rattle.std.specs.Prelude.{◌≡◌, ◌≤◌, length};
ghost use Rattle.propagation.specs.Clauses.{clauses_of, clauses_listed, listed};

use crate::clauses::Clauses;
use crate::occurrence::Occurrence;

#[derive(Clone, Copy)]
pub struct Lists<'a> {
    pub literals: &'a [i16],
    pub ends: &'a [usize],
    // For the number of each literal one past the last place where it stands; 0 where it stands at none.
    pub lasts: &'a [u16],
    // Each place of the row.
    pub places: &'a [Occurrence],
}

impl<'a> Clauses<'a> {
    // The slices themselves.
    pub fn lists(self) -> Lists<'a>
        ensures has_the_clauses { clauses_listed result ≡ clauses_of self.entry }
        ensures listed { listed result }
        ensures wide { 1120 ≤ length result.lasts.now }
    {
        Lists {
            literals: self.row.literals,
            ends: self.row.ends,
            lasts: self.lasts,
            places: self.places,
        }
    }
}
