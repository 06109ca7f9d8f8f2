// The clauses of a formula as closure reads them: one row of literals, each clause by the place where it ends, and for each
// literal the places where it stands, linked from the last to the first.
ghost use Rattle.std.specs.Prelude.{◌≤◌, length};
ghost use Rattle.std.proofs.Props.{props};
ghost use Rattle.propagation.specs.Scanning.{Ends_prop};
ghost use Rattle.propagation.specs.Occurrences.{Listed};

use crate::occurrence::Occurrence;
use crate::row::Row;

#[derive(Clone, Copy)]
pub struct Clauses<'a> {
    pub(crate) row: Row<'a>,
    // For the number of each literal one past the last place where it stands; 0 where it stands at none, and no option, as in
    // `Occurrence`.
    pub(crate) lasts: &'a [u16],
    // Each place of the row.
    pub(crate) places: &'a [Occurrence],
    ghost listed: { Listed row.literals.now row.ends.now lasts.now places.now } by { Prim.hlevel (props, Ends_prop) },
    // Both literals of each variable that a solver takes have a list.
    ghost wide: { 1120 ≤ length lasts.now },
}
