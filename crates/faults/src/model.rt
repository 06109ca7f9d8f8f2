// `FaultModel`: a card with its branches, so that a fault is looked up by its number without a search.
// The type carries that the list is exactly the card's branches, in order.
ghost use Rattle.std.specs.Prelude.{◌≡◌};
ghost use Rattle.card.specs.Views.{netlist_of};
ghost use Rattle.faults.specs.Readers.{branches as branches_of};

use crate::reader::Reader;
use card::netlist::Card;

#[derive(Drop)]
pub struct FaultModel {
    pub(crate) card: Card,
    pub(crate) branches: Vec<Reader>,
    ghost lists_the_branches: { branches.items ≡ branches_of (netlist_of card) },
}
