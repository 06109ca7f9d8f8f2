// `Card`: a netlist that keeps every rule of a card.
// The rules stand in the type, so whoever holds a card may index its nets without a test.
ghost use Rattle.card.specs.Netlists.{Lawful};
ghost use Rattle.card.specs.Parts.{netlist_from};

use crate::gate::Gate;

#[derive(Drop)]
pub struct Card {
    pub(crate) inputs: u8,
    pub(crate) gates: Vec<Gate>,
    pub(crate) outputs: Vec<u16>,
    ghost lawful: { Lawful (netlist_from inputs gates.items outputs.items) },
}
