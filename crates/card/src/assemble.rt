// How cards come to be: from parts that keep the rules, or the smallest one, a wire from its one input to its one output.
ghost use Rattle.std.specs.Prelude.{◌≡◌, IfOk};
ghost use Rattle.card.specs.Netlists.{Lawful};
ghost use Rattle.card.specs.Parts.{netlist_from, smallest};
ghost use Rattle.card.specs.Views.{netlist_of};

use crate::gate::Gate;
use crate::netlist::Card;
use std::alloc::{AllocError, Global};

impl Card {
    // The card of these parts. An inner call, for the reader of cards: its `requires` is what the type of a card demands.
    pub fn assemble(inputs: u8, gates: Vec<Gate>, outputs: Vec<u16>) -> Card
        requires keeps_the_rules { Lawful (netlist_from inputs gates.items outputs.items) }
        ensures has_these_parts { netlist_of result ≡ netlist_from inputs gates.items outputs.items }
    {
        Card {
            inputs,
            gates,
            outputs,
        }
    }

    // A first lawful card to lend to a reader.
    pub fn wire(heap: Global) -> Result<Card, AllocError>
        ensures is_one_input_that_is_the_output { IfOk result (λ card. netlist_of card ≡ smallest) }
    {
        let outputs = Vec::from_slice(heap, &[0])?;
        Ok(Card {
            inputs: 1,
            gates: Vec::new(heap),
            outputs,
        })
    }
}
