// What a card shows of itself: counts and lists. That it keeps the rules follows from its type, and is said with the first.
ghost use Rattle.std.specs.Prelude.{◌≡◌};
ghost use Rattle.card.specs.Netlists.{Lawful, nets};
ghost use Rattle.card.specs.Views.{netlist_of};

use crate::gate::Gate;
use crate::netlist::Card;

impl Card {
    // How many inputs the card has.
    pub fn inputs(&self) -> usize
        ensures counts_the_inputs { result ≡ (netlist_of self.now).inputs }
        ensures every_card_keeps_the_rules { Lawful (netlist_of self.now) }
    {
        usize::from(self.inputs)
    }

    // The gates in order; gate i makes net inputs + i.
    pub fn gates(&self) -> &[Gate]
        ensures are_the_gates { result.now ≡ (netlist_of self.now).gates }
    {
        &self.gates
    }

    // The nets that are outputs, in order.
    pub fn outputs(&self) -> &[u16]
        ensures are_the_outputs { result.now ≡ (netlist_of self.now).outputs }
    {
        &self.outputs
    }

    // How many nets the card has.
    pub fn nets(&self) -> usize
        ensures counts_the_nets { result ≡ nets (netlist_of self.now) }
    {
        self.inputs as usize + self.gates.len()
    }
}
