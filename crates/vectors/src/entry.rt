// A vector entered into the nets of a walk: the cells of the inputs come first, and no other net changes.
// The nets of the inputs then allow exactly the settings that fill the vector, and there is always such a setting.
ghost use Rattle.std.specs.Prelude.{◌≡◌, take, drop};
ghost use Rattle.card.specs.Views.{netlist_of};
ghost use Rattle.vectors.specs.Vectors.{bits_from, FilledByTheAllowed, Fills, start};
ghost use Rattle.vectors.specs.Views.{cells_of};

use crate::vector::Vector;
use card::netlist::Card;
use signal::ternary::Ternary;

impl Vector {
    // Writes the cell of each input of the card into the input's net.
    pub fn enter(&self, card: &Card, nets: &mut [Ternary; 256])
        ensures enters_the_cells { take (netlist_of card.now).inputs nets.new ≡ start (netlist_of card.now).inputs (cells_of self.now) }
        ensures keeps_the_other_nets { drop (netlist_of card.now).inputs nets.new ≡ drop (netlist_of card.now).inputs nets.old }
        ensures filled_by_what_the_nets_allow { FilledByTheAllowed (netlist_of card.now).inputs (cells_of self.now) (take (netlist_of card.now).inputs nets.new) }
        ensures its_value_bits_fill_it { Fills (netlist_of card.now).inputs (cells_of self.now) (bits_from (cells_of self.now).value 0 (netlist_of card.now).inputs) }
    {
        let inputs = card.inputs();
        for (j, net) in nets[..inputs].iter_mut().enumerate() {
            *net = self.cell(j);
        }
    }
}
