// One cell of a vector: 0, 1, or X where the input is free.
// Every input has a cell, also one that no card has, so that a cell can be asked for without a test.
ghost use Rattle.std.specs.Prelude.{◌≡◌};
ghost use Rattle.vectors.specs.Vectors.{bit_at, cell_at};
ghost use Rattle.vectors.specs.Views.{cells_of};

use crate::vector::Vector;
use signal::kind::Signal;
use signal::ternary::Ternary;

// The bit of a number at a place, which is 0 from 32 on.
pub(crate) fn bit(number: u32, place: usize) -> bool
    ensures is_the_bit { result ≡ bit_at number place }
{
    place < 32 && (number >> place) & 1 == 1
}

impl Vector {
    // The cell of an input; from input 32 on every cell is X.
    pub fn cell(&self, input: usize) -> Ternary
        ensures is_the_inputs_cell { result ≡ cell_at (cells_of self.now) input }
    {
        if bit(self.care, input) {
            Ternary::constant(bit(self.value, input))
        } else {
            Ternary::X
        }
    }
}
