// A vector with one cell made free, and all other cells as they are.
ghost use Rattle.std.specs.Prelude.{◌≡◌};
ghost use Rattle.vectors.specs.Freeing.{freed as freed_of, FreesOnly, without as without_bit};
ghost use Rattle.vectors.specs.Views.{cells_of};

use crate::cell::bit;
use crate::vector::Vector;

// The number without its bit at a place.
fn without(number: u32, place: usize) -> u32
    ensures lacks_the_bit { result ≡ without_bit number place }
{
    if bit(number, place) {
        number - (1 << place)
    } else {
        number
    }
}

impl Vector {
    // The vector with the cell of an input free; from input 32 on every cell is free already.
    pub fn freed(&self, input: usize) -> Vector
        ensures lacks_both_bits { cells_of result ≡ freed_of (cells_of self.now) input }
        ensures frees_that_cell_alone { FreesOnly input (cells_of self.now) (cells_of result) }
    {
        let care = without(self.care, input);
        let value = without(self.value, input);
        Vector { care, value }
    }
}
