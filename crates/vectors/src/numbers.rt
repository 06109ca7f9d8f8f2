// A vector made from its two numbers, which are refused unless they are in form, and the numbers of a vector.
ghost use Rattle.std.specs.Prelude.{◌≡◌, ◌^◌, is_ok, Decides, MatchResult, bit_and, nat_lt};
ghost use Rattle.vectors.specs.Vectors.{holding, InForm, in_form};
ghost use Rattle.vectors.specs.Views.{cells_of};
ghost use Rattle.vectors.specs.declared.fault.VectorFault.TheVariants.{NotInForm};

use crate::fault::VectorFault;
use crate::vector::Vector;

// Whether a number has no bit from a place on.
fn below(number: u32, place: usize) -> bool
    ensures is_below_the_power { result ≡ nat_lt number (2 ^ place) }
{
    place >= 32 || number >> place == 0
}

impl Vector {
    // The vector of two numbers, for a card of so many inputs.
    pub fn new(inputs: usize, care: u32, value: u32) -> Result<Vector, VectorFault>
        ensures taken_exactly_if_in_form { is_ok result ≡ in_form inputs care value }
        ensures in_form_means_bit_by_bit { Decides (is_ok result) (InForm inputs (holding care value)) }
        ensures holds_both_numbers { MatchResult result (λ v. cells_of v ≡ holding care value) (λ e. e ≡ NotInForm) }
    {
        if below(care, inputs) && value & care == value {
            Ok(Vector { care, value })
        } else {
            Err(VectorFault::NotInForm)
        }
    }

    // Bit j is 1 where input j is fixed.
    pub fn care(&self) -> u32
        ensures is_the_care_number { result ≡ (cells_of self.now).care }
    {
        self.care
    }

    // Bit j is the bit of input j, and 0 where it is free.
    pub fn value(&self) -> u32
        ensures is_the_value_number { result ≡ (cells_of self.now).value }
        ensures no_bit_without_care { bit_and result (cells_of self.now).care ≡ result }
    {
        self.value
    }
}
