// A number in decimal digits, the highest first.
ghost use Rattle.std.specs.Prelude.{◌≡◌, ◌<◌, decimal, slice_index};
ghost use Rattle.std.specs.Str.Parse.{IsNumeral, digits_value};
ghost use Rattle.page.specs.Pages.{putting};
ghost use Rattle.page.specs.Views.{filled_of};

use crate::buffer::Page;
use itoa::Buffer;

impl<'a> Page<'a> {
    // Puts a number behind the text.
    #[tactic(auto, using(std::proofs::lemmas::Fmt::decimal_is_IsNumeral, std::proofs::lemmas::Fmt::first_decimal))]
    pub fn number(&mut self, number: usize)
        ensures puts_its_digits { filled_of self.new ≡ putting (decimal number) (filled_of self.old) }
        ensures the_digits_read_back { (IsNumeral 10 (decimal number)) × (digits_value 10 (decimal number) ≡ number) }
        ensures no_zero_leads { 0 < number → 48 < slice_index (decimal number) 0 }
    {
        self.put(Buffer::new().format(number).as_bytes());
    }
}
