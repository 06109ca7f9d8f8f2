// Why two vectors cannot be merged, and the number that the refusal is reported by.
ghost use Rattle.std.specs.Prelude.{◌≡◌};
ghost use Rattle.vectors.specs.Refusals.{merge_refusal};

#[derive(Clone, Copy)]
pub enum MergeFault {
    // Some input is fixed to opposite bits.
    OppositeBits = 18,
}

impl MergeFault {
    // The number of the refusal.
    pub fn number(self) -> u8
        ensures is_the_refusals_number { result ≡ merge_refusal self }
    {
        self as u8
    }
}
