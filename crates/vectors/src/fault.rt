// Why two numbers are refused as a test vector, and the number that the refusal is reported by.
ghost use Rattle.std.specs.Prelude.{◌≡◌};
ghost use Rattle.vectors.specs.Refusals.{vector_refusal};

#[derive(Clone, Copy)]
pub enum VectorFault {
    // An input that the card does not have is fixed, or a free input has a bit.
    NotInForm = 16,
}

impl VectorFault {
    // The number of the refusal.
    pub fn number(self) -> u8
        ensures is_the_refusals_number { result ≡ vector_refusal self }
    {
        self as u8
    }
}
