// Why a fault number is refused.
// The case has the number that the refusal is reported by, and is shown by it.
ghost use Rattle.std.specs.Prelude.{◌≡◌, Some};
ghost use Rattle.faults.specs.Refusals.{fault_refusal, refused_text};

use std::fmt;

#[derive(Clone, Copy)]
pub enum FaultRefusal {
    // The card has no fault of this number.
    NoSuchFault = 9,
}

impl FaultRefusal {
    // The number of the refusal.
    pub fn number(self) -> u8
        ensures is_the_refusals_number { result ≡ fault_refusal self }
    {
        self as u8
    }
}

impl fmt::Display for FaultRefusal {
    ghost output = { λ why. Some (refused_text (fault_refusal why)) };

    fn fmt<W: fmt::Write>(&self, f: &mut fmt::Formatter<W>) -> fmt::Result {
        let number = self.number();
        write!(f, "refused {number}")
    }
}
