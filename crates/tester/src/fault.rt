// Why the tester is refused: a bad card, numbers that are no vector, or too little room for the characters.
// Every case has its number; a fault of the card is carried whole.
ghost use Rattle.std.specs.Prelude.{◌≡◌, ◌≤◌};
ghost use Rattle.tester.specs.Refusals.{tester_number};
ghost use Rattle.tester.specs.declared.fault.TesterFault.TheVariants.{Card as OfCard, Vector as OfVector};

use reading::fault::CardFault;
use vectors::fault::VectorFault;

#[derive(Clone, Copy)]
pub enum TesterFault {
    // The bytes are no card, or there is no memory to hold it.
    Card(CardFault),
    // The two numbers are no vector of the card.
    Vector(VectorFault),
    // The buffer has less room than the card has outputs.
    Room,
}

impl TesterFault {
    // The number of the refusal: that of the card's fault, 16 or 25.
    pub fn number(self) -> u8
        ensures is_the_refusals_number { result ≡ tester_number self }
        ensures at_most_twenty_five { result ≤ 25 }
    {
        // A match: a fault that carries another has the number of that one.
        match self {
            TesterFault::Card(fault) => fault.number(),
            TesterFault::Vector(fault) => fault.number(),
            TesterFault::Room => 25,
        }
    }
}

impl From<CardFault> for TesterFault {
    ghost from_gives = { λ x r. r ≡ OfCard x };

    fn from(fault: CardFault) -> TesterFault {
        TesterFault::Card(fault)
    }
}

impl From<VectorFault> for TesterFault {
    ghost from_gives = { λ x r. r ≡ OfVector x };

    fn from(fault: VectorFault) -> TesterFault {
        TesterFault::Vector(fault)
    }
}
