// What is told of a card that cannot be read: the number of the refusal and its offset.
// Any two numbers make one, since any could always be put; a card's fault gives its own.
ghost use Rattle.std.specs.Prelude.{◌≡◌};
ghost use Rattle.reading.specs.Refusals.{refusal_number, refusal_offset};

use reading::fault::CardFault;

#[derive(Clone, Copy)]
pub struct CardRefusal {
    pub number: u8,
    pub offset: usize,
}

impl From<CardFault> for CardRefusal {
    ghost from_gives = { λ x r. (r.number ≡ refusal_number x) × (r.offset ≡ refusal_offset x) };

    fn from(fault: CardFault) -> CardRefusal {
        CardRefusal {
            number: fault.number(),
            offset: fault.offset(),
        }
    }
}
