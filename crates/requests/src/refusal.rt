// Why a request was refused: the refusal of its call, carried whole, with its number, by which it is shown.
ghost use Rattle.std.specs.Prelude.{◌≡◌, Some};
ghost use Rattle.faults.specs.Refusals.{refused_text};
ghost use Rattle.requests.specs.Refusals.{refusal_number};
ghost use Rattle.requests.specs.declared.refusal.Refusal.TheVariants.{Add as OfAdd, Close as OfClose, Merge as OfMerge, Search as OfSearch, Sweep as OfSweep, Take as OfTake};

use history::refusal::{
    AddRefusal, CloseRefusal, MergeRefusal, SearchRefusal, TakeRefusal, VectorRefusal,
};
use std::fmt;

#[derive(Clone, Copy)]
pub enum Refusal {
    Take(TakeRefusal),
    Search(SearchRefusal),
    Close(CloseRefusal),
    Sweep(VectorRefusal),
    Add(AddRefusal),
    Merge(MergeRefusal),
}

impl Refusal {
    // The number of the refusal.
    pub fn number(self) -> u8
        ensures is_the_refusals_number { result ≡ refusal_number self }
    {
        match self {
            Refusal::Take(why) => why.number(),
            Refusal::Search(why) => why.number(),
            Refusal::Close(why) => why.number(),
            Refusal::Sweep(why) => why.number(),
            Refusal::Add(why) => why.number(),
            Refusal::Merge(why) => why.number(),
        }
    }
}

impl fmt::Display for Refusal {
    ghost output = { λ why. Some (refused_text (refusal_number why)) };

    fn fmt<W: fmt::Write>(&self, f: &mut fmt::Formatter<W>) -> fmt::Result {
        let number = self.number();
        write!(f, "refused {number}")
    }
}

impl From<TakeRefusal> for Refusal {
    ghost from_gives = { λ x r. r ≡ OfTake x };

    fn from(why: TakeRefusal) -> Refusal {
        Refusal::Take(why)
    }
}

impl From<SearchRefusal> for Refusal {
    ghost from_gives = { λ x r. r ≡ OfSearch x };

    fn from(why: SearchRefusal) -> Refusal {
        Refusal::Search(why)
    }
}

impl From<CloseRefusal> for Refusal {
    ghost from_gives = { λ x r. r ≡ OfClose x };

    fn from(why: CloseRefusal) -> Refusal {
        Refusal::Close(why)
    }
}

// Of the calls that name a listed vector by its number, only a sweep is a request.
impl From<VectorRefusal> for Refusal {
    ghost from_gives = { λ x r. r ≡ OfSweep x };

    fn from(why: VectorRefusal) -> Refusal {
        Refusal::Sweep(why)
    }
}

impl From<AddRefusal> for Refusal {
    ghost from_gives = { λ x r. r ≡ OfAdd x };

    fn from(why: AddRefusal) -> Refusal {
        Refusal::Add(why)
    }
}

impl From<MergeRefusal> for Refusal {
    ghost from_gives = { λ x r. r ≡ OfMerge x };

    fn from(why: MergeRefusal) -> Refusal {
        Refusal::Merge(why)
    }
}
