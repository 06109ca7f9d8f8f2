// Why a job refuses a call, one kind of refusal for each call; each case has the number that it is reported by.
ghost use Rattle.std.specs.Prelude.{◌≡◌, Some};
ghost use Rattle.faults.specs.Refusals.{refused_text};
ghost use Rattle.history.specs.declared.refusal.AddRefusal.TheVariants.{NotInForm as OutOfForm};
ghost use Rattle.history.specs.declared.refusal.MergeRefusal.TheVariants.{OppositeBits as Opposed};
ghost use Rattle.history.specs.Refusals.{add_number, close_number, merge_number, search_number, take_number, vector_number};

use std::fmt;
use vectors::fault::VectorFault;
use vectors::merge_fault::MergeFault;

#[derive(Clone, Copy)]
pub enum TakeRefusal {
    // The card has no fault of this number.
    NoSuchFault = 9,
    // The fault is taken.
    Taken = 10,
    // The fault is detected or untestable already.
    Decided = 11,
}

#[derive(Clone, Copy)]
pub enum SearchRefusal {
    // The fault of the ticket to search with is not taken in this job.
    NotTaken = 12,
    // It is detected or untestable already.
    Decided = 13,
    // The list has no place for a vector that may be found.
    Full = 14,
}

#[derive(Clone, Copy)]
pub enum CloseRefusal {
    // The fault of the ticket to close is not taken in this job.
    NotTaken = 12,
}

// Of a sweep, and of showing a vector.
#[derive(Clone, Copy)]
pub enum VectorRefusal {
    // The list has no vector of this number.
    NoSuchVector = 15,
}

#[derive(Clone, Copy)]
pub enum AddRefusal {
    // An input that the card does not have is fixed, or a free input has a bit.
    NotInForm = 16,
    // The list holds as many vectors as it can.
    Full = 14,
}

#[derive(Clone, Copy)]
pub enum MergeRefusal {
    // The list has no vector of one of the two numbers.
    NoSuchVector = 15,
    // The two numbers are one.
    SameVector = 17,
    // Some input is fixed to opposite bits.
    OppositeBits = 18,
}

// Six of one form, here and below: a trait for them would need as many impls.
impl TakeRefusal {
    // The number of the refusal.
    pub fn number(self) -> u8
        ensures is_the_refusals_number { result ≡ take_number self }
    {
        self as u8
    }
}

impl SearchRefusal {
    // The number of the refusal.
    pub fn number(self) -> u8
        ensures is_the_refusals_number { result ≡ search_number self }
    {
        self as u8
    }
}

impl CloseRefusal {
    // The number of the refusal.
    pub fn number(self) -> u8
        ensures is_the_refusals_number { result ≡ close_number self }
    {
        self as u8
    }
}

impl VectorRefusal {
    // The number of the refusal.
    pub fn number(self) -> u8
        ensures is_the_refusals_number { result ≡ vector_number self }
    {
        self as u8
    }
}

impl AddRefusal {
    // The number of the refusal.
    pub fn number(self) -> u8
        ensures is_the_refusals_number { result ≡ add_number self }
    {
        self as u8
    }
}

impl MergeRefusal {
    // The number of the refusal.
    pub fn number(self) -> u8
        ensures is_the_refusals_number { result ≡ merge_number self }
    {
        self as u8
    }
}

// Whoever only looks at a job meets this one of them alone.
impl fmt::Display for VectorRefusal {
    ghost output = { λ why. Some (refused_text (vector_number why)) };

    fn fmt<W: fmt::Write>(&self, f: &mut fmt::Formatter<W>) -> fmt::Result {
        let number = self.number();
        write!(f, "refused {number}")
    }
}

impl From<VectorFault> for AddRefusal {
    ghost from_gives = { λ _ r. r ≡ OutOfForm };

    fn from(fault: VectorFault) -> AddRefusal {
        match fault {
            VectorFault::NotInForm => AddRefusal::NotInForm,
        }
    }
}

impl From<MergeFault> for MergeRefusal {
    ghost from_gives = { λ _ r. r ≡ Opposed };

    fn from(fault: MergeFault) -> MergeRefusal {
        match fault {
            MergeFault::OppositeBits => MergeRefusal::OppositeBits,
        }
    }
}
