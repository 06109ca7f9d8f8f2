// Why no sheet is printed, or why what is printed is the line of a bad card: the card's fault inside the sheet's, number and offset kept.
ghost use Rattle.std.specs.Prelude.{◌≡◌};
ghost use Rattle.sheets.specs.Refusals.{sheet_fault_of, sheet_number, sheet_offset};
ghost use Rattle.sheets.specs.declared.fault.SheetFault.TheVariants.{Memory as OfMemory};

use reading::fault::CardFault;
use std::alloc::AllocError;

#[derive(Clone, Copy)]
pub enum SheetFault {
    // The buffer has less room than a sheet may need.
    Room,
    // There is no memory for the work.
    Memory,
    // The bytes are no card.
    Card(CardFault),
}

impl SheetFault {
    // The number of the refusal: 24, that of the card's fault, or 0 for want of memory.
    pub fn number(self) -> u8
        ensures is_the_faults_number { result ≡ sheet_number self }
    {
        match self {
            SheetFault::Room => 24,
            SheetFault::Memory => 0,
            SheetFault::Card(fault) => fault.number(),
        }
    }

    // Where the card's rule is broken; 0 for the others.
    pub fn offset(self) -> usize
        ensures is_the_faults_offset { result ≡ sheet_offset self }
    {
        match self {
            SheetFault::Room | SheetFault::Memory => 0,
            SheetFault::Card(fault) => fault.offset(),
        }
    }
}

impl From<CardFault> for SheetFault {
    ghost from_gives = { λ x r. r ≡ sheet_fault_of x };

    fn from(fault: CardFault) -> SheetFault {
        match fault {
            CardFault::Memory => SheetFault::Memory,
            _ => SheetFault::Card(fault),
        }
    }
}

impl From<AllocError> for SheetFault {
    ghost from_gives = { λ _ r. r ≡ OfMemory };

    fn from(_error: AllocError) -> SheetFault {
        SheetFault::Memory
    }
}
