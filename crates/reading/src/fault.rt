// Why card bytes are refused: the rule that is broken and where, an operand's fault inside the card's.
// Every case has its number, which the programs print and the tester's call answers.
ghost use Rattle.std.specs.Prelude.{◌≡◌, ℕ, ◌≤◌, Some};
ghost use Rattle.reading.specs.Refusals.{operand_number, operand_offset, refusal_line, refusal_number, refusal_offset};
ghost use Rattle.reading.specs.declared.fault.CardFault.TheVariants.{Memory, Operand};

use std::alloc::AllocError;
use std::fmt;

// A fault of the operands of one command, at the offset of that command.
#[derive(Clone, Copy)]
pub enum OperandFault {
    // The bytes end inside the command.
    Cut(usize),
    // An operand is not a net that was declared earlier.
    Undeclared(usize),
}

// Why a card is refused. Each offset is that of the command's first byte, but where it is said otherwise.
#[derive(Clone, Copy)]
pub enum CardFault {
    // No command begins with this byte.
    Unknown(usize),
    // The bytes end between two commands, before the end command; the offset is their length.
    Ended(usize),
    // A fault of an operand.
    Operand(OperandFault),
    // An input is declared after a gate.
    LateInput(usize),
    // One input, net or output more than a card may have.
    Limit(usize),
    // An output is named a second time.
    NamedTwice(usize),
    // The card ends without an input, or without an output.
    Incomplete(usize),
    // Bytes follow the end command; the offset is that of the first.
    Trailing(usize),
    // The bytes spell a card, but there is no memory to hold it.
    Memory,
}

impl OperandFault {
    // The number of the broken rule.
    pub fn number(self) -> u8
        ensures is_the_operand_faults_number { result ≡ operand_number self }
    {
        match self {
            OperandFault::Cut(_) => 2,
            OperandFault::Undeclared(_) => 5,
        }
    }

    // Where the command stands.
    pub fn offset(self) -> usize
        ensures is_the_operand_faults_offset { result ≡ operand_offset self }
    {
        match self {
            OperandFault::Cut(at) | OperandFault::Undeclared(at) => at,
        }
    }
}

impl CardFault {
    // The number of the broken rule, 1 to 8; 0 for want of memory, which breaks none.
    pub fn number(self) -> u8
        ensures is_the_refusals_number { result ≡ refusal_number self }
        ensures at_most_eight { result ≤ 8 }
    {
        match self {
            CardFault::Unknown(_) => 1,
            CardFault::Ended(_) => 2,
            CardFault::Operand(fault) => fault.number(),
            CardFault::LateInput(_) => 3,
            CardFault::Limit(_) => 4,
            CardFault::NamedTwice(_) => 6,
            CardFault::Incomplete(_) => 7,
            CardFault::Trailing(_) => 8,
            CardFault::Memory => 0,
        }
    }

    // Where the rule is broken; 0 for want of memory.
    pub fn offset(self) -> usize
        ensures is_the_refusals_offset { result ≡ refusal_offset self }
    {
        match self {
            CardFault::Operand(fault) => fault.offset(),
            CardFault::Unknown(at)
            | CardFault::Ended(at)
            | CardFault::LateInput(at)
            | CardFault::Limit(at)
            | CardFault::NamedTwice(at)
            | CardFault::Incomplete(at)
            | CardFault::Trailing(at) => at,
            CardFault::Memory => 0,
        }
    }
}

impl From<OperandFault> for CardFault {
    ghost from_gives = { λ x r. r ≡ Operand x };

    fn from(fault: OperandFault) -> CardFault {
        CardFault::Operand(fault)
    }
}

impl From<AllocError> for CardFault {
    ghost from_gives = { λ _ r. r ≡ Memory };

    fn from(_error: AllocError) -> CardFault {
        CardFault::Memory
    }
}

impl fmt::Display for CardFault {
    ghost output = { λ e. Some (refusal_line (refusal_number e) (refusal_offset e)) };

    fn fmt<W: fmt::Write>(&self, f: &mut fmt::Formatter<W>) -> fmt::Result {
        let number = self.number();
        let offset = self.offset();
        write!(f, "card refused {number} at {offset}")
    }
}
