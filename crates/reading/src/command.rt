// One command of a card's bytes, with its operands.
ghost use Rattle.std.specs.Prelude.{◌≡◌, ℕ, ◌≤◌};
ghost use Rattle.reading.specs.Commands.{size_of};

use card::gate::{Gate, Operands};

#[derive(Clone, Copy)]
pub enum Command {
    AddInput,
    AddGate(Gate),
    AddOutput(u16),
    End,
}

impl Command {
    // How many bytes the command has: one, and two for each operand.
    pub fn size(self) -> usize
        ensures is_one_byte_and_two_for_each_operand { result ≡ size_of self }
        ensures one_to_five { (1 ≤ result) × (result ≤ 5) }
    {
        match self {
            Command::AddInput | Command::End => 1,
            Command::AddOutput(_) => 3,
            Command::AddGate(gate) => match gate.operands {
                Operands::None => 1,
                Operands::One(_) => 3,
                Operands::Two(_, _) => 5,
            },
        }
    }
}
