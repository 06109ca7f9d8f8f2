// Decoding: which command the bytes begin with, or which of the first two rules they break.
// Nothing here knows the card so far; the rules that do are tested afterwards.
ghost use Rattle.std.specs.Prelude.{◌≡◌, ℕ, ◌+◌, ◌*◌, ◌<◌, ◌≤◌, length, IfOk, OnOk};
ghost use Rattle.reading.specs.Commands.{size_of};
ghost use Rattle.card.specs.Netlists.{nets_read};
ghost use Rattle.reading.specs.Reading.{command_at, net_at, operands_at};

use crate::command::Command;
use crate::fault::*;
use card::function::Function;
use card::gate::{Gate, Operands};

// The net number that stands at a place of the command, high byte first.
fn net_at(rest: &[u8], place: usize, at: usize) -> Result<u16, OperandFault>
    requires { place ≤ 3 }
    ensures is_the_operand_or_cut { result ≡ net_at rest.now place at }
    ensures lies_within_the_bytes { OnOk result (place + 2 ≤ length rest.now) }
{
    if place + 1 >= rest.len() {
        return Err(OperandFault::Cut(at));
    }
    Ok(u16::from_be_bytes([rest[place], rest[place + 1]]))
}

// The operands that follow a gate command's first byte.
fn operands_at(rest: &[u8], count: usize, at: usize) -> Result<Operands, OperandFault>
    requires { 0 < length rest.now }
    ensures are_the_operands_or_cut { result ≡ operands_at rest.now count at }
    ensures lie_within_the_bytes { IfOk result (λ os. 1 + 2 * length (nets_read os) ≤ length rest.now) }
{
    match count {
        0 => Ok(Operands::None),
        1 => {
            let only = net_at(rest, 1, at)?;
            Ok(Operands::One(only))
        }
        _ => {
            let first = net_at(rest, 1, at)?;
            let second = net_at(rest, 3, at)?;
            Ok(Operands::Two(first, second))
        }
    }
}

// The command that the bytes begin with; `at` is the offset that a fault names.
pub fn decode(rest: &[u8], at: usize) -> Result<Command, CardFault>
    ensures is_the_command_or_its_fault { result ≡ command_at rest.now at }
    ensures lies_within_the_bytes { IfOk result (λ c. size_of c ≤ length rest.now) }
{
    let Some(first) = rest.first() else {
        return Err(CardFault::Ended(at));
    };
    match *first {
        0x20 => Ok(Command::AddInput),
        byte @ 0x30..=0x39 => {
            let function = Function::try_from(byte - 0x30).unwrap();
            let operands = operands_at(rest, function.pins(), at)?;
            Ok(Command::AddGate(Gate { function, operands }))
        }
        0x40 => {
            let net = net_at(rest, 1, at)?;
            Ok(Command::AddOutput(net))
        }
        0x7f => Ok(Command::End),
        _ => Err(CardFault::Unknown(at)),
    }
}
