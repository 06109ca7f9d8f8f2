// Writing a card: its canonical bytes, which read back to the same card.
ghost use Rattle.std.specs.Prelude.{◌≡◌, ℕ, ◌/◌, ◌++◌, IfOk, Ok, OnOk};
ghost use Rattle.reading.specs.Commands.{spelled};
ghost use Rattle.reading.specs.Reading.{reading};
ghost use Rattle.reading.specs.Rules.{Accepted};
ghost use Rattle.card.specs.Views.{netlist_of};
ghost use Rattle.reading.specs.Writing.{gates_written, outputs_written, written};
ghost use Rattle.reading.specs.declared.command.Command.TheVariants.{AddGate, AddOutput};

use card::gate::{Gate, Operands};
use card::netlist::Card;
use std::alloc::{AllocError, Global};

// The command and its operands, each high byte first, in one append.
fn write_gate(bytes: &mut Vec<u8>, gate: Gate) -> Result<(), AllocError>
    ensures appends_the_gate_command { OnOk result (bytes.new.items ≡ bytes.old.items ++ spelled (AddGate gate)) }
{
    let command = 0x30 + gate.function.number();
    match gate.operands {
        Operands::None => bytes.push(command)?,
        Operands::One(only) => {
            let [high, low] = only.to_be_bytes();
            bytes.extend_from_slice(&[command, high, low])?;
        }
        Operands::Two(first, second) => {
            let [high, low] = first.to_be_bytes();
            let [second_high, second_low] = second.to_be_bytes();
            bytes.extend_from_slice(&[command, high, low, second_high, second_low])?;
        }
    }
    Ok(())
}

fn write_output(bytes: &mut Vec<u8>, net: u16) -> Result<(), AllocError>
    ensures appends_the_output_command { OnOk result (bytes.new.items ≡ bytes.old.items ++ spelled (AddOutput net)) }
{
    let [high, low] = net.to_be_bytes();
    bytes.extend_from_slice(&[0x40, high, low])
}

// Apart from `write_outputs`: one function over both would be handed the writing of one element, and its law with it.
fn write_gates(bytes: &mut Vec<u8>, gates: &[Gate]) -> Result<(), AllocError>
    ensures appends_the_gates { OnOk result (bytes.new.items ≡ bytes.old.items ++ gates_written gates.now) }
{
    for gate in gates {
        write_gate(bytes, *gate)?;
    }
    Ok(())
}

fn write_outputs(bytes: &mut Vec<u8>, outputs: &[u16]) -> Result<(), AllocError>
    ensures appends_the_outputs { OnOk result (bytes.new.items ≡ bytes.old.items ++ outputs_written outputs.now) }
{
    for net in outputs {
        write_output(bytes, *net)?;
    }
    Ok(())
}

// The canonical bytes of a card.
pub fn write(heap: Global, card: &Card) -> Result<Vec<u8>, AllocError>
    ensures is_the_canonical_writing { IfOk result (λ bytes. bytes.items ≡ written (netlist_of card.now)) }
    ensures reads_back_to_the_card { IfOk result (λ bytes. reading bytes.items ≡ Ok (netlist_of card.now)) }
    ensures spells_the_card { IfOk result (λ bytes. Accepted bytes.items (netlist_of card.now)) }
{
    let mut bytes = vec![in heap; 0x20; card.inputs()]?;
    write_gates(&mut bytes, card.gates())?;
    write_outputs(&mut bytes, card.outputs())?;
    bytes.push(0x7f)?;
    Ok(bytes)
}
