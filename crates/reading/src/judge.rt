// Judging: which rule a decoded command breaks, seen from the card so far.
// The rules are tested in the order of their numbers, 3 to 7.
ghost use Rattle.std.specs.Prelude.{◌≡◌, ℕ, ◌+◌, ◌<◌, true, false, Some, None, Ok, Err, MatchResult};
ghost use Rattle.reading.specs.Drafts.{draft_of};
ghost use Rattle.card.specs.Netlists.{all_below, nets_read, nets};
ghost use Rattle.reading.specs.Reading.{fault_of};
ghost use Rattle.reading.specs.declared.fault.OperandFault.TheVariants.{Undeclared};

use crate::command::Command;
use crate::draft::Draft;
use crate::fault::*;
use card::gate::Operands;

// Refuses an operand that is no net declared already.
fn all_declared(operands: Operands, nets: usize, at: usize) -> Result<(), OperandFault>
    ensures refuses_an_undeclared_operand { MatchResult result (λ _. all_below nets (nets_read operands) ≡ true) (λ e. (e ≡ Undeclared at) × (all_below nets (nets_read operands) ≡ false)) }
{
    let declared = match operands {
        Operands::None => true,
        Operands::One(only) => (only as usize) < nets,
        Operands::Two(first, second) => (first as usize) < nets && (second as usize) < nets,
    };
    if declared {
        Ok(())
    } else {
        Err(OperandFault::Undeclared(at))
    }
}

// The first rule that the command breaks, if any.
pub fn judge(draft: &Draft, command: Command, at: usize) -> Result<(), CardFault>
    ensures refuses_the_first_broken_rule { MatchResult result (λ _. fault_of (draft_of draft.now) command at ≡ None) (λ e. fault_of (draft_of draft.now) command at ≡ Some e) }
{
    let nets = draft.inputs as usize + draft.gates.len();
    match command {
        Command::AddInput if !draft.gates.is_empty() => Err(CardFault::LateInput(at)),
        Command::AddInput if draft.inputs >= 32 => Err(CardFault::Limit(at)),
        Command::AddGate(_) if nets >= 256 => Err(CardFault::Limit(at)),
        Command::AddOutput(_) if draft.outputs.is_full() => Err(CardFault::Limit(at)),
        Command::End if draft.inputs == 0 || draft.outputs.is_empty() => {
            Err(CardFault::Incomplete(at))
        }
        Command::AddGate(gate) => {
            all_declared(gate.operands, nets, at)?;
            Ok(())
        }
        Command::AddOutput(net) => {
            all_declared(Operands::One(net), nets, at)?;
            if draft.outputs.contains(&net) {
                return Err(CardFault::NamedTwice(at));
            }
            Ok(())
        }
        Command::AddInput | Command::End => Ok(()),
    }
}
