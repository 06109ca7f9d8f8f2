// Reading a card: the bytes' commands, one after the other, into a draft, and the draft into the card that the caller lends.
// A refusal leaves the lent card; memory is asked for last, when the bytes are known to spell a card.
ghost use Rattle.std.specs.Prelude.{◌≡◌, ℕ, ◌+◌, ◌-◌, ◌^◌, ◌<◌, ◌≤◌, false, length, IfSome, IfOk, IfErr, Some, None, Ok, Err, MatchResult, OnErr, OnOk, ◌≢◌};
ghost use Rattle.reading.specs.Commands.{adds, late, overfull};
ghost use Rattle.reading.specs.Drafts.{draft_of};
ghost use Rattle.reading.specs.Reading.{Stepped, nothing, reading, step_of};
ghost use Rattle.card.specs.Netlists.{Lawful, Netlist};
ghost use Rattle.reading.specs.Refusals.{refusal_number, refusal_offset};
ghost use Rattle.reading.specs.Rules.{Accepted, Agree, Refused};
ghost use Rattle.card.specs.Views.{netlist_of};
ghost use Rattle.reading.specs.declared.fault.CardFault.TheVariants.{Memory};

use crate::command::Command;
use crate::decode::decode;
use crate::draft::Draft;
use crate::fault::*;
use crate::judge::judge;
use arrayvec::ArrayVec;
use card::netlist::Card;
use std::alloc::{AllocError, Global};

impl Draft {
    // A draft in which nothing is declared.
    fn new() -> Draft
        ensures declares_nothing { draft_of result ≡ nothing }
    {
        Draft {
            gates: ArrayVec::new(),
            outputs: ArrayVec::new(),
            inputs: 0,
        }
    }

    // What the command declares, added to the draft.
    fn add(&mut self, command: Command)
        requires not_late { late (draft_of self.old) command ≡ false }
        requires not_overfull { overfull (draft_of self.old) command ≡ false }
        ensures holds_one_declaration_more { draft_of self.new ≡ adds (draft_of self.old) command }
    {
        match command {
            Command::AddInput => self.inputs += 1,
            Command::AddGate(gate) => self.gates.push(gate),
            Command::AddOutput(net) => self.outputs.push(net),
            Command::End => {}
        }
    }
}

// One command more: the bytes that it takes, or none where it ends the card.
fn step(draft: &mut Draft, rest: &[u8], at: usize) -> Result<Option<usize>, CardFault>
    requires { at < 2 ^ 63 }
    ensures goes_one_command_on { Stepped (step_of (draft_of draft.old) rest.now at) result (draft_of draft.old) (draft_of draft.new) }
    ensures stays_within_the_bytes { IfOk result (λ o. IfSome o (λ size. (1 ≤ size) × (size ≤ length rest.now))) }
{
    let command = decode(rest, at)?;
    judge(draft, command, at)?;
    match command {
        Command::End if rest.len() > 1 => Err(CardFault::Trailing(at + 1)),
        Command::End => Ok(None),
        _ => {
            draft.add(command);
            Ok(Some(command.size()))
        }
    }
}

// The bytes' commands, up to the end of the card, gathered in a draft in which nothing is declared.
// The draft is lent, since an answer that holds it would be copied, two kilobytes and more.
// The offset is counted by hand: each command says how many bytes it takes, and the faults name it.
fn gather(draft: &mut Draft, bytes: &[u8]) -> Result<(), CardFault>
    requires { draft_of draft.old ≡ nothing }
    ensures holds_what_the_bytes_say { MatchResult result (λ _. reading bytes.now ≡ Ok (draft_of draft.new)) (λ e. reading bytes.now ≡ Err e) }
{
    let mut at = 0;
    while let Some(size) = step(draft, &bytes[at..], at)? {
        at += size;
    }
    Ok(())
}

// The elements in memory of their own, as much as they need. One by one: the kit's `from_slice` makes the archive for C ask the C
// library for `memmove`, which no other call needs.
fn owned<T: Copy>(heap: Global, elements: &[T]) -> Result<Vec<T>, AllocError>
    ensures holds_the_elements { IfOk result (λ v. v.items ≡ elements.now) }
{
    let mut list = Vec::with_capacity(heap, elements.len())?;
    for element in elements {
        list.push_reserved(*element);
    }
    Ok(list)
}

// A draft that keeps the rules of a card, as a card.
fn card_of(heap: Global, draft: &Draft) -> Result<Card, AllocError>
    requires { Lawful (draft_of draft.now) }
    ensures holds_the_draft { IfOk result (λ card. netlist_of card ≡ draft_of draft.now) }
{
    let gates = owned(heap, draft.gates.as_slice())?;
    let outputs = owned(heap, draft.outputs.as_slice())?;
    Ok(Card::assemble(draft.inputs, gates, outputs))
}

// The card that the bytes spell, by value.
#[tactic(auto, using(crate::proofs::Ruled::agree))]
pub fn from_bytes(heap: Global, bytes: &[u8]) -> Result<Card, CardFault>
    ensures accepted_bytes_spell_the_card { IfOk result (λ card. Accepted bytes.now (netlist_of card)) }
    ensures a_refusal_names_the_first_broken_rule_and_its_place { IfErr result (λ e. (e ≢ Memory) → Refused bytes.now (refusal_number e) (refusal_offset e)) }
    ensures want_of_memory_refuses_only_bytes_that_spell_a_card { IfErr result (λ e. e ≡ Memory → (n : Netlist) × Accepted bytes.now n) }
    ensures is_what_the_definition_reads { MatchResult result (λ card. reading bytes.now ≡ Ok (netlist_of card)) (λ e. (e ≢ Memory) → reading bytes.now ≡ Err e) }
    ensures definition_and_rules_agree { Agree }
{
    let mut draft = Draft::new();
    gather(&mut draft, bytes)?;
    let spelled_card = card_of(heap, &draft)?;
    Ok(spelled_card)
}

// The card that the bytes spell, written whole over a card that the caller lends.
#[tactic(auto, using(crate::proofs::Ruled::agree))]
pub fn read(heap: Global, bytes: &[u8], card: &mut Card) -> Result<(), CardFault>
    ensures accepted_bytes_spell_the_card_held { OnOk result (Accepted bytes.now (netlist_of card.new)) }
    ensures a_refusal_names_the_first_broken_rule_and_its_place { IfErr result (λ e. (e ≢ Memory) → Refused bytes.now (refusal_number e) (refusal_offset e)) }
    ensures want_of_memory_refuses_only_bytes_that_spell_a_card { IfErr result (λ e. e ≡ Memory → (n : Netlist) × Accepted bytes.now n) }
    ensures a_refusal_keeps_the_lent_card { OnErr result (card.new ≡ card.old) }
    ensures is_what_the_definition_reads { MatchResult result (λ _. reading bytes.now ≡ Ok (netlist_of card.new)) (λ e. (e ≢ Memory) → reading bytes.now ≡ Err e) }
    ensures definition_and_rules_agree { Agree }
{
    let spelled_card = from_bytes(heap, bytes)?;
    *card = spelled_card;
    Ok(())
}
