// The call of the tester's C program: card bytes, care, value and a buffer for the characters.
// It answers the number of outputs, or 100 plus the number of the refusal; a refusal leaves the buffer.
ghost use Rattle.std.specs.Prelude.{◌≡◌, ℕ, ◌+◌, ◌≤◌, length, IfOk, Err, OnErr, ◌≢◌};
ghost use Rattle.card.specs.Netlists.{Netlist};
ghost use Rattle.reading.specs.Reading.{reading};
ghost use Rattle.reading.specs.Rules.{Accepted};
ghost use Rattle.tester.specs.Expecting.{answer_of, code_of, expectation, left_in, no_memory};

use crate::fault::*;
use crate::outputs::expected_outputs;
use reading::read::from_bytes;
use std::alloc::Global;
use vectors::vector::Vector;

// The same with the refusal as a value, the card's fault carried whole.
pub fn expect_from_bytes(
    heap: Global,
    bytes: &[u8],
    care: u32,
    value: u32,
    out: &mut [u8],
) -> Result<usize, TesterFault>
    ensures answers_what_is_expected { (result ≢ Err no_memory) → result ≡ answer_of (expectation (reading bytes.now) care value (length out.old)) }
    ensures leaves_what_is_expected { (result ≢ Err no_memory) → out.new ≡ left_in (expectation (reading bytes.now) care value (length out.old)) out.old }
    ensures want_of_memory_refuses_only_a_lawful_card { result ≡ Err no_memory → (n : Netlist) × Accepted bytes.now n }
    ensures answers_one_to_thirty_two { IfOk result (λ m. (1 ≤ m) × (m ≤ 32)) }
    ensures a_refusal_leaves_the_buffer { OnErr result (out.new ≡ out.old) }
{
    let card = from_bytes(heap, bytes)?;
    let vector = Vector::new(card.inputs(), care, value)?;
    expected_outputs(&card, &vector, out)
}

// What the tester's C program calls, through the crate `tester_c`.
pub fn expect(heap: Global, bytes: &[u8], care: u32, value: u32, out: &mut [u8]) -> u32
    ensures answers_what_is_expected { (result ≢ 100) → result ≡ code_of (answer_of (expectation (reading bytes.now) care value (length out.old))) }
    ensures leaves_what_is_expected { (result ≢ 100) → out.new ≡ left_in (expectation (reading bytes.now) care value (length out.old)) out.old }
    ensures one_hundred_is_want_of_memory_for_a_lawful_card { result ≡ 100 → (n : Netlist) × Accepted bytes.now n }
    ensures a_refusal_leaves_the_buffer { 100 ≤ result → out.new ≡ out.old }
{
    // One number for the count and for a refusal, since C has no Result.
    match expect_from_bytes(heap, bytes, care, value, out) {
        Ok(count) => count as u32,
        Err(fault) => 100 + fault.number() as u32,
    }
}
