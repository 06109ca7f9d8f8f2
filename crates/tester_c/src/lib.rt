// The tester's call for C, as c/expect.h declares it: a static library over `tester`, whose call it is.
#![tactic(auto)]

ghost use Rattle.std.specs.Prelude.{◌≡◌, ℕ, ◌≤◌, length, ◌≢◌};
ghost use Rattle.card.specs.Netlists.{Netlist};
ghost use Rattle.reading.specs.Reading.{reading};
ghost use Rattle.reading.specs.Rules.{Accepted};
ghost use Rattle.tester.specs.Expecting.{answer_of, code_of, expectation, left_in};

use std::alloc::Global;

// What the tester's C program calls.
#[unsafe(no_mangle)]
pub extern "C" fn expect(heap: Global, bytes: &[u8], care: u32, value: u32, out: &mut [u8]) -> u32
    ensures answers_what_is_expected { (result ≢ 100) → result ≡ code_of (answer_of (expectation (reading bytes.now) care value (length out.old))) }
    ensures leaves_what_is_expected { (result ≢ 100) → out.new ≡ left_in (expectation (reading bytes.now) care value (length out.old)) out.old }
    ensures one_hundred_is_want_of_memory_for_a_lawful_card { result ≡ 100 → (n : Netlist) × Accepted bytes.now n }
    ensures a_refusal_leaves_the_buffer { 100 ≤ result → out.new ≡ out.old }
{
    tester::expect::expect(heap, bytes, care, value, out)
}
