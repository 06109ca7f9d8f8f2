// The card file: the card in the file that a program's first argument names, or why its bytes are refused.
// Of a reader whose bytes are known, what is handed out is what all of them read as. Of a file no contract says what it has, so there
// it is what some bytes read as.
ghost use Rattle.std.specs.Prelude.{◌≡◌, ℕ, List, IfOk, IfSome, MatchResult, Ok, Err};
ghost use Rattle.card.specs.Views.{netlist_of};
ghost use Rattle.reading.specs.Reading.{reading};

use anyhow::{Error, anyhow};
use card::netlist::Card;
use reading::fault::CardFault;
use reading::read::from_bytes;
use std::alloc::Global;
use std::env;
use std::fs::File;
use std::io::Read;

// The card that the bytes spell, or why they spell none. Want of memory is no refusal of the bytes, but an error.
pub fn card_of(heap: Global, bytes: &[u8]) -> anyhow::Result<Result<Card, CardFault>>
    ensures is_what_the_bytes_read { IfOk result (λ r. MatchResult r (λ card. reading bytes.now ≡ Ok (netlist_of card)) (λ e. reading bytes.now ≡ Err e)) }
{
    match from_bytes(heap, bytes) {
        Ok(card) => Ok(Ok(card)),
        Err(CardFault::Memory) => Err(anyhow!("no memory to hold the card")),
        Err(fault) => Ok(Err(fault)),
    }
}

// The card that the rest of a reader's bytes spell, or why they spell none.
fn card_from<R: Read>(heap: Global, reader: &mut R) -> anyhow::Result<Result<Card, CardFault>>
    ensures is_what_all_its_bytes_read { IfOk result (λ r. (bytes : List ℕ) × IfSome (R.remaining reader.old) (λ rest. bytes ≡ rest) × MatchResult r (λ card. reading bytes ≡ Ok (netlist_of card)) (λ e. reading bytes ≡ Err e)) }
{
    let mut bytes = Vec::new(heap);
    reader.read_to_end(&mut bytes)?;
    card_of(heap, bytes.as_slice())
}

// The card in the file that the first argument names; without an argument the error is how the program is called.
// What is done with it stays with each program: handed in as a closure it would be no plainer than the five lines in each, and the
// call would have to require that it can be called.
pub fn card_named(rt: &HostRuntime, usage: &str) -> anyhow::Result<Result<Card, CardFault>>
    ensures is_what_some_bytes_read { IfOk result (λ r. (bytes : List ℕ) × MatchResult r (λ card. reading bytes ≡ Ok (netlist_of card)) (λ e. reading bytes ≡ Err e)) }
{
    let Some(path) = env::args(rt)?.nth(1) else {
        return Err(Error::msg(usage));
    };
    let mut file = File::open(rt, path.as_str())?;
    card_from(rt.alloc(), &mut file)
}
