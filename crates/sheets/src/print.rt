// Printing a sheet into a buffer that the caller lends.
ghost use Rattle.std.specs.Prelude.{◌≡◌, ◌≤◌, ◌⊎◌, length, IfOk, IfErr, Ok, Err, Decides, MatchResult, OnErr, ◌≢◌, nat_lt};
ghost use Rattle.card.specs.Netlists.{Netlist};
ghost use Rattle.faults.specs.Sites.{fault_count};
ghost use Rattle.reading.specs.Reading.{reading};
ghost use Rattle.reading.specs.Rules.{Accepted};
ghost use Rattle.reading.specs.declared.fault.CardFault.{CardFault as FaultOfCard};
ghost use Rattle.job.specs.Jobs.{card_held, held};
ghost use Rattle.report.specs.Limits.{sheet_room};
ghost use Rattle.sheets.specs.Printing.{Prints};
ghost use Rattle.sheets.specs.Putting.{Puts, Worked};
ghost use Rattle.sheets.specs.Refusals.{sheet_fault_of};
ghost use Rattle.sheets.specs.Telling.{Told, ToldFor};
ghost use Rattle.sheets.specs.Working.{sheet_view};
ghost use Rattle.sheets.specs.declared.fault.SheetFault.TheVariants.{Memory as OfMemory, Room as OfRoom};

use crate::fault::SheetFault;
use crate::progress::Progress;
use crate::sheet::Sheet;
use crate::work::work;
use job::Job;
use reading::read::from_bytes;
use report::sheet::{refusal_into, report_into};
use solvers::Backtracking;
use std::alloc::Global;

// Room for every sheet.
pub const SHEET_ROOM: usize = 65_536;

// The job that has worked on every fault of the card that the bytes spell.
fn prepare<P: Progress>(heap: Global, bytes: &[u8], progress: &mut P) -> Result<Job, SheetFault>
    ensures worked_on_the_card_or_names_the_fault { MatchResult result (λ j. (reading bytes.now ≡ Ok (card_held j)) × (held j ≡ sheet_view (card_held j))) (λ e. (e ≢ OfMemory) → (f : FaultOfCard) × (reading bytes.now ≡ Err f) × (e ≡ sheet_fault_of f)) }
    ensures want_of_memory_refuses_only_bytes_that_spell_a_card { result ≡ Err OfMemory → (n : Netlist) × Accepted bytes.now n }
    ensures tells_of_each_fault { IfOk result (λ j. Told P.tells (fault_count (card_held j)) (fault_count (card_held j)) progress.old progress.new) }
    ensures tells_nothing_without_a_job { OnErr result (progress.new ≡ progress.old) }
{
    let card = from_bytes(heap, bytes)?;
    let mut job = Job::open(heap, card)?;
    let mut solver = Backtracking::new(heap)?;
    work(&mut job, &mut solver, progress);
    Ok(job)
}

// Prints the sheet of a worked job, or the line of a bad card, from the start of the buffer, which has room for it.
#[tactic(auto, using(crate::proofs::Printed::modest))]
fn put(prepared: Result<Job, SheetFault>, buffer: &mut [u8]) -> Result<Sheet, SheetFault>
    requires room { sheet_room ≤ length buffer.old }
    requires of_a_worked_job { Worked prepared }
    ensures puts_the_text_or_leaves_the_buffer { Puts prepared buffer.old result buffer.new }
{
    match prepared {
        Ok(job) => Ok(Sheet {
            length: report_into(&job, buffer).unwrap(),
            fault: None,
        }),
        Err(SheetFault::Card(fault)) => Ok(Sheet {
            length: refusal_into(fault.into(), buffer).unwrap(),
            fault: Some(fault),
        }),
        Err(fault) => Err(fault),
    }
}

// Prints the sheet of the card that the bytes spell into the buffer, or the line that says why they spell none.
// Without room for every sheet, or without memory, nothing is printed and the buffer stays.
// Memory is wanting only for bytes that spell a card: a bad card has its line.
pub fn sheet<P: Progress>(
    heap: Global,
    bytes: &[u8],
    buffer: &mut [u8],
    progress: &mut P,
) -> Result<Sheet, SheetFault>
    ensures refused_for_room_exactly_below_65536_bytes { Decides (nat_lt (length buffer.old) sheet_room) (result ≡ Err OfRoom) }
    ensures refused_for_nothing_but_room_or_memory { IfErr result (λ e. ((e ≡ OfRoom) ⊎ (e ≡ OfMemory))) }
    ensures want_of_memory_refuses_only_bytes_that_spell_a_card { result ≡ Err OfMemory → (n : Netlist) × Accepted bytes.now n }
    ensures a_refusal_leaves_the_buffer { OnErr result (buffer.new ≡ buffer.old) }
    ensures tells_of_each_fault_rising_and_of_none_for_a_bad_card { IfOk result (λ s. ToldFor P.tells (reading bytes.now) progress.old progress.new) }
    ensures a_refusal_tells_nothing { OnErr result (progress.new ≡ progress.old) }
    ensures prints_the_sheet_and_it_tells_the_truth { IfOk result (λ s. Prints bytes.now buffer.old buffer.new s) }
{
    if buffer.len() < SHEET_ROOM {
        return Err(SheetFault::Room);
    }
    put(prepare(heap, bytes, progress), buffer)
}
