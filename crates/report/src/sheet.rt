// The whole sheet of a job, and the line of a card that cannot be read: on a page, and from the start of a buffer that the caller lends.
// A length is answered, since the caller reads its own buffer.
ghost use Rattle.std.specs.Prelude.{◌≡◌, ◌≤◌, true, ◌++◌, length, drop, is_some, IfSome, nat_le};
ghost use Rattle.job.specs.Jobs.{card_held, held};
ghost use Rattle.page.specs.Pages.{putting, written};
ghost use Rattle.page.specs.Views.{filled_of};
ghost use Rattle.report.specs.Limits.{NoMoreVectorsThanDetectedFaults, sheet_room};
ghost use Rattle.report.specs.Lines.{refusal_text, sheet_of};
ghost use Rattle.report.specs.Truths.{Tells, TellsTheTruth};

use crate::lines::{head_line, refusal_line};
use crate::listing::{fault_lines, vector_lines};
use crate::refusal::CardRefusal;
use job::job::Job;
use page::buffer::Page;

// Puts the head, the lines of the vectors and those of the faults.
pub fn report(page: &mut Page, job: &Job)
    ensures puts_the_sheet { let j = job.now in filled_of page.new ≡ putting (sheet_of (card_held j) (held j)) (filled_of page.old) }
    ensures the_sheet_tells_what_the_job_holds { let j = job.now in Tells (card_held j) (held j) (sheet_of (card_held j) (held j)) }
    ensures the_sheet_tells_the_truth { let j = job.now in TellsTheTruth (card_held j) (sheet_of (card_held j) (held j)) }
    ensures with_a_detected_fault_for_each_vector_it_has_at_most_65536_bytes { let j = job.now in (NoMoreVectorsThanDetectedFaults (held j) → length (sheet_of (card_held j) (held j)) ≤ sheet_room) }
{
    head_line(page, job.marks().len(), job.counts());
    vector_lines(page, job.card(), job.vectors());
    fault_lines(page, job.marks());
}

// The sheet in a buffer: its length, or none where the buffer is too short, and the text is then cut off at its end.
pub fn report_into(job: &Job, buffer: &mut [u8]) -> Option<usize>
    ensures answered_exactly_if_the_sheet_fits { let j = job.now in is_some result ≡ nat_le (length (sheet_of (card_held j) (held j))) (length buffer.old) }
    ensures answers_its_length { let j = job.now in IfSome result (λ n. n ≡ length (sheet_of (card_held j) (held j))) }
    ensures writes_the_sheet_as_far_as_it_fits { let j = job.now in buffer.new ≡ written (sheet_of (card_held j) (held j)) buffer.old }
    ensures leaves_the_bytes_behind_it { let j = job.now in (is_some result ≡ true → buffer.new ≡ sheet_of (card_held j) (held j) ++ drop (length (sheet_of (card_held j) (held j))) buffer.old) }
    ensures the_sheet_tells_what_the_job_holds { let j = job.now in Tells (card_held j) (held j) (sheet_of (card_held j) (held j)) }
    ensures the_sheet_tells_the_truth { let j = job.now in TellsTheTruth (card_held j) (sheet_of (card_held j) (held j)) }
    ensures with_a_detected_fault_for_each_vector_it_fits_65536_bytes { let j = job.now in (NoMoreVectorsThanDetectedFaults (held j) → sheet_room ≤ length buffer.old → is_some result ≡ true) }
{
    let mut page = Page::new(buffer);
    report(&mut page, job);
    page.finish()
}

// The line of a card that cannot be read, in a buffer: its length, or none where the buffer is too short, and the line is then cut off at its end.
pub fn refusal_into(refusal: CardRefusal, buffer: &mut [u8]) -> Option<usize>
    ensures answered_exactly_if_the_line_fits { is_some result ≡ nat_le (length (refusal_text refusal.number refusal.offset)) (length buffer.old) }
    ensures answers_its_length { IfSome result (λ n. n ≡ length (refusal_text refusal.number refusal.offset)) }
    ensures writes_the_line_as_far_as_it_fits { buffer.new ≡ written (refusal_text refusal.number refusal.offset) buffer.old }
    ensures leaves_the_bytes_behind_it { is_some result ≡ true → buffer.new ≡ refusal_text refusal.number refusal.offset ++ drop (length (refusal_text refusal.number refusal.offset)) buffer.old }
    ensures the_line_has_at_most_41_bytes { length (refusal_text refusal.number refusal.offset) ≤ 41 }
{
    let mut page = Page::new(buffer);
    refusal_line(&mut page, refusal);
    page.finish()
}
