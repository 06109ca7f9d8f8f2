// The lines without cells: the head of a sheet, the line of one fault, and that of a card that cannot be read.
ghost use Rattle.std.specs.Prelude.{◌≡◌, [], ◌∷◌};
ghost use Rattle.page.specs.Pages.{putting};
ghost use Rattle.page.specs.Views.{filled_of};
ghost use Rattle.report.specs.Lines.{ended, fault_line, fault_rows, head_line, refusal_text};

use crate::refusal::CardRefusal;
use history::mark::Mark;
use job::shown::Counts;
use page::buffer::Page;

// How many faults there are, and how many of each mark.
pub fn head_line(page: &mut Page, faults: usize, counts: Counts)
    ensures puts_the_head { filled_of page.new ≡ putting (ended (head_line faults counts.detected counts.untestable counts.«open» ∷ [])) (filled_of page.old) }
{
    page.put(b"faults ");
    page.number(faults);
    page.put(b" detected ");
    page.number(counts.detected);
    page.put(b" untestable ");
    page.number(counts.untestable);
    page.put(b" open ");
    page.number(counts.open);
    page.byte(b'\n');
}

// The number of a fault and what is said of it.
#[tactic(auto, using(page::proofs::Putting::put_parts))]
fn marked(page: &mut Page, number: usize, word: &[u8])
    ensures puts_the_line { filled_of page.new ≡ putting (ended (fault_line number word.now ∷ [])) (filled_of page.old) }
{
    page.put(b"fault ");
    page.number(number);
    page.byte(b' ');
    page.put(word);
    page.byte(b'\n');
}

// The line of a fault that is not detected; a detected one has none.
#[tactic(auto, using(page::proofs::Putting::put_none))]
pub fn fault_line(page: &mut Page, number: usize, mark: Mark)
    ensures puts_the_line_unless_detected { filled_of page.new ≡ putting (ended (fault_rows number mark)) (filled_of page.old) }
{
    match mark {
        Mark::Open => marked(page, number, b"open"),
        Mark::Detected(_) => {}
        Mark::Untestable => marked(page, number, b"untestable"),
    }
}

// The one line of a card that cannot be read.
// Not by `write!` of a Display: tried, it promises the text only where it answers Ok, and no contract says that it does so on a page.
#[tactic(auto, using(page::proofs::Putting::put_parts), unfolding(crate::specs::Lines::refusal_text))]
pub fn refusal_line(page: &mut Page, refusal: CardRefusal)
    ensures puts_the_refusal { filled_of page.new ≡ putting (refusal_text refusal.number refusal.offset) (filled_of page.old) }
{
    page.put(b"card refused ");
    page.number(refusal.number as usize);
    page.put(b" at ");
    page.number(refusal.offset);
    page.byte(b'\n');
}
