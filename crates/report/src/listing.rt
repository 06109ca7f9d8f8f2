// The lines of all vectors and of all faults, in rising order.
ghost use Rattle.std.specs.Prelude.{◌≡◌, map};
ghost use Rattle.card.specs.Views.{netlist_of};
ghost use Rattle.vectors.specs.Views.{cells_of};
ghost use Rattle.history.specs.declared.mark.Mark.{Mark as MarkOfFault};
ghost use Rattle.job.specs.Tables.{mark_of};
ghost use Rattle.page.specs.Pages.{putting};
ghost use Rattle.page.specs.Views.{filled_of};
ghost use Rattle.report.specs.Lines.{ended, fault_rows, numbered, vector_rows};

use crate::lines::fault_line;
use crate::vector::vector_line;
use card::netlist::Card;
use history::mark::Mark;
use job::shown::Marked;
use page::buffer::Page;
use vectors::vector::Vector;

// What tells the mark of a fault: the mark alone, or the mark with its taken flag. No `From`: its law would be a relation, and the
// promise below maps a function over the marks.
pub trait ToMark {
    ghost mark: { Self → MarkOfFault };

    fn to_mark(&self) -> Mark
        ensures is_the_mark { result ≡ mark self.now };
}

impl ToMark for Mark {
    ghost mark = { λ m. m };

    fn to_mark(&self) -> Mark {
        *self
    }
}

impl ToMark for Marked {
    ghost mark = { mark_of };

    fn to_mark(&self) -> Mark {
        self.mark
    }
}

// A line for each vector. Of one form with the next: a function over both would be handed the putting of a line, and its law with it.
pub fn vector_lines(page: &mut Page, card: &Card, vectors: &[Vector])
    ensures puts_a_line_for_each_vector { filled_of page.new ≡ putting (ended (numbered (vector_rows (netlist_of card.now)) 0 (map cells_of vectors.now))) (filled_of page.old) }
{
    for (number, vector) in vectors.iter().enumerate() {
        vector_line(page, card, number, vector);
    }
}

// A line for each fault that is not detected.
pub fn fault_lines<M: ToMark>(page: &mut Page, marks: &[M])
    ensures puts_a_line_for_each_fault_not_detected { filled_of page.new ≡ putting (ended (numbered fault_rows 0 (map M.mark marks.now))) (filled_of page.old) }
{
    for (number, mark) in marks.iter().enumerate() {
        fault_line(page, number, mark.to_mark());
    }
}
