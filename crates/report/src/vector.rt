// The line of a vector: its number, its cells, and what the outputs of the good card show.
ghost use Rattle.std.specs.Prelude.{◌≡◌};
ghost use Rattle.card.specs.Views.{netlist_of};
ghost use Rattle.vectors.specs.Rows.{printed};
ghost use Rattle.vectors.specs.Views.{cells_of};
ghost use Rattle.tester.specs.Characters.{characters, Truthful};
ghost use Rattle.page.specs.Pages.{putting};
ghost use Rattle.page.specs.Views.{filled_of};
ghost use Rattle.report.specs.Lines.{ended, vector_rows};

use card::netlist::Card;
use page::buffer::Page;
use tester::outputs::expected_outputs;
use vectors::row::character;
use vectors::vector::Vector;

// One character for each input, from input 0.
#[tactic(auto, using(page::proofs::Putting::put_none, page::proofs::Putting::put_parts, crate::proofs::Putting::printed_more))]
fn cells(page: &mut Page, card: &Card, vector: &Vector)
    ensures puts_the_cells { filled_of page.new ≡ putting (printed (netlist_of card.now).inputs (cells_of vector.now)) (filled_of page.old) }
{
    for input in 0..card.inputs() {
        page.byte(character(vector.cell(input)));
    }
}

// One character for each output of the good card, from output 0.
fn outputs(page: &mut Page, card: &Card, vector: &Vector)
    ensures puts_what_the_outputs_show { filled_of page.new ≡ putting (characters (netlist_of card.now) (cells_of vector.now)) (filled_of page.old) }
    ensures a_bit_shown_is_what_every_filling_makes { Truthful (netlist_of card.now) (cells_of vector.now) (characters (netlist_of card.now) (cells_of vector.now)) }
{
    // Lent, since the tester's call for C fills such a buffer, and answers how many characters it wrote.
    let mut shown = [0u8; 32];
    if let Ok(count) = expected_outputs(card, vector, &mut shown) {
        page.put(&shown[..count]);
    }
}

// The line of the vector of this number.
#[tactic(auto, using(page::proofs::Putting::put_parts))]
pub fn vector_line(page: &mut Page, card: &Card, number: usize, vector: &Vector)
    ensures puts_the_line { filled_of page.new ≡ putting (ended (vector_rows (netlist_of card.now) number (cells_of vector.now))) (filled_of page.old) }
    ensures a_bit_shown_is_what_every_filling_makes { Truthful (netlist_of card.now) (cells_of vector.now) (characters (netlist_of card.now) (cells_of vector.now)) }
{
    page.put(b"vector ");
    page.number(number);
    page.byte(b' ');
    cells(page, card, vector);
    page.byte(b' ');
    outputs(page, card, vector);
    page.byte(b'\n');
}
