// What the outputs of a good card show for a vector, as a vector over the outputs.
ghost use Rattle.card.specs.Views.{netlist_of};
ghost use Rattle.vectors.specs.Views.{cells_of};
ghost use Rattle.job.specs.Showing.{ShowsOutputs};

use card::netlist::Card;
use tester::outputs::expected_outputs;
use vectors::row::row;
use vectors::vector::Vector;

// The cell of each output, from output 0.
pub(crate) fn outputs_of(card: &Card, vector: &Vector) -> Vector
    ensures shows_the_outputs { ShowsOutputs (netlist_of card.now) (cells_of vector.now) (cells_of result) }
{
    // Lent, since the tester's call for C fills such a buffer, and answers how many characters it wrote.
    let mut characters = [0; 32];
    let Ok(count) = expected_outputs(card, vector, &mut characters) else {
        unreachable!()
    };
    let Some(outputs) = row(&characters[..count], count) else {
        unreachable!()
    };
    outputs
}
