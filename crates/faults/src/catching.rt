// Whether a vector catches a fault: two walks with three values, of the good card and of the faulty one, compared at the outputs.
// A catch means that every filling shows the fault; without free cells it means exactly that. Nothing is refused, whatever line is asked
// about.
ghost use Rattle.std.specs.Prelude.{◌≡◌, ℕ, ◌<◌, Bool, true, List, length, take, None, Some, not, ◌≢◌, Decides, slice_index_or};
ghost use Rattle.card.specs.Netlists.{nets};
ghost use Rattle.card.specs.Views.{netlist_of};
ghost use Rattle.vectors.specs.Extending.{Extends};
ghost use Rattle.vectors.specs.Vectors.{Cells, Fills};
ghost use Rattle.vectors.specs.Views.{cells_of};
ghost use Rattle.faults.specs.Catching.{AllFixed, catches as catches_of, opposite as opposite_of, opposite_at, opposite_somewhere, same, ShownByEveryFilling, ShownWhereCaught, ternary_nets};
ghost use Rattle.faults.specs.Showing.{Shows};

use card::netlist::Card;
use signal::line::Stuck;
use signal::ternary::Ternary;
use signal::walk::{stuck_value, walk, walk_stuck};
use vectors::vector::Vector;

// Whether one of two values is 0 and the other 1.
fn opposite(good: Ternary, faulty: Ternary) -> bool
    ensures one_is_low_and_the_other_high { result ≡ opposite_of good faulty }
{
    matches!(
        (good, faulty),
        (Ternary::Low, Ternary::High) | (Ternary::High, Ternary::Low)
    )
}

// Whether the values of a net are opposite.
fn opposite_at(good: &[Ternary; 256], faulty: &[Ternary; 256], net: usize) -> bool
    requires is_a_net { net < 256 }
    ensures says_whether_its_values_are_opposite { result ≡ opposite_at good.now faulty.now net }
{
    opposite(good[net], faulty[net])
}

// Whether the values of some of these nets are opposite.
fn opposite_somewhere(outputs: &[u16], good: &[Ternary; 256], faulty: &[Ternary; 256]) -> bool
    requires outputs_are_nets { (i d : ℕ) → i < length outputs.now → slice_index_or outputs.now i d < 256 }
    ensures says_whether_some_are_opposite { result ≡ opposite_somewhere good.now faulty.now outputs.now }
{
    outputs
        .iter()
        .any(|net| opposite_at(good, faulty, *net as usize))
}

// What every net of the good card carries when the cells of the vector are put to the inputs.
pub(crate) fn good_nets(card: &Card, vector: &Vector) -> [Ternary; 256]
    ensures begins_with_the_good_nets { let c = netlist_of card.now in take (nets c) result ≡ ternary_nets c None (cells_of vector.now) }
{
    let mut good = [Ternary::X; 256];
    vector.enter(card, &mut good);
    walk(card, None, &mut good);
    good
}

// Whether two values differ.
fn differ(good: Ternary, faulty: Ternary) -> bool
    ensures says_whether_they_differ { result ≡ not (same good faulty) }
{
    !matches!(
        (good, faulty),
        (Ternary::Low, Ternary::Low) | (Ternary::High, Ternary::High) | (Ternary::X, Ternary::X)
    )
}

// Whether the fault changes any net: its line's net then carries another value than on the good card.
fn excited(card: &Card, stuck: Stuck, good: &[Ternary; 256]) -> bool
    ensures tells_whether_some_net_changes { let c = netlist_of card.now in ((v : Cells) → take (nets c) good.now ≡ ternary_nets c None v → Decides result (ternary_nets c (Some stuck) v ≢ ternary_nets c None v)) }
{
    let net = stuck.line.net();
    let Some(value) = stuck_value(card, stuck, good) else {
        return false;
    };
    differ(good[net], value)
}

// Whether the nets of the faulty card, walked from the line on, are opposite to the good ones at an output.
fn told_apart(card: &Card, stuck: Stuck, good: &[Ternary; 256]) -> bool
    ensures says_it_of_every_vector_that_has_these_good_nets { let c = netlist_of card.now in ((v : Cells) → take (nets c) good.now ≡ ternary_nets c None v → result ≡ catches_of c stuck v) }
{
    let mut faulty = *good;
    walk_stuck(card, stuck, &mut faulty);
    opposite_somewhere(card.outputs(), good, &faulty)
}

// Whether a vector catches the fault of the card, from the nets of the good card. Nothing is walked where the line's net keeps its value.
pub(crate) fn caught(card: &Card, stuck: Stuck, good: &[Ternary; 256]) -> bool
    ensures says_it_of_every_vector_that_has_these_good_nets { let c = netlist_of card.now in ((v : Cells) → take (nets c) good.now ≡ ternary_nets c None v → result ≡ catches_of c stuck v) }
{
    excited(card, stuck, good) && told_apart(card, stuck, good)
}

// Whether the vector catches the fault of the card. Card and line are given apart: any line may be asked about, and a fault by its
// number is asked of the model of its card.
pub fn catches(card: &Card, stuck: Stuck, vector: &Vector) -> bool
    ensures says_whether_good_and_faulty_are_opposite_at_an_output { result ≡ catches_of (netlist_of card.now) stuck (cells_of vector.now) }
    ensures a_catch_is_shown_by_every_filling_at_one_output { result ≡ true → ShownByEveryFilling (netlist_of card.now) stuck (cells_of vector.now) }
    ensures every_filling_shows_it_wherever_it_is_caught { ShownWhereCaught (netlist_of card.now) stuck (cells_of vector.now) }
    ensures what_extends_the_vector_catches_too { result ≡ true → (v : Cells) → Extends v (cells_of vector.now) → catches_of (netlist_of card.now) stuck v ≡ true }
    ensures without_free_cells_a_catch_is_a_showing { let c = netlist_of card.now in (AllFixed c.inputs (cells_of vector.now) → (bits : List Bool) → Fills c.inputs (cells_of vector.now) bits → Decides result (Shows c stuck bits)) }
{
    caught(card, stuck, &good_nets(card, vector))
}
