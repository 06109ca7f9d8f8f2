// Thinning a setting that shows a fault to a vector that still catches it, with as many cells freed as go in rising order.
// A cell that could not be freed is not tried again: with fewer cells fixed it fails too.
ghost use Rattle.std.specs.Prelude.{◌≡◌, Bool, true, List};
ghost use Rattle.card.specs.Views.{netlist_of};
ghost use Rattle.vectors.specs.Extending.{Extends};
ghost use Rattle.vectors.specs.Vectors.{Fills};
ghost use Rattle.vectors.specs.Views.{cells_of};
ghost use Rattle.faults.specs.Catching.{AllFixed, catches as catches_of, ShownByEveryFilling};
ghost use Rattle.faults.specs.Showing.{Shows};
ghost use Rattle.faults.specs.Thinning.{NoneToFree, thinned, tried};

use crate::catching::catches;
use crate::trial::Trial;
use card::netlist::Card;
use signal::line::Stuck;
use vectors::vector::Vector;

// Tries one cell free.
fn try_cell(card: &Card, stuck: Stuck, vector: &mut Vector, input: usize)
    ensures frees_the_cell_if_still_caught { cells_of vector.new ≡ tried (netlist_of card.now) stuck (cells_of vector.old) input }
{
    let mut trial = Trial::new(vector, input);
    if catches(card, stuck, &trial.look()) {
        trial.keep();
    }
}

// The setting, given as a vector, with every cell freed that may be.
pub fn thin(card: &Card, stuck: Stuck, setting: &Vector) -> Vector
    ensures tries_each_cell_in_rising_order { let c = netlist_of card.now in cells_of result ≡ thinned c stuck (cells_of setting.now) c.inputs }
    ensures still_catches { let c = netlist_of card.now in (catches_of c stuck (cells_of setting.now) ≡ true → catches_of c stuck (cells_of result) ≡ true) }
    ensures a_setting_that_shows_the_fault_is_thinned_to_a_catch { let c = netlist_of card.now in (AllFixed c.inputs (cells_of setting.now) → (bits : List Bool) → Fills c.inputs (cells_of setting.now) bits → Shows c stuck bits → catches_of c stuck (cells_of result) ≡ true) }
    ensures every_filling_shows_the_fault { let c = netlist_of card.now in (catches_of c stuck (cells_of setting.now) ≡ true → ShownByEveryFilling c stuck (cells_of result)) }
    ensures no_cell_still_fixed_can_be_freed { NoneToFree (netlist_of card.now) stuck (cells_of result) }
    ensures fixed_cells_are_those_of_the_setting { Extends (cells_of setting.now) (cells_of result) }
{
    let mut vector = *setting;
    for j in 0..card.inputs() {
        try_cell(card, stuck, &mut vector, j);
    }
    vector
}
