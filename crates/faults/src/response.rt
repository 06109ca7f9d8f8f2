// The good card's response to a vector, walked once and held: each fault of the card is then asked about by its faulty walk alone.
// The type carries that the nets are those of the good walk from the vector's cells, so no other nets can be asked.
ghost use Rattle.std.specs.Prelude.{◌≡◌, true, take, None};
ghost use Rattle.card.specs.Netlists.{nets as net_count};
ghost use Rattle.vectors.specs.Views.{cells_of};
ghost use Rattle.faults.specs.Catching.{FaultCaughtByMore, FaultDecided, FaultShownByEveryFilling, FaultShownWhereCaught, catches_fault, ternary_nets};
ghost use Rattle.faults.specs.Views.{modelled};

use crate::catching::{caught, good_nets};
use crate::model::FaultModel;
use signal::ternary::Ternary;
use vectors::vector::Vector;

#[derive(Drop)]
pub struct Response<'a> {
    faults: &'a FaultModel,
    vector: Vector,
    nets: [Ternary; 256],
    ghost begins_with_the_good_nets: { take (net_count (modelled faults.now)) nets ≡ ternary_nets (modelled faults.now) None (cells_of vector) },
}

impl FaultModel {
    // The good card's response to the vector.
    pub fn response(&self, vector: &Vector) -> Response<'_>
        ensures is_of_the_card { modelled result.faults.now ≡ modelled self.now }
        ensures is_to_the_vector { cells_of result.vector ≡ cells_of vector.now }
    {
        let nets = good_nets(&self.card, vector);
        Response {
            faults: self,
            vector: *vector,
            nets,
        }
    }

    // Whether the vector catches the fault of this number.
    pub fn catches(&self, fault: usize, vector: &Vector) -> bool
        ensures tells_whether_the_vector_catches_it { result ≡ catches_fault (modelled self.now) fault (cells_of vector.now) }
        ensures a_catch_is_shown_by_every_filling_at_one_output { result ≡ true → FaultShownByEveryFilling (modelled self.now) fault (cells_of vector.now) }
        ensures every_filling_shows_it_wherever_it_is_caught { FaultShownWhereCaught (modelled self.now) fault (cells_of vector.now) }
        ensures what_extends_the_vector_catches_too { result ≡ true → FaultCaughtByMore (modelled self.now) fault (cells_of vector.now) }
        ensures without_free_cells_a_catch_is_a_showing { FaultDecided (modelled self.now) fault (cells_of vector.now) result }
    {
        self.response(vector).catches(fault)
    }
}

impl Response<'_> {
    // Whether its vector catches the fault of this number.
    pub fn catches(&self, fault: usize) -> bool
        ensures tells_whether_the_vector_catches_it { result ≡ catches_fault (modelled self.now.faults.now) fault (cells_of self.now.vector) }
        ensures a_catch_is_shown_by_every_filling_at_one_output { result ≡ true → FaultShownByEveryFilling (modelled self.now.faults.now) fault (cells_of self.now.vector) }
        ensures every_filling_shows_it_wherever_it_is_caught { FaultShownWhereCaught (modelled self.now.faults.now) fault (cells_of self.now.vector) }
        ensures what_extends_the_vector_catches_too { result ≡ true → FaultCaughtByMore (modelled self.now.faults.now) fault (cells_of self.now.vector) }
        ensures without_free_cells_a_catch_is_a_showing { FaultDecided (modelled self.now.faults.now) fault (cells_of self.now.vector) result }
    {
        let Ok(stuck) = self.faults.line(fault) else {
            return false;
        };
        caught(&self.faults.card, stuck, &self.nets)
    }
}
