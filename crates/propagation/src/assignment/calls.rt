// Opening an assignment, looking at it, and beginning it again from a setting of the caller's choice.
ghost use Rattle.std.specs.Prelude.{◌≡◌, ◌<◌, ◌≤◌, length, replicate, None};
ghost use Rattle.propagation.specs.Stacks.{room};
ghost use Rattle.propagation.specs.Assignments.{assigned, assuming, begun};

use super::Assignment;
use crate::stack::Stack;

impl<'a> Assignment<'a> {
    // A setting with nothing on its trail yet, over a place for each variable.
    pub fn new(values: &'a mut [Option<bool>], places: &'a mut [i16]) -> Assignment<'a>
        requires few { length values.old ≤ 560 }
        requires space { length values.old ≤ length places.old }
        ensures has_nothing_on_its_trail { assigned result ≡ begun values.old }
        ensures has_an_empty_trail { result.trail.len ≡ 0 }
        ensures has_the_room_lent { room result.trail ≡ length places.old }
    {
        Assignment {
            values,
            trail: Stack::new(places),
        }
    }

    // The setting.
    pub fn values(&self) -> &[Option<bool>]
        ensures is_the_setting { result.now ≡ self.now.values.now }
    {
        &*self.values
    }

    // How many literals are on the trail.
    pub fn len(&self) -> usize
        ensures counts_the_trail { result ≡ self.now.trail.len }
    {
        self.trail.len()
    }

    // Opens every variable, and takes everything off the trail.
    pub fn clear(&mut self)
        ensures opens_every_variable { assigned self.new ≡ begun (replicate (length self.old.values.now) None) }
        ensures empties_the_trail { self.new.trail.len ≡ 0 }
        ensures keeps_its_room { room self.new.trail ≡ room self.old.trail }
    {
        self.values.fill(None);
        self.trail.clear();
    }

    // Gives a variable a bit that nothing made it have: no literal goes on the trail.
    pub fn assume(&mut self, j: usize, bit: bool)
        requires is_a_variable { j < length self.old.values.now }
        ensures sets_the_variable { assigned self.new ≡ assuming (assigned self.old) j bit }
        ensures leaves_the_trail { self.new.trail.len ≡ self.old.trail.len }
        ensures keeps_its_room { room self.new.trail ≡ room self.old.trail }
    {
        self.values[j] = Some(bit);
    }
}
