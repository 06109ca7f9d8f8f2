// Making literals true and taking them back: each is put on the trail, and taken off it in the opposite order.
ghost use Rattle.std.specs.Prelude.{◌≡◌, ◌+◌, ◌<◌, [], ◌∷◌, ◌++◌, length, None};
ghost use Rattle.solving.specs.Literals.{place};
ghost use Rattle.solving.specs.Settings.{at, made};
ghost use Rattle.propagation.specs.Stacks.{held, room};
ghost use Rattle.propagation.specs.Assignments.{assigned, making, unwound, Undone};

use crate::assignment::Assignment;
use crate::literal::place_of;
use crate::stack::Stack;

// Makes a literal true, and puts it on the trail. What is called with a setting and a trail apart takes any that have the room, and
// leaves the setting where its caller reads it; so each such call says what it asks of them, and that the room stays. A search has
// both in one type, `Assignment`, which has those facts.
pub fn make(values: &mut [Option<bool>], trail: &mut Stack<i16>, literal: i16)
    requires inside { place literal < length values.old }
    requires space { trail.old.len < room trail.old }
    ensures values { values.new ≡ made values.old literal }
    ensures trail { held trail.new ≡ held trail.old ++ (literal ∷ []) }
    ensures len { trail.new.len ≡ trail.old.len + 1 }
    ensures space { room trail.new ≡ room trail.old }
{
    let _ = trail.push(literal);
    let j = place_of(literal);
    values[j] = Some(literal >= 0);
}

impl<'a> Assignment<'a> {
    // Makes a literal true whose variable is open.
    pub fn make(&mut self, literal: i16)
        requires is_open { at self.old.values.now (place literal) ≡ None }
        ensures makes_it_true { assigned self.new ≡ making (assigned self.old) literal }
        ensures keeps_its_room { room self.new.trail ≡ room self.old.trail }
    {
        make(self.values, &mut self.trail, literal);
    }

    // Takes the latest literal off the trail, and opens its variable.
    fn undo(&mut self)
        requires some { 0 < self.old.trail.len }
        ensures opens_the_latest { Undone (assigned self.old) (assigned self.new) }
        ensures keeps_its_room { room self.new.trail ≡ room self.old.trail }
    {
        if let Some(literal) = self.trail.pop() {
            let j = place_of(literal);
            // A test and an index: `get_mut` says nothing of what the slice ends as.
            if j < self.values.len() {
                self.values[j] = None;
            }
        }
    }

    // Back to where the trail was `to` long; it stays where it is no longer than that.
    pub fn unwind(&mut self, to: usize)
        ensures opens_what_came_later { assigned self.new ≡ unwound (assigned self.old) to }
        ensures keeps_its_room { room self.new.trail ≡ room self.old.trail }
    {
        // By hand: the trail shrinks while it is walked.
        while self.trail.len() > to {
            self.undo();
        }
    }
}
