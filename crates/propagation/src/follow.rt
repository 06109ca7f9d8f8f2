// Unit propagation along the trail: each literal that has become true is followed up in the clauses in which its negation stands,
// and nowhere else.
ghost use Rattle.std.specs.Prelude.{◌≡◌, ◌+◌, ◌<◌, ◌≤◌, true, length, drop, is_ok, OnOk, OnErr};
ghost use Rattle.solving.specs.Settings.{open_in};
ghost use Rattle.solving.specs.Closing.{violated};
ghost use Rattle.solving.specs.Orders.{Reaches};
ghost use Rattle.propagation.specs.Stacks.{held, room};
ghost use Rattle.propagation.specs.Trails.{Grown};
ghost use Rattle.propagation.specs.Clauses.{clauses_of, clauses_listed, listed};
ghost use Rattle.propagation.specs.Following.{Pending, Closes};

use crate::assignment::Assignment;
use crate::clauses::Clauses;
use crate::conflict::Conflict;
use crate::lists::Lists;
use crate::literal::negated_key_of;
use crate::press::press_once;
use crate::stack::Stack;

// Follows up the literal at one place of the trail. What is reached, broken and grown is said of every call on the way: it relates
// the setting before that call to the one after it.
fn visit(
    clauses: Lists,
    values: &mut [Option<bool>],
    trail: &mut Stack<i16>,
    front: usize,
) -> Result<(), Conflict>
    requires listed { listed clauses }
    requires few { length values.old ≤ 560 }
    requires wide { length values.old + length values.old ≤ length clauses.lasts.now }
    requires inside { front < trail.old.len }
    requires pending { Pending (clauses_listed clauses) values.old (drop front (held trail.old)) }
    requires space { trail.old.len + open_in (length values.old) values.old ≤ room trail.old }
    ensures reached { Reaches (clauses_listed clauses.entry) values.old values.new }
    ensures broken { OnErr result (violated values.new (clauses_listed clauses.entry) ≡ true) }
    ensures pending { OnOk result (Pending (clauses_listed clauses.entry) values.new (drop (front + 1) (held trail.new))) }
    ensures grown { Grown values.old values.new (held trail.old) (held trail.new) }
    ensures space { room trail.new ≡ room trail.old }
{
    // By hand: each place names the one before it in its literal's list.
    let mut below = clauses.lasts[negated_key_of(trail.get(front))] as usize;
    while below > 0 {
        let place = clauses.places[below - 1];
        press_once(clauses.literals, values, trail, place)?;
        below = place.before as usize;
    }
    Ok(())
}

// Closure, by plain lists, of a setting in which only the literals from one place of the trail on have yet to be followed up.
// A conflict where it ends violated.
pub fn follow_by_lists(
    clauses: Lists,
    values: &mut [Option<bool>],
    trail: &mut Stack<i16>,
    from: usize,
) -> Result<(), Conflict>
    requires listed { listed clauses }
    requires few { length values.old ≤ 560 }
    requires wide { length values.old + length values.old ≤ length clauses.lasts.now }
    requires inside { from ≤ trail.old.len }
    requires pending { Pending (clauses_listed clauses) values.old (drop from (held trail.old)) }
    requires space { trail.old.len + open_in (length values.old) values.old ≤ room trail.old }
    ensures closes { Closes (clauses_listed clauses.entry) values.old values.new (is_ok result) }
    ensures reached { Reaches (clauses_listed clauses.entry) values.old values.new }
    ensures broken { OnErr result (violated values.new (clauses_listed clauses.entry) ≡ true) }
    ensures grown { Grown values.old values.new (held trail.old) (held trail.new) }
    ensures space { room trail.new ≡ room trail.old }
{
    // Counted by hand: the trail grows while it is walked.
    let mut front = from;
    while front < trail.len() {
        visit(clauses, values, trail, front)?;
        front += 1;
    }
    Ok(())
}

// The same over `Clauses`, which carry what closure asks of their lists.
pub fn follow(
    clauses: Clauses,
    values: &mut [Option<bool>],
    trail: &mut Stack<i16>,
    from: usize,
) -> Result<(), Conflict>
    requires few { length values.old ≤ 560 }
    requires inside { from ≤ trail.old.len }
    requires pending { Pending (clauses_of clauses) values.old (drop from (held trail.old)) }
    requires space { trail.old.len + open_in (length values.old) values.old ≤ room trail.old }
    ensures closes { Closes (clauses_of clauses.entry) values.old values.new (is_ok result) }
    ensures reached { Reaches (clauses_of clauses.entry) values.old values.new }
    ensures broken { OnErr result (violated values.new (clauses_of clauses.entry) ≡ true) }
    ensures grown { Grown values.old values.new (held trail.old) (held trail.new) }
    ensures space { room trail.new ≡ room trail.old }
{
    follow_by_lists(clauses.lists(), values, trail, from)
}

impl Assignment<'_> {
    // The same of an assignment.
    pub fn follow(&mut self, clauses: Clauses, from: usize) -> Result<(), Conflict>
        requires inside { from ≤ self.old.trail.len }
        requires pending { Pending (clauses_of clauses) self.old.values.now (drop from (held self.old.trail)) }
        ensures closes { Closes (clauses_of clauses.entry) self.old.values.now self.new.values.now (is_ok result) }
        ensures reached { Reaches (clauses_of clauses.entry) self.old.values.now self.new.values.now }
        ensures broken { OnErr result (violated self.new.values.now (clauses_of clauses.entry) ≡ true) }
        ensures grown { Grown self.old.values.now self.new.values.now (held self.old.trail) (held self.new.trail) }
        ensures keeps_its_room { room self.new.trail ≡ room self.old.trail }
    {
        follow_by_lists(clauses.lists(), self.values, &mut self.trail, from)
    }
}
