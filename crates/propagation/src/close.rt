// Closure from any setting: every clause is looked at once, and then what was made true is followed up.
ghost use Rattle.std.specs.Prelude.{◌≡◌, ◌+◌, ◌≤◌, true, length, drop, is_ok, OnOk, OnErr};
ghost use Rattle.solving.specs.Settings.{open_in};
ghost use Rattle.solving.specs.Closing.{violated};
ghost use Rattle.solving.specs.Orders.{Reaches};
ghost use Rattle.propagation.specs.Stacks.{held, room};
ghost use Rattle.propagation.specs.Trails.{Grown};
ghost use Rattle.propagation.specs.Scanning.{Ends};
ghost use Rattle.propagation.specs.Clauses.{clauses_of, clauses_listed, listed};
ghost use Rattle.propagation.specs.Following.{Pending, Closes};

use crate::assignment::Assignment;
use crate::clauses::Clauses;
use crate::conflict::Conflict;
use crate::follow::follow_by_lists;
use crate::lists::Lists;
use crate::scan::scan;
use crate::stack::Stack;
use crate::trail::make;

// Looks at every clause once, and makes the literal of each unit clause true. By plain lists, of which it reads the row alone.
pub fn begin_by_lists(
    clauses: Lists,
    values: &mut [Option<bool>],
    trail: &mut Stack<i16>,
) -> Result<(), Conflict>
    requires ended { Ends clauses.literals.now 0 clauses.ends.now }
    requires space { trail.old.len + open_in (length values.old) values.old ≤ room trail.old }
    ensures reached { Reaches (clauses_listed clauses.entry) values.old values.new }
    ensures broken { OnErr result (violated values.new (clauses_listed clauses.entry) ≡ true) }
    ensures pending { OnOk result (Pending (clauses_listed clauses.entry) values.new (drop trail.old.len (held trail.new))) }
    ensures grown { Grown values.old values.new (held trail.old) (held trail.new) }
    ensures space { room trail.new ≡ room trail.old }
{
    // By number: the scan goes on behind the clause that it named.
    let mut first = 0;
    while let Some((c, literal)) = scan(clauses, values, first)? {
        make(values, trail, literal);
        first = c + 1;
    }
    Ok(())
}

// Closure by plain lists; a conflict where it ends violated.
pub fn close_by_lists(
    clauses: Lists,
    values: &mut [Option<bool>],
    trail: &mut Stack<i16>,
) -> Result<(), Conflict>
    requires listed { listed clauses }
    requires few { length values.old ≤ 560 }
    requires wide { length values.old + length values.old ≤ length clauses.lasts.now }
    requires space { trail.old.len + open_in (length values.old) values.old ≤ room trail.old }
    ensures closes { Closes (clauses_listed clauses.entry) values.old values.new (is_ok result) }
    ensures grown { Grown values.old values.new (held trail.old) (held trail.new) }
    ensures space { room trail.new ≡ room trail.old }
{
    let front = trail.len();
    begin_by_lists(clauses, values, trail)?;
    follow_by_lists(clauses, values, trail, front)
}

// The same two over `Clauses`, which carry what closure asks of their lists: every clause looked at once.
pub fn begin(
    clauses: Clauses,
    values: &mut [Option<bool>],
    trail: &mut Stack<i16>,
) -> Result<(), Conflict>
    requires space { trail.old.len + open_in (length values.old) values.old ≤ room trail.old }
    ensures reached { Reaches (clauses_of clauses.entry) values.old values.new }
    ensures broken { OnErr result (violated values.new (clauses_of clauses.entry) ≡ true) }
    ensures pending { OnOk result (Pending (clauses_of clauses.entry) values.new (drop trail.old.len (held trail.new))) }
    ensures grown { Grown values.old values.new (held trail.old) (held trail.new) }
    ensures space { room trail.new ≡ room trail.old }
{
    begin_by_lists(clauses.lists(), values, trail)
}

// And closure.
pub fn close(
    clauses: Clauses,
    values: &mut [Option<bool>],
    trail: &mut Stack<i16>,
) -> Result<(), Conflict>
    requires few { length values.old ≤ 560 }
    requires space { trail.old.len + open_in (length values.old) values.old ≤ room trail.old }
    ensures closes { Closes (clauses_of clauses.entry) values.old values.new (is_ok result) }
    ensures grown { Grown values.old values.new (held trail.old) (held trail.new) }
    ensures space { room trail.new ≡ room trail.old }
{
    close_by_lists(clauses.lists(), values, trail)
}

// The clauses stand beside the setting: in one type with it each call would have to promise too that they stay.
impl Assignment<'_> {
    // The same two of an assignment: every clause looked at once.
    pub fn begin(&mut self, clauses: Clauses) -> Result<(), Conflict>
        ensures reached { Reaches (clauses_of clauses.entry) self.old.values.now self.new.values.now }
        ensures broken { OnErr result (violated self.new.values.now (clauses_of clauses.entry) ≡ true) }
        ensures pending { OnOk result (Pending (clauses_of clauses.entry) self.new.values.now (drop self.old.trail.len (held self.new.trail))) }
        ensures grown { Grown self.old.values.now self.new.values.now (held self.old.trail) (held self.new.trail) }
        ensures keeps_its_room { room self.new.trail ≡ room self.old.trail }
    {
        begin_by_lists(clauses.lists(), self.values, &mut self.trail)
    }

    // And closure.
    pub fn close(&mut self, clauses: Clauses) -> Result<(), Conflict>
        ensures closes { Closes (clauses_of clauses.entry) self.old.values.now self.new.values.now (is_ok result) }
        ensures grown { Grown self.old.values.now self.new.values.now (held self.old.trail) (held self.new.trail) }
        ensures keeps_its_room { room self.new.trail ≡ room self.old.trail }
    {
        close_by_lists(clauses.lists(), self.values, &mut self.trail)
    }
}
