// The setting that a search works on, with its trail: the literals made true, in order.
// Both lie in memory that is lent for one search, which copies the setting out where it is the reading that it found.
ghost use Rattle.std.specs.Prelude.{◌+◌, ◌≤◌, length};
ghost use Rattle.solving.specs.Settings.{open_in};
ghost use Rattle.propagation.specs.Stacks.{room};

use crate::stack::Stack;

mod calls;

#[derive(Drop)]
pub struct Assignment<'a> {
    pub(crate) values: &'a mut [Option<bool>],
    pub(crate) trail: Stack<'a, i16>,
    // As many variables as a solver takes at most.
    ghost few: { length values.now ≤ 560 },
    // There is room for a literal of every variable, and at any time for one of every open variable.
    ghost roomy: { length values.now ≤ room trail },
    ghost space: { trail.len + open_in (length values.now) values.now ≤ room trail },
}
