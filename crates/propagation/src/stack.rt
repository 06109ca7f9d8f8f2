// One stack for entries of any kind, over a slice that the caller lends, a rule of the project. It says when it is full.
// Solvers keep on it the literals made true, and their decisions.
ghost use Rattle.std.specs.Prelude.{◌≤◌, length};

mod calls;

#[derive(Drop)]
pub struct Stack<'a, T> {
    entries: &'a mut [T],
    len: usize,
    ghost fits: { len ≤ length entries.now },
}
