// What a clause comes to under a setting of some variables. Closure asks it of each clause in turn.

#[derive(Clone, Copy)]
pub enum State {
    // Every place is false.
    Broken,
    // This literal is open, and every other place is false.
    Lone(i16),
    // A place is true, or two are open.
    Other,
}
