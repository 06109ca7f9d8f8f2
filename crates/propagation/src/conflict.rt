// What ends unit propagation early: a clause that is false throughout under the setting; a scan also says which.

#[derive(Clone, Copy)]
pub struct Conflict;

// Every place of the clause of this number is false.
#[derive(Clone, Copy)]
pub(crate) struct Violated {
    pub(crate) clause: usize,
}

impl From<Violated> for Conflict {
    fn from(_violated: Violated) -> Conflict {
        Conflict
    }
}
