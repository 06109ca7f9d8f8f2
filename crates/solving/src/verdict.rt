// What a solver answers of its formula.

#[derive(Clone, Copy, PartialEq, Eq)]
pub enum Verdict {
    // A reading satisfies every clause; the solver holds it.
    Found,
    // No reading satisfies every clause.
    None,
    // The solver could not tell.
    Undecided,
}

// A verdict with the steps that it took.
#[derive(Clone, Copy)]
pub struct Solved {
    pub verdict: Verdict,
    pub steps: u64,
}
