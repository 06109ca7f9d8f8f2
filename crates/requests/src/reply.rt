// What a request got.
use crate::refusal::Refusal;
use solving::Solved;

#[derive(Clone, Copy)]
pub enum Reply {
    Taken,
    // The solver's own answer, with its steps.
    Searched(Solved),
    Closed,
    // How many faults were marked.
    Swept(usize),
    // The number of the new vector.
    Added(usize),
    Merged,
    // The wallet has no ticket at that place, so nothing was asked of the job.
    NoTicket,
    // One of the replies: with a Result in its place a list would be of Results, and a desk's `ask` a Result within a Result.
    Refused(Refusal),
}
