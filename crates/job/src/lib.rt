// A job: a card with a mark for each of its faults and a list of test vectors, worked on by take, search, close, sweep, add and merge.
// Whatever calls a job has met, granted or refused, the law of jobs holds of it; `Job` carries that in its type.
#![tactic(auto)]

mod add;
mod calls;
mod enter;
pub mod job;
mod merge;
mod open;
mod outputs;
mod search;
mod show;
pub mod shown;
mod sweep;
mod table;
mod take;
pub mod ticket;

pub use job::Job;
pub use ticket::{Back, Ticket};
