// Unit propagation: clauses in one row with the places where each literal stands, a setting with the trail of the literals made
// true, and closure, which looks only at clauses in which a literal has just become false.
#![tactic(auto)]

mod assignment;
mod clauses;
pub mod close;
mod conflict;
mod fill;
pub mod follow;
mod index;
mod list;
mod lists;
pub mod literal;
mod occurrence;
mod press;
mod row;
mod scan;
mod stack;
#[cfg(test)]
mod tests;
pub mod trail;

pub use assignment::Assignment;
pub use clauses::Clauses;
pub use conflict::Conflict;
pub use index::Index;
pub use lists::Lists;
pub use occurrence::Occurrence;
pub use row::Row;
pub use scan::start_of;
pub use stack::Stack;
