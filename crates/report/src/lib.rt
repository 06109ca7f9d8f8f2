// The sheet as text: its lines, written on a page, and the whole of it in a buffer that the caller lends.
#![tactic(auto)]

pub mod lines;
pub mod listing;
pub mod refusal;
pub mod sheet;
pub mod vector;
pub mod worked;
