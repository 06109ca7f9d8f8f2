// The formula of a fault: clauses whose satisfying readings are those of the settings that show the fault, one for each setting,
// and an encoder that gives them to any solver and meets no refusal.
#![tactic(auto)]

pub mod encode;
mod gates;
pub mod laws;
mod nets;
mod outputs;
pub mod pose;
mod put;
mod side;
mod table;
mod variables;

pub use variables::variable_count;
