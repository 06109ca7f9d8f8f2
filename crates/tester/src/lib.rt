// The tester's side: what the outputs of a good card show for a test vector, for our programs and for C.
#![tactic(auto)]

pub mod expect;
pub mod fault;
pub mod outputs;
