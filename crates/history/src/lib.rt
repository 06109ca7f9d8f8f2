// The history of a job: what a job holds, what each call does to it, and the law that holds after every list of calls.
// Here stand the statements and their proof; the calls themselves are those of crate `job`, and each is proved to be such a step.
#![tactic(auto)]

pub mod laws;
pub mod mark;
pub mod refusal;
