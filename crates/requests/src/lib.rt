// A list of requests, asked of a job in turn with a wallet of tickets and any solver: `run` answers what each got,
// and its contract states the law of jobs whole, over every history.
#![tactic(auto)]

pub mod refusal;
pub mod reply;
pub mod request;
mod serve;
pub mod turns;
mod wallet;

pub use refusal::Refusal;
pub use reply::Reply;
pub use request::Request;
pub use turns::run;
