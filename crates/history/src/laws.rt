// The law of jobs, as a statement with a proof, for whoever builds on it.
// The function does nothing: its contract is the law.
ghost use Rattle.history.specs.Promises.{LawOfJobs};

// After every history of calls on every card the promise holds, and no verdict is lost.
pub fn law_of_jobs_stands()
    ensures every_history_keeps_the_promise_and_every_verdict { LawOfJobs }
{}
