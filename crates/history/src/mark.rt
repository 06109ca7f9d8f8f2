// What is known of a fault: nothing, a vector that shows it, or that no setting does.
// A mark that tells something is never taken back.
ghost use Rattle.std.specs.Prelude.{◌≡◌};
ghost use Rattle.history.specs.Views.{is_detected, is_open, is_untestable};

#[derive(Clone, Copy, PartialEq, Eq)]
pub enum Mark {
    // Nothing yet.
    Open,
    // Every filling of the vector of this number shows the fault.
    Detected(usize),
    // No setting shows the fault.
    Untestable,
}

impl Mark {
    // Whether the fault has no verdict yet.
    pub fn is_open(self) -> bool
        ensures tells_whether_it_is_open { result ≡ is_open self }
    {
        matches!(self, Mark::Open)
    }

    // Whether a listed vector shows the fault.
    pub fn is_detected(self) -> bool
        ensures tells_whether_it_is_detected { result ≡ is_detected self }
    {
        matches!(self, Mark::Detected(_))
    }

    // Whether no setting shows the fault.
    pub fn is_untestable(self) -> bool
        ensures tells_whether_it_is_untestable { result ≡ is_untestable self }
    {
        matches!(self, Mark::Untestable)
    }
}
