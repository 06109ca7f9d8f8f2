// Whoever waits for a sheet may be told how far the work is.
// A trait and no closure: who calls a closure has to require that it may be called, and the call for a sheet requires nothing.
ghost use Rattle.std.specs.Prelude.{◌≡◌, ℕ};

pub trait Progress {
    // What the listener becomes by being told of this fault, of so many.
    ghost tells: { Self → ℕ → ℕ → Self → Type 0 };

    // The work on this fault, of so many, begins.
    fn begin(&mut self, fault: usize, faults: usize)
        ensures is_told { tells self.old fault faults self.new };
}

// Tells nobody.
#[derive(Clone, Copy)]
pub struct Quiet;

impl Progress for Quiet {
    ghost tells = { λ before _ _ after. after ≡ before };

    fn begin(&mut self, _fault: usize, _faults: usize) {}
}
