// The plain bit as a kind of signal: a value allows itself and nothing else.
// Its operations are the meaning of all other kinds, and its walk is the meaning of the good and of the faulty card.
ghost use Rattle.std.specs.Prelude.{◌≡◌};
ghost use Rattle.signal.specs.Operations.{bit_operations};
ghost use Rattle.std.proofs.Common.{rules};
ghost use Rattle.std.proofs.Math.Nat.{zero-lt-suc};

use crate::kind::Signal;

impl Signal for bool {
    ghost lanes = { 1 };

    ghost some_lane = { zero-lt-suc 0 };

    ghost allows = { λ x l b. b ≡ x };

    ghost operations = { bit_operations };

    ghost inhabited = { Prim.search rules };

    ghost sound = { Prim.search rules };

    ghost definite = { Prim.search rules };

    fn constant(level: bool) -> bool {
        level
    }

    fn not(x: bool) -> bool {
        !x
    }

    fn and(x: bool, y: bool) -> bool {
        x & y
    }

    fn or(x: bool, y: bool) -> bool {
        x | y
    }

    fn xor(x: bool, y: bool) -> bool {
        x ^ y
    }
}
