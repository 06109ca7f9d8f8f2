// The three values of a net that is known to be 0, known to be 1, or unknown (X), as a kind of signal.
// An answer is X exactly where bits that the operands allow, chosen independently, give both results; it is read from a table of nine.
ghost use Rattle.signal.specs.Exacts.{GatesExact};
ghost use Rattle.signal.specs.Ternaries.{Allows, ternary_operations, UnknownWhereBothAreMade};
ghost use Rattle.signal.specs.Unknowns.{ternary_inhabited, ternary_sound, ternary_exact};
ghost use Rattle.signal.specs.Exactly.{exact_definite};
ghost use Rattle.std.proofs.Math.Nat.{zero-lt-suc};

use crate::kind::Signal;

// In this order the number of a value is its row and its column in the tables.
#[derive(Clone, Copy, PartialEq, Eq)]
pub enum Ternary {
    Low,
    High,
    X,
}

const AND: [[Ternary; 3]; 3] = [
    [Ternary::Low, Ternary::Low, Ternary::Low],
    [Ternary::Low, Ternary::High, Ternary::X],
    [Ternary::Low, Ternary::X, Ternary::X],
];

const OR: [[Ternary; 3]; 3] = [
    [Ternary::Low, Ternary::High, Ternary::X],
    [Ternary::High, Ternary::High, Ternary::High],
    [Ternary::X, Ternary::High, Ternary::X],
];

const XOR: [[Ternary; 3]; 3] = [
    [Ternary::Low, Ternary::High, Ternary::X],
    [Ternary::High, Ternary::Low, Ternary::X],
    [Ternary::X, Ternary::X, Ternary::X],
];

impl Signal for Ternary {
    ghost lanes = { 1 };

    ghost some_lane = { zero-lt-suc 0 };

    ghost allows = { λ x l b. Allows x b };

    ghost operations = { ternary_operations };

    ghost inhabited = { λ l h. ternary_inhabited };

    ghost sound = { λ l h. ternary_sound };

    ghost definite = { λ l h. exact_definite ternary_operations Allows ternary_exact };

    fn constant(level: bool) -> Ternary {
        if level { Ternary::High } else { Ternary::Low }
    }

    fn not(x: Ternary) -> Ternary {
        match x {
            Ternary::Low => Ternary::High,
            Ternary::High => Ternary::Low,
            Ternary::X => Ternary::X,
        }
    }

    fn and(x: Ternary, y: Ternary) -> Ternary {
        AND[x as usize][y as usize]
    }

    fn or(x: Ternary, y: Ternary) -> Ternary {
        OR[x as usize][y as usize]
    }

    fn xor(x: Ternary, y: Ternary) -> Ternary {
        XOR[x as usize][y as usize]
    }
}

// The theorem behind the tables, for every function and any number of pins: a gate's answer allows a bit exactly when
// some choice of allowed bits, one for each pin, makes it; so it is X exactly when such choices make both bits.
pub fn ternary_stands()
    ensures gates_allow_exactly_what_some_choice_makes { GatesExact ternary_operations Allows }
    ensures an_answer_is_unknown_exactly_where_both_bits_are_made { UnknownWhereBothAreMade }
{}
