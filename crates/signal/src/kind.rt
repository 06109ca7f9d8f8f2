// The interface of a kind of signal: its operations, what its values allow, and the laws between the two.
// The walk is written once against it, and its promises follow from the laws alone, so a new kind brings no new proof of the walk.
ghost use Rattle.std.specs.Prelude.{◌≡◌, ℕ, ◌<◌, Bool};
ghost use Rattle.signal.specs.Operations.{Operations};
ghost use Rattle.signal.specs.Laws.{Definite, Inhabited, Sound};

pub trait Signal: Sized {
    // How many lanes a value has; each lane is a signal of its own.
    ghost lanes: { ℕ };

    // There is at least one, so that the laws below say something.
    ghost some_lane: { 0 < lanes };

    // The bits that a value allows in a lane.
    ghost allows: { Self → ℕ → Bool → Type 0 };

    // What the operations below answer.
    ghost operations: { Operations Self };

    fn constant(level: bool) -> Self
        ensures is_the_constant { result ≡ operations.constant level };

    fn not(x: Self) -> Self
        ensures is_the_negation { result ≡ operations.negated x };

    fn and(x: Self, y: Self) -> Self
        ensures is_the_conjunction { result ≡ operations.both x y };

    fn or(x: Self, y: Self) -> Self
        ensures is_the_disjunction { result ≡ operations.either x y };

    fn xor(x: Self, y: Self) -> Self
        ensures is_the_difference { result ≡ operations.unlike x y };

    // A value allows at least one bit in each lane.
    ghost inhabited: { (l : ℕ) → l < lanes → Inhabited (λ x. allows x l) };

    // An answer allows every bit that the operation makes from allowed bits; so does every gate's (`walk`).
    ghost sound: { (l : ℕ) → l < lanes → Sound operations (λ x. allows x l) };

    // Where each operand allows one bit, so does the answer.
    ghost definite: { (l : ℕ) → l < lanes → Definite operations (λ x. allows x l) };
}
