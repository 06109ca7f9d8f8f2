// A literal under a setting: where its variable stands, whether it is open or what it is, and what it makes of its clause.
ghost use Rattle.std.specs.Prelude.{◌≡◌, ◌+◌, ◌*◌, ◌≤◌, cond};
ghost use Rattle.solving.specs.Literals.{place};
ghost use Rattle.solving.specs.Settings.{at, worth, value, bit_of};
ghost use Rattle.solving.specs.States.{joined};
ghost use Rattle.propagation.specs.Occurrences.{key, against};

use solving::State;

// Variable j stands at place j - 1. Here no branch goes by the sign, which no processor could foresee.
pub fn place_of(literal: i16) -> usize
    ensures is_the_variables_place { result ≡ place literal }
    ensures is_small { result ≤ 32768 }
{
    (literal.unsigned_abs() as usize).saturating_sub(1)
}

// The number of the literal that asks the variable at a place for a bit: each has its own.
fn number_of(place: usize, bit: bool) -> usize
    requires is_small { place ≤ 32768 }
    ensures is_its_number { result ≡ place * 2 + cond bit 1 0 }
{
    place * 2 + usize::from(bit)
}

// The number of a literal.
pub(crate) fn key_of(literal: i16) -> usize
    ensures is_the_literals_number { result ≡ key literal }
{
    number_of(place_of(literal), literal >= 0)
}

// The number of its negation.
pub(crate) fn negated_key_of(literal: i16) -> usize
    ensures is_the_negations_number { result ≡ against literal }
{
    number_of(place_of(literal), literal < 0)
}

// What a place holds; past the end 0.
fn bit_at(values: &[Option<bool>], j: usize) -> Option<bool>
    ensures is_what_stands_there { result ≡ at values.now j }
{
    values.get(j).copied().unwrap_or(Some(false))
}

fn worth_of(have: Option<bool>, want: bool) -> Option<bool>
    ensures compares_the_bits { result ≡ worth have want }
{
    have.map(|bit| bit == want)
}

// Open, or whether the literal is true.
pub(crate) fn value_of(values: &[Option<bool>], literal: i16) -> Option<bool>
    ensures is_the_literals_value { result ≡ value values.now literal }
{
    worth_of(bit_at(values, place_of(literal)), literal >= 0)
}

// The state of a clause with this literal more.
pub(crate) fn join(have: Option<bool>, literal: i16, state: State) -> State
    ensures joins_the_literal { result ≡ joined have literal state }
{
    match have {
        Some(true) => State::Other,
        Some(false) => state,
        None => match state {
            State::Broken => State::Lone(literal),
            State::Lone(_) => State::Other,
            State::Other => State::Other,
        },
    }
}

// The bit of a variable; an open one counts as 0.
pub fn bit_of(value: Option<bool>) -> bool
    ensures is_the_bit { result ≡ bit_of value }
{
    value.unwrap_or(false)
}
