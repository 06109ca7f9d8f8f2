// One clause under a setting: what it comes to, and its lone literal made true where it has one.
ghost use Rattle.std.specs.Prelude.{◌≡◌, ◌+◌, ◌-◌, ◌<◌, ◌≤◌, ◌⊎◌, IfSome, None, [], ◌∷◌, length, take, drop, is_ok};
ghost use Rattle.solving.specs.Settings.{open_in};
ghost use Rattle.solving.specs.States.{state_of};
ghost use Rattle.propagation.specs.Stacks.{held, room};
ghost use Rattle.propagation.specs.Following.{Pressed, PassedOver};

use crate::conflict::Conflict;
use crate::literal::{join, value_of};
use crate::occurrence::Occurrence;
use crate::stack::Stack;
use crate::trail::make;
use solving::State;

// What a clause comes to. A literal after which nothing else matters ends the look.
fn state_of(clause: &[i16], values: &[Option<bool>]) -> State
    ensures is_the_clauses_state { result ≡ state_of values.now clause.now }
{
    let mut state = State::Broken;
    for &literal in clause {
        state = join(value_of(values, literal), literal, state);
        if let State::Other = state {
            return State::Other;
        }
    }
    state
}

// What the clause of a place comes to once the literal there is false: a short clause by the two literals beside it. None where the
// clause is long and the literal stands before this place in it too: it is looked at there, once for all these places.
fn state_beside(literals: &[i16], values: &[Option<bool>], place: Occurrence) -> Option<State>
    requires inside { place.to ≤ length literals.now }
    requires paired { place.to ≤ place.from + 3 → state_of values.now (place.first ∷ place.second ∷ []) ≡ state_of values.now (take (place.to - place.from) (drop place.from literals.now)) }
    ensures is_the_clauses_state { IfSome result (λ state. state ≡ state_of values.now (take (place.to - place.from) (drop place.from literals.now))) }
    ensures comes_again { result ≡ None → place.from < place.before }
{
    let from = place.from as usize;
    let to = place.to as usize;
    if to > from + 3 {
        if place.before > place.from {
            return None;
        }
        return Some(state_of(&literals[from..to], values));
    }
    Some(state_of(&[place.first, place.second], values))
}

// Looks at the clause of a place, and makes its lone literal true if it has one; or leaves it to an earlier place of the literal.
pub fn press_once(
    literals: &[i16],
    values: &mut [Option<bool>],
    trail: &mut Stack<i16>,
    place: Occurrence,
) -> Result<(), Conflict>
    requires inside { place.to ≤ length literals.now }
    requires paired { place.to ≤ place.from + 3 → state_of values.old (place.first ∷ place.second ∷ []) ≡ state_of values.old (take (place.to - place.from) (drop place.from literals.now)) }
    requires space { trail.old.len + open_in (length values.old) values.old ≤ room trail.old }
    ensures presses { Pressed (take (place.to - place.from) (drop place.from literals.now)) values.old (held trail.old) (is_ok result) values.new (held trail.new) ⊎ PassedOver place values.old (held trail.old) (is_ok result) values.new (held trail.new) }
    ensures space { room trail.new ≡ room trail.old }
{
    match state_beside(literals, values, place) {
        None | Some(State::Other) => Ok(()),
        Some(State::Broken) => Err(Conflict),
        Some(State::Lone(literal)) => {
            make(values, trail, literal);
            Ok(())
        }
    }
}

// Looks at the clause of whatever place it is given, also where the literal stands before that place in it.
pub fn press(
    literals: &[i16],
    values: &mut [Option<bool>],
    trail: &mut Stack<i16>,
    place: Occurrence,
) -> Result<(), Conflict>
    requires inside { place.to ≤ length literals.now }
    requires paired { place.to ≤ place.from + 3 → state_of values.old (place.first ∷ place.second ∷ []) ≡ state_of values.old (take (place.to - place.from) (drop place.from literals.now)) }
    requires space { trail.old.len + open_in (length values.old) values.old ≤ room trail.old }
    ensures presses { Pressed (take (place.to - place.from) (drop place.from literals.now)) values.old (held trail.old) (is_ok result) values.new (held trail.new) }
    ensures space { room trail.new ≡ room trail.old }
{
    // With none named before it, there is no place to which the clause could be left.
    let alone = Occurrence { before: 0, ..place };
    press_once(literals, values, trail, alone)
}
