// The encoder: gives any solver the formula of a line of a card that sticks, clause by clause in the order of its definition.
// The solver refuses nothing on the way, since the formula is within its limits.
ghost use Rattle.std.specs.Prelude.{◌≡◌};
ghost use Rattle.card.specs.Views.{netlist_of};
ghost use Rattle.formula.specs.Links.{tied as tied_to};
ghost use Rattle.formula.specs.Meanings.{Fits, LedByInputs, Means};
ghost use Rattle.formula.specs.Posing.{holds_formula};

use crate::gates::put_gates;
use crate::nets::put_inputs;
use crate::outputs::{put_differences, put_outputs};
use crate::put::put;
use crate::side::Side;
use crate::variables::{Variable, variable_count};
use card::function::Function;
use card::netlist::Card;
use signal::line::Stuck;
use solving::Solver;

// The function whose gate always has this level.
fn tied(level: bool) -> Function
    ensures is_the_constant_function { result ≡ tied_to level }
{
    if level { Function::One } else { Function::Zero }
}

// Gives the solver the formula of a stuck line.
pub fn encode<S: Solver>(solver: &mut S, card: &Card, stuck: Stuck)
    ensures solver_holds_exactly_the_formula { S.Solver.model solver.new ≡ holds_formula (netlist_of card.now) stuck }
    ensures satisfying_readings_are_those_of_showing_settings { Means (netlist_of card.now) stuck }
    ensures formula_is_led { LedByInputs (netlist_of card.now) stuck }
    ensures formula_is_within_the_solvers_limits { Fits (netlist_of card.now) stuck }
{
    let good = Side { card, stuck: None };
    let faulty = Side {
        card,
        stuck: Some(stuck),
    };
    let _ = solver.start(variable_count(card), card.inputs() as u16);
    put_gates(solver, good);
    put(solver, tied(stuck.level), &[Variable::stuck_line(card)]);
    put_inputs(solver, faulty);
    put_gates(solver, faulty);
    put_outputs(solver, card);
    put_differences(solver, card);
}
