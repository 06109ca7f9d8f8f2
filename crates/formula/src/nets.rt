// Gives a solver the clauses of the faulty card's inputs: each copies the good card's input, or the stuck line where it sticks.
ghost use Rattle.std.specs.Prelude.{◌≡◌, ◌<◌, if◌then◌else◌};
ghost use Rattle.std.specs.List.{flat_map};
ghost use Rattle.card.specs.Netlists.{nets};
ghost use Rattle.card.specs.Views.{netlist_of};
ghost use Rattle.signal.specs.Walks.{sticks_net};
ghost use Rattle.formula.specs.Links.{clauses_of, input_links};
ghost use Rattle.formula.specs.Posing.{given};
ghost use Rattle.formula.specs.Variables.{good, stuck_line};

use crate::put::put;
use crate::side::Side;
use crate::variables::Variable;
use card::function::Function;
use signal::line::sticks_net;
use solving::Solver;

// The variable that an input of the faulty card copies.
fn source(faulty: Side, net: usize) -> Variable
    requires is_a_net { net < nets (netlist_of faulty.card.now) }
    ensures is_the_stuck_line_or_the_good_input { let s = faulty.entry in result.number ≡ (if sticks_net s.stuck net then stuck_line (nets (netlist_of s.card.now)) else good net) }
{
    if sticks_net(faulty.stuck, net) {
        Variable::stuck_line(faulty.card)
    } else {
        Variable::good_net(net)
    }
}

// The clauses of the faulty inputs in order.
#[tactic(auto, using(crate::proofs::Loops::inputs_more))]
pub(crate) fn put_inputs<S: Solver>(solver: &mut S, faulty: Side)
    ensures gives_the_inputs_clauses_in_order { let s = faulty.entry in let c = netlist_of s.card.now in S.Solver.model solver.new ≡ given (S.Solver.model solver.old) (flat_map clauses_of (input_links (nets c) s.stuck 0 c.inputs)) }
{
    for net in 0..faulty.card.inputs() {
        let copy = Variable::faulty_net(faulty.card, net);
        put(solver, Function::Ida, &[copy, source(faulty, net)]);
    }
}
