// Gives a solver the clauses of gates, over the variables of the good card or of the faulty one.
ghost use Rattle.std.specs.Prelude.{◌≡◌, ◌<◌, true, length, if◌then◌else◌};
ghost use Rattle.std.specs.List.{flat_map};
ghost use Rattle.card.specs.Functions.{pin_count};
ghost use Rattle.card.specs.Netlists.{all_below, nets, pins_of};
ghost use Rattle.card.specs.Views.{netlist_of};
ghost use Rattle.signal.specs.Walks.{sticks_pin};
ghost use Rattle.formula.specs.Links.{clauses_of, gate_link, gate_links};
ghost use Rattle.formula.specs.Posing.{given, net_variable};
ghost use Rattle.formula.specs.Variables.{stuck_line};

use crate::put::put;
use crate::side::Side;
use crate::variables::Variable;
use card::function::Function;
use card::gate::{Gate, Operands};
use signal::line::{sticks_net, sticks_pin};
use solving::Solver;

impl Side<'_> {
    // The variable that a pin of a gate reads: the stuck line where the pin sticks, else that of the net.
    fn pin(self, net: usize, pin: u8, read: u16) -> Variable
        requires reads_a_net { read < nets (netlist_of self.card.now) }
        ensures is_the_pins_variable { let s = self.entry in let n = nets (netlist_of s.card.now) in result.number ≡ (if sticks_pin s.stuck net pin then stuck_line n else net_variable s.stuck n read) }
    {
        if sticks_pin(self.stuck, net, pin) {
            Variable::stuck_line(self.card)
        } else {
            self.net(read as usize)
        }
    }
}

// The clauses of the gate that makes a net; a stuck net copies the stuck line. What a call asks is of the net and the gate together:
// tried within the loop below, where nothing is asked, and the loop stayed open over four cases.
fn put_gate<S: Solver>(solver: &mut S, side: Side, net: usize, gate: Gate)
    requires is_a_net { net < nets (netlist_of side.card.now) }
    requires reads_nets_before { all_below net (pins_of gate) ≡ true }
    requires has_the_functions_pins { length (pins_of gate) ≡ pin_count gate.function }
    ensures gives_the_gates_clauses { let s = side.entry in let n = nets (netlist_of s.card.now) in S.Solver.model solver.new ≡ given (S.Solver.model solver.old) (clauses_of (gate_link (net_variable s.stuck n) (stuck_line n) s.stuck net gate)) }
{
    let out = side.net(net);
    if sticks_net(side.stuck, net) {
        let line = Variable::stuck_line(side.card);
        return put(solver, Function::Ida, &[out, line]);
    }
    match gate.operands {
        Operands::None => put(solver, gate.function, &[out]),
        Operands::One(a) => put(solver, gate.function, &[out, side.pin(net, 0, a)]),
        Operands::Two(a, b) => {
            let first = side.pin(net, 0, a);
            let second = side.pin(net, 1, b);
            put(solver, gate.function, &[out, first, second])
        }
    }
}

// The clauses of a side's gates in order.
pub(crate) fn put_gates<S: Solver>(solver: &mut S, side: Side)
    ensures gives_the_gates_clauses_in_order { let s = side.entry in let c = netlist_of s.card.now in S.Solver.model solver.new ≡ given (S.Solver.model solver.old) (flat_map clauses_of (gate_links (net_variable s.stuck (nets c)) (stuck_line (nets c)) s.stuck c.inputs c.gates)) }
{
    let inputs = side.card.inputs();
    for (i, gate) in side.card.gates().iter().enumerate() {
        put_gate(solver, side, inputs + i, *gate);
    }
}
