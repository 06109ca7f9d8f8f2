// Whether two cards are alike: the same inputs, functions and outputs, and each gate the same operands in any order.
ghost use Rattle.std.specs.Prelude.{◌≡◌, Decides};
ghost use Rattle.card.specs.Alikes.{Alike, AlikeLaws, same_gate, same_gates, same_operands};
ghost use Rattle.card.specs.Views.{netlist_of};

use crate::gate::{Gate, Operands};
use crate::netlist::Card;

fn same_operands(a: Operands, b: Operands) -> bool
    ensures says_whether_the_operands_are_the_same { result ≡ same_operands a b }
{
    match (a, b) {
        (Operands::None, Operands::None) => true,
        (Operands::One(x), Operands::One(y)) => x == y,
        (Operands::Two(p, q), Operands::Two(x, y)) => p == x && q == y || p == y && q == x,
        _ => false,
    }
}

fn same_gate(a: Gate, b: Gate) -> bool
    ensures says_whether_the_gates_are_the_same { result ≡ same_gate a b }
{
    a.function == b.function && same_operands(a.operands, b.operands)
}

fn same_gates(a: &[Gate], b: &[Gate]) -> bool
    ensures says_whether_each_gate_is_the_same { result ≡ same_gates a.now b.now }
{
    a.len() == b.len() && a.iter().zip(b).all(|(x, y)| same_gate(*x, *y))
}

// It refuses nothing.
pub fn alike(a: &Card, b: &Card) -> bool
    ensures says_whether_the_cards_are_alike { Decides result (Alike (netlist_of a.now) (netlist_of b.now)) }
    ensures alikeness_is_an_equivalence { AlikeLaws }
{
    let inputs = a.inputs() == b.inputs();
    let gates = same_gates(a.gates(), b.gates());
    let outputs = a.outputs() == b.outputs();
    inputs & gates & outputs
}
