// Gives a solver the clauses of the outputs: one variable for each, which says that good and faulty net differ, and last one clause that some do.
ghost use Rattle.std.specs.Prelude.{◌≡◌, [], ◌∷◌, length};
ghost use Rattle.std.specs.List.{flat_map};
ghost use Rattle.card.specs.Netlists.{nets};
ghost use Rattle.card.specs.Views.{netlist_of};
ghost use Rattle.formula.specs.Links.{clauses_of, output_links};
ghost use Rattle.formula.specs.Posing.{given, rising};
ghost use Rattle.formula.specs.Variables.{difference};

use crate::put::put;
use crate::variables::Variable;
use arrayvec::ArrayVec;
use card::function::Function;
use card::netlist::Card;
use solving::Solver;

// The clauses of the differences at the outputs, in order.
#[tactic(auto, using(card::proofs::Below::below_at))]
pub(crate) fn put_outputs<S: Solver>(solver: &mut S, card: &Card)
    ensures gives_the_outputs_clauses_in_order { let c = netlist_of card.now in S.Solver.model solver.new ≡ given (S.Solver.model solver.old) (flat_map clauses_of (output_links (nets c) 0 c.outputs)) }
{
    for (output, net) in card.outputs().iter().enumerate() {
        let differs = Variable::difference(card, output);
        let good = Variable::good_net(*net as usize);
        let faulty = Variable::faulty_net(card, *net as usize);
        put(solver, Function::Xor2, &[differs, good, faulty]);
    }
}

// The clause that some output differs.
pub(crate) fn put_differences<S: Solver>(solver: &mut S, card: &Card)
    ensures gives_the_clause { let c = netlist_of card.now in S.Solver.model solver.new ≡ given (S.Solver.model solver.old) (rising (difference (nets c) 0) (length c.outputs) ∷ []) }
{
    let mut clause: ArrayVec<i16, 32> = ArrayVec::new();
    for output in 0..card.outputs().len() {
        clause.push(Variable::difference(card, output).literal(true));
    }
    let _ = solver.append(&clause);
}
