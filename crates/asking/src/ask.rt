// One question to a solver: whether some setting shows a line stuck at its level.
// The solver is given the fault's formula, and its answer is read back in words of the fault.
ghost use Rattle.card.specs.Views.{netlist_of};
ghost use Rattle.formula.specs.Posing.{holds_formula};
ghost use Rattle.asking.specs.Findings.{Asks, finding_of, Tells};

use crate::outcome::Outcome;
use crate::setting::setting;
use card::netlist::Card;
use faults::thinning::thin;
use formula::encode::encode;
use signal::line::Stuck;
use solving::{Solved, Verdict};
use ways::Answering;

// What was found, with the solver's own answer.
#[derive(Clone, Copy)]
pub struct Asked {
    pub outcome: Outcome,
    pub solved: Solved,
}

// Gives the solver the formula of the fault, lets it search within the budget, and reads its answer.
pub fn ask<S: Answering>(solver: &mut S, card: &Card, stuck: Stuck, budget: u64) -> Asked
    ensures the_solver_was_asked_the_formula_and_answered_this { Asks (netlist_of card.now) stuck budget result.solved (finding_of result.outcome) (S.Solver.model solver.new) }
    ensures the_solver_answered_in_its_own_way { S.Answering.answering (holds_formula (netlist_of card.now) stuck) budget result.solved (S.Solver.model solver.new) }
    ensures the_outcome_is_true_of_the_fault { Tells (netlist_of card.now) stuck budget (finding_of result.outcome) }
{
    let inputs = card.inputs();
    encode(solver, card, stuck);
    let solved = solver.answer(budget);
    let outcome = match solved.verdict {
        Verdict::Found => Outcome::Shown(thin(card, stuck, &setting(solver, inputs))),
        Verdict::None => Outcome::Untestable,
        Verdict::Undecided => Outcome::Unknown,
    };
    Asked { outcome, solved }
}
