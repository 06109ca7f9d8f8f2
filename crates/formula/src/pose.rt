// Posing a fault by its number: the solver is given the fault's formula, or is left as it was where there is no such fault.
ghost use Rattle.std.specs.Prelude.{◌≡◌, is_ok, Some, MatchResult, nat_lt};
ghost use Rattle.signal.specs.declared.line.Stuck.{Stuck as StuckLine};
ghost use Rattle.faults.specs.Sites.{fault_count, stuck_of};
ghost use Rattle.faults.specs.Views.{modelled};
ghost use Rattle.faults.specs.declared.refusal.FaultRefusal.TheVariants.{NoSuchFault};
ghost use Rattle.formula.specs.Meanings.{Fits, LedByInputs, Means};
ghost use Rattle.formula.specs.Posing.{posed};

use crate::encode::encode;
use faults::model::FaultModel;
use faults::refusal::FaultRefusal;
use solving::Solver;

// Gives the solver the formula of the fault of this number.
pub fn pose<S: Solver>(
    solver: &mut S,
    faults: &FaultModel,
    fault: usize,
) -> Result<(), FaultRefusal>
    ensures refused_exactly_if_there_is_no_such_fault { is_ok result ≡ nat_lt fault (fault_count (modelled faults.now)) }
    ensures refused_as_no_such_fault { MatchResult result (λ _. (s : StuckLine) × (stuck_of (modelled faults.now) fault ≡ Some s)) (λ e. e ≡ NoSuchFault) }
    ensures solver_holds_exactly_the_formula_or_what_it_held { S.Solver.model solver.new ≡ posed (modelled faults.now) (stuck_of (modelled faults.now) fault) (S.Solver.model solver.old) }
    ensures satisfying_readings_are_those_of_showing_settings { (s : StuckLine) → stuck_of (modelled faults.now) fault ≡ Some s → Means (modelled faults.now) s }
    ensures formula_is_led { (s : StuckLine) → stuck_of (modelled faults.now) fault ≡ Some s → LedByInputs (modelled faults.now) s }
    ensures formula_is_within_the_solvers_limits { (s : StuckLine) → stuck_of (modelled faults.now) fault ≡ Some s → Fits (modelled faults.now) s }
{
    let stuck = faults.line(fault)?;
    encode(solver, faults.card(), stuck);
    Ok(())
}
