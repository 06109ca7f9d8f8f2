// Gives a solver the clauses of a function over variables: each code of the function's row is turned into the literal of its variable.
ghost use Rattle.std.specs.Prelude.{◌≡◌, suc, true, [], map, length};
ghost use Rattle.card.specs.Functions.{pin_count};
ghost use Rattle.solving.specs.Literals.{all_in_range, in_range};
ghost use Rattle.formula.specs.Posing.{given};
ghost use Rattle.formula.specs.Rows.{literal_of, over, rows, with_clause, written};

use crate::table::row;
use crate::variables::Variable;
use arrayvec::ArrayVec;
use card::function::Function;
use solving::Solver;

// The literal of a code, where code j and its negation stand for the j-th of these variables.
fn literal(code: i8, variables: &[Variable]) -> i16
    requires names_a_variable { in_range (length variables.now) code ≡ true }
    ensures is_the_codes_literal { result ≡ literal_of (map (λ v. v.number) variables.now) code }
{
    let variable = variables[usize::from(code.unsigned_abs()) - 1];
    variable.literal(code > 0)
}

// Gives a clause of the table, unless it is blank.
fn put_clause<S: Solver>(solver: &mut S, codes: [i8; 3], variables: &[Variable])
    requires codes_name_variables { all_in_range (length variables.now) (written codes) ≡ true }
    ensures gives_the_clause { S.Solver.model solver.new ≡ given (S.Solver.model solver.old) (over (map (λ v. v.number) variables.now) (with_clause (written codes) [])) }
{
    let mut clause: ArrayVec<i16, 3> = ArrayVec::new();
    for code in codes {
        if code != 0 {
            clause.push(literal(code, variables));
        }
    }
    if !clause.is_empty() {
        let _ = solver.append(&clause);
    }
}

// Gives the clauses that say that the first variable is the function of the others.
pub(crate) fn put<S: Solver>(solver: &mut S, function: Function, variables: &[Variable])
    requires has_the_functions_pins { length variables.now ≡ suc (pin_count function) }
    ensures gives_the_functions_clauses { S.Solver.model solver.new ≡ given (S.Solver.model solver.old) (over (map (λ v. v.number) variables.now) (rows function)) }
{
    for codes in row(function) {
        put_clause(solver, codes, variables);
    }
}
