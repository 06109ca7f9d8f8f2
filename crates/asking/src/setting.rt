// The setting that a solver's reading begins with, as a vector with every input fixed.
// The bits of the leading variables are those of the inputs, in order.
ghost use Rattle.std.specs.Prelude.{◌≡◌, ◌-◌, ◌≤◌, Bool, false, List, length, take, Some, slice_index_or};
ghost use Rattle.std.specs.Result.{result_unwrap_or};
ghost use Rattle.vectors.specs.Views.{cells_of};
ghost use Rattle.solving.specs.Refusals.{valued};
ghost use Rattle.asking.specs.Findings.{fixing};

use solving::Solver;
use vectors::vector::Vector;

// The bit of a variable in the solver's reading, 0 where it has none.
fn bit<S: Solver>(solver: &S, variable: u16) -> bool
    ensures is_the_readings_bit { (reading : List Bool) → (S.Solver.model solver.now).reading ≡ Some reading → 1 ≤ variable → variable ≤ (S.Solver.model solver.now).variables → result ≡ slice_index_or reading (variable - 1) false }
    ensures is_0_where_it_has_none { result ≡ result_unwrap_or (valued (S.Solver.model solver.now) variable) false }
{
    solver.value(variable).unwrap_or(false)
}

// The first variables of the solver's reading as a vector, one fixed input for each.
pub(crate) fn setting<S: Solver>(solver: &S, inputs: usize) -> Vector
    requires at_most_32_inputs { inputs ≤ 32 }
    ensures fixes_each_input_to_its_bit { (reading : List Bool) → (S.Solver.model solver.now).reading ≡ Some reading → length reading ≡ (S.Solver.model solver.now).variables → inputs ≤ length reading → cells_of result ≡ fixing (take inputs reading) }
{
    let mut care: u32 = 0;
    let mut value: u32 = 0;
    for j in (0..inputs).rev() {
        care = 2 * care + 1;
        value = 2 * value + u32::from(bit(solver, (j + 1) as u16));
    }
    let Ok(vector) = Vector::new(inputs, care, value) else {
        unreachable!()
    };
    vector
}
