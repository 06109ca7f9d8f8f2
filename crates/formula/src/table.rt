// The clauses of the ten functions in one table, by function number. In a row 1 stands for the net A that a gate makes, 2 for its pin B
// and 3 for its pin C, a negative number for the negation, and 0 for no literal. Nothing else says what a function's clauses are.
ghost use Rattle.std.specs.Prelude.{◌≡◌};
ghost use Rattle.formula.specs.Rows.{row_of};

use card::function::Function;

// The clauses of one function. Numbers stand for literals, since a row of the table is written in signed codes here as it is in `Rows`.
pub(crate) type Row = [[i8; 3]; 4];

const ROWS: [Row; 10] = [
    [[-1, 2, 0], [1, -2, 0], [0, 0, 0], [0, 0, 0]],
    [[-1, 2, 0], [-1, 3, 0], [1, -2, -3], [0, 0, 0]],
    [[1, -2, 0], [1, -3, 0], [-1, 2, 3], [0, 0, 0]],
    [[-1, 2, 3], [1, -2, 3], [1, 2, -3], [-1, -2, -3]],
    [[1, 2, 0], [-1, -2, 0], [0, 0, 0], [0, 0, 0]],
    [[1, 2, 0], [1, 3, 0], [-1, -2, -3], [0, 0, 0]],
    [[-1, -2, 0], [-1, -3, 0], [1, 2, 3], [0, 0, 0]],
    [[1, 2, 3], [-1, -2, 3], [-1, 2, -3], [1, -2, -3]],
    [[-1, 0, 0], [0, 0, 0], [0, 0, 0], [0, 0, 0]],
    [[1, 0, 0], [0, 0, 0], [0, 0, 0], [0, 0, 0]],
];

// The row of a function.
pub(crate) fn row(function: Function) -> Row
    ensures is_the_functions_row { result ≡ row_of function }
{
    ROWS[function.number() as usize]
}
