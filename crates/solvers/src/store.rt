// What both solvers keep of a formula: its clauses in one row of literals, each by the place where it ends, and a value for each variable.
// All the memory that a lawful formula can need is reserved from the start.
ghost use Rattle.std.specs.Prelude.{◌≡◌, ◌+◌, ◌≤◌, true, vec_len, vec_capacity};
ghost use Rattle.solving.specs.Models.{startable};
ghost use Rattle.propagation.specs.Scanning.{ends_well};

#[derive(Drop)]
pub struct Store {
    pub(super) variables: usize,
    pub(super) leading: usize,
    // One row, and where each clause of it ends: all of it is reserved when a solver is opened, as no list of lists could be.
    pub(super) literals: Vec<i16>,
    pub(super) ends: Vec<usize>,
    pub(super) values: Vec<Option<bool>>,
    // Whether the values are a reading. A flag beside them: as an option they would give their memory back where there is none, and
    // to be empty would be a flag by another name.
    pub(super) read: bool,
    ghost sized: { startable variables leading ≡ true },
    ghost ended: { ends_well (vec_len literals) 0 ends.items ≡ true },
    ghost few: { vec_len literals + vec_len ends ≤ 9216 },
    ghost room_for_literals: { 9216 ≤ vec_capacity literals },
    ghost room_for_ends: { 9216 ≤ vec_capacity ends },
    ghost room_for_values: { 560 ≤ vec_capacity values },
    ghost whole: { (read ≡ true → vec_len values ≡ variables) },
}
