// What a solver's answer says of the fault that it was asked about.
// A reading is told as a vector, thinned to the cells that the fault needs.
use vectors::vector::Vector;

#[derive(Clone, Copy)]
pub enum Outcome {
    // Every filling of this vector shows the fault.
    Shown(Vector),
    // No setting shows the fault.
    Untestable,
    // The solver could not tell.
    Unknown,
}
