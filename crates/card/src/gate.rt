// A gate: its function and the nets that its pins read, in pin order.
// The record has room for exactly the pins that a gate can have, so no unused pin holds a number.
use crate::function::Function;

// The nets that the pins of a gate read, from pin 0.
#[derive(Clone, Copy, PartialEq, Eq, Default)]
pub enum Operands {
    #[default]
    None,
    One(u16),
    Two(u16, u16),
}

#[derive(Clone, Copy, PartialEq, Eq, Default)]
pub struct Gate {
    pub function: Function,
    pub operands: Operands,
}
