// Cards: combinational netlists of at most 32 inputs, 256 nets and 32 outputs.
// The type `Card` carries every rule of a card, so whoever holds one may index its nets without a test; `alike` compares two.
#![tactic(auto)]

pub mod access;
pub mod alike;
pub mod assemble;
pub mod function;
pub mod gate;
pub mod netlist;
