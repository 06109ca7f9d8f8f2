// `Vector`: a cell 0, 1 or X for each input, as two numbers of 32 bits.
// Bit j of `care` is 1 where input j is fixed, bit j of `value` is its bit there; a free input has 0 in both.
ghost use Rattle.std.specs.Prelude.{◌≡◌, bit_and};

#[derive(Clone, Copy)]
pub struct Vector {
    pub(crate) care: u32,
    pub(crate) value: u32,
    ghost free_is_zero: { bit_and value care ≡ value },
}
