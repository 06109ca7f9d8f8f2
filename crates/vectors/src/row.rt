// A row of cells as characters: `0`, `1` and `X`, one for each input from input 0.
// A row that is read prints back as it was.
ghost use Rattle.std.specs.Prelude.{◌≡◌, ◌≤◌, true, List, map, length, is_some, IfSome, MatchOption};
ghost use Rattle.signal.specs.declared.ternary.Ternary.{Ternary as Cell};
ghost use Rattle.vectors.specs.Rows.{character_of, fixed_bit, is_character, is_row, level_bit, printed};
ghost use Rattle.vectors.specs.Vectors.{Cells, InForm};
ghost use Rattle.vectors.specs.Views.{cells_of};

use crate::vector::Vector;
use signal::ternary::Ternary;

// The character of a cell.
// Functions and no From or TryFrom: the type of a cell is of the crate of signals, which knows no characters.
pub fn character(cell: Ternary) -> u8
    ensures is_the_cells_character { result ≡ character_of cell }
{
    match cell {
        Ternary::Low => b'0',
        Ternary::High => b'1',
        Ternary::X => b'X',
    }
}

// The cell that a character stands for.
fn cell_of(byte: u8) -> Option<Ternary>
    ensures a_cells_character { is_some result ≡ is_character byte }
    ensures has_that_character { IfSome result (λ t. character_of t ≡ byte) }
{
    match byte {
        b'0' => Some(Ternary::Low),
        b'1' => Some(Ternary::High),
        b'X' => Some(Ternary::X),
        _ => None,
    }
}

// 1 for a fixed cell.
fn fixed(cell: Ternary) -> u32
    ensures is_one_if_fixed { result ≡ fixed_bit cell }
{
    u32::from(cell != Ternary::X)
}

// The bit of a cell, 0 for a free one.
fn level(cell: Ternary) -> u32
    ensures is_the_cells_bit { result ≡ level_bit cell }
{
    u32::from(cell == Ternary::High)
}

// The vector of a row of characters, one for each of at most 32 inputs; None for any other bytes.
pub fn row(bytes: &[u8], inputs: usize) -> Option<Vector>
    ensures read_exactly_if_a_row { is_some result ≡ is_row inputs bytes.now }
    ensures every_row_of_cells_is_read { (cells : List Cell) → length cells ≡ inputs → inputs ≤ 32 → map character_of cells ≡ bytes.now → is_some result ≡ true }
    ensures a_printed_vector_reads_back { (v : Cells) → InForm inputs v → inputs ≤ 32 → printed inputs v ≡ bytes.now → MatchOption result ⊥ (λ w. cells_of w ≡ v) }
    ensures prints_back { IfSome result (λ v. printed inputs (cells_of v) ≡ bytes.now) }
    ensures is_in_form { IfSome result (λ v. InForm inputs (cells_of v)) }
{
    if bytes.len() != inputs || inputs > 32 {
        return None;
    }
    let mut care = 0;
    let mut value = 0;
    for (j, byte) in bytes.iter().enumerate() {
        let cell = cell_of(*byte)?;
        care |= fixed(cell) << j;
        value |= level(cell) << j;
    }
    Some(Vector { care, value })
}
