// Two vectors merged: the fixed cells of both in one vector, which is filled by exactly the settings that fill both.
ghost use Rattle.std.specs.Prelude.{◌≡◌, is_ok, is_err, IfOk, Decides, MatchResult};
ghost use Rattle.vectors.specs.Extending.{Extends};
ghost use Rattle.vectors.specs.Merging.{FilledByBoth, mergeable, Opposed, union as union_of};
ghost use Rattle.vectors.specs.Views.{cells_of};
ghost use Rattle.vectors.specs.declared.merge_fault.MergeFault.TheVariants.{OppositeBits};

use crate::merge_fault::MergeFault;
use crate::vector::Vector;

// The vector with the fixed cells of both.
pub fn merged(a: &Vector, b: &Vector) -> Result<Vector, MergeFault>
    ensures merged_exactly_if_no_bit_clashes { is_ok result ≡ mergeable (cells_of a.now) (cells_of b.now) }
    ensures refused_exactly_if_some_input_is_fixed_oppositely { Decides (is_err result) (Opposed (cells_of a.now) (cells_of b.now)) }
    ensures has_the_fixed_cells_of_both { MatchResult result (λ v. cells_of v ≡ union_of (cells_of a.now) (cells_of b.now)) (λ e. e ≡ OppositeBits) }
    ensures extends_both { IfOk result (λ v. Extends (cells_of v) (cells_of a.now) × Extends (cells_of v) (cells_of b.now)) }
    ensures filled_by_what_fills_both { IfOk result (λ v. FilledByBoth (cells_of a.now) (cells_of b.now) (cells_of v)) }
{
    if a.care & b.care & (a.value ^ b.value) != 0 {
        return Err(MergeFault::OppositeBits);
    }
    Ok(Vector {
        care: a.care | b.care,
        value: a.value | b.value,
    })
}
