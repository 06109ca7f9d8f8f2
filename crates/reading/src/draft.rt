// A card as far as it is read, in vectors of the card's own limits: no memory is asked for until the bytes are known to spell a card.
// The vectors come first, so that they lie where they are made: behind a byte they would be copied there.
ghost use Rattle.std.specs.Prelude.{◌+◌, ◌≤◌};
ghost use Rattle.arrayvec.specs.ArrayVec.{array_vec_len};

use arrayvec::ArrayVec;
use card::gate::Gate;

#[derive(Drop)]
pub struct Draft {
    pub(crate) gates: ArrayVec<Gate, 256>,
    pub(crate) outputs: ArrayVec<u16, 32>,
    pub(crate) inputs: u8,
    ghost inputs_fit: { inputs ≤ 32 },
    ghost nets_fit: { inputs + array_vec_len gates ≤ 256 },
}
