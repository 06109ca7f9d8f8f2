// Memory for the lists of places of the largest formula, all of it reserved from the start.
ghost use Rattle.std.specs.Prelude.{◌≤◌, vec_len};

use crate::occurrence::Occurrence;

#[derive(Drop)]
pub struct Index {
    pub lasts: Vec<u16>,
    pub places: Vec<Occurrence>,
    ghost wide: { 1120 ≤ vec_len lasts },
    ghost roomy: { 9216 ≤ vec_len places },
}
