// `Table`: what a job holds. The type carries that every fault has a mark and a flag, and that there is room for 512 vectors.
ghost use Rattle.std.specs.Prelude.{◌≡◌, ◌≤◌, vec_len, vec_capacity};
ghost use Rattle.faults.specs.Sites.{fault_count};
ghost use Rattle.faults.specs.Views.{modelled};

use crate::shown::Marked;
use faults::model::FaultModel;
use vectors::vector::Vector;

#[derive(Drop)]
pub struct Table {
    pub(crate) faults: FaultModel,
    pub(crate) states: Vec<Marked>,
    pub(crate) vectors: Vec<Vector>,
    ghost a_mark_and_a_flag_for_each_fault: { vec_len states ≡ fault_count (modelled faults) },
    ghost at_most_512: { vec_len vectors ≤ 512 },
    ghost room_for_512: { 512 ≤ vec_capacity vectors },
}
