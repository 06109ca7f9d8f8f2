// Opening a card for its faults: its branches are listed once.
// A branch is a gate pin whose net has another reader too.
ghost use Rattle.std.specs.Prelude.{◌≡◌, IfOk};
ghost use Rattle.card.specs.Views.{netlist_of};
ghost use Rattle.faults.specs.Views.{modelled};

use crate::model::FaultModel;
use crate::readers::Readers;
use card::netlist::Card;
use std::alloc::{AllocError, Global};

impl FaultModel {
    // The card with its faults.
    pub fn open(heap: Global, card: Card) -> Result<FaultModel, AllocError>
        ensures holds_the_card { IfOk result (λ model. modelled model ≡ netlist_of card) }
    {
        let branches = Readers::of(heap, &card)?.shared(heap)?;
        Ok(FaultModel { card, branches })
    }
}
