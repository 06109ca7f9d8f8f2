// The readers of a card in one list, how many of them read each net, and those that share their net with another.
// The lists are made once, when a card is opened; the count is kept by net, so that no list is searched.
ghost use Rattle.std.specs.Prelude.{◌≡◌, ℕ, ◌+◌, ◌<◌, ◌++◌, length, IfOk, OnOk, slice_index, slice_index_or};
ghost use Rattle.card.specs.Netlists.{pins_of};
ghost use Rattle.card.specs.Views.{netlist_of};
ghost use Rattle.faults.specs.Readers.{pin_readers, readers, read_in, shared};
ghost use Rattle.faults.specs.declared.reader.Reader.{Reader as Read};

use crate::reader::Reader;
use card::gate::{Gate, Operands};
use card::netlist::Card;
use signal::line::Line;
use std::alloc::{AllocError, Global};

// So many readers make a net shared.
const SHARED: usize = 2;

// Puts the pins of the gate that makes a net behind the list.
fn push_pins(list: &mut Vec<Reader>, net: u16, gate: Gate) -> Result<(), AllocError>
    ensures appends_the_pins_in_order { OnOk result (list.new.items ≡ list.old.items ++ pin_readers net 0 (pins_of gate)) }
{
    match gate.operands {
        Operands::None => {}
        Operands::One(only) => list.push(Reader {
            line: Line::Pin(net, 0),
            net: only,
        })?,
        Operands::Two(first, second) => {
            list.push(Reader {
                line: Line::Pin(net, 0),
                net: first,
            })?;
            list.push(Reader {
                line: Line::Pin(net, 1),
                net: second,
            })?;
        }
    }
    Ok(())
}

// The readers of a card, gate by gate and pin by pin.
#[derive(Drop)]
pub(crate) struct Readers {
    pub(crate) list: Vec<Reader>,
    ghost read_nets_of_a_card: { (i : ℕ) (d : Read) → i < length list.items → (slice_index_or list.items i d).net < 256 },
}

impl Readers {
    // Lists the readers of a card.
    pub(crate) fn of(heap: Global, card: &Card) -> Result<Readers, AllocError>
        ensures lists_the_readers { IfOk result (λ all. all.list.items ≡ readers (netlist_of card.now)) }
    {
        let inputs = card.inputs();
        let mut list = Vec::new(heap);
        // Gate i makes net inputs + i.
        for (i, gate) in card.gates().iter().enumerate() {
            push_pins(&mut list, (inputs + i) as u16, *gate)?;
        }
        Ok(Readers { list })
    }

    // How many of the readers read each net.
    fn counts(&self) -> [usize; 256]
        ensures one_count_for_each_net { length result ≡ 256 }
        ensures counts_the_readers { (net : ℕ) → slice_index result net ≡ read_in self.now.list.items net }
    {
        let mut counts = [0; 256];
        for reader in &self.list {
            counts[reader.net as usize] += 1;
        }
        counts
    }

    // The readers whose net has two readers or more.
    pub(crate) fn shared(&self, heap: Global) -> Result<Vec<Reader>, AllocError>
        ensures keeps_those_that_share { IfOk result (λ found. found.items ≡ shared self.now.list.items self.now.list.items) }
    {
        let counts = self.counts();
        self.list
            .iter()
            .filter(|reader| counts[reader.net as usize] >= SHARED)
            .copied()
            .collect(heap)
    }
}
