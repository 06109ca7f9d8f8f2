// What the outputs of a good card show for a vector, as characters in a buffer that the caller lends.
ghost use Rattle.std.specs.Prelude.{◌≡◌, ℕ, ◌≤◌, length, take, is_ok, IfOk, if◌then◌else◌, MatchResult, nat_le};
ghost use Rattle.card.specs.Netlists.{nets as net_count};
ghost use Rattle.card.specs.Views.{netlist_of};
ghost use Rattle.vectors.specs.Views.{cells_of};
ghost use Rattle.tester.specs.Characters.{characters, good_nets, Truthful};
ghost use Rattle.tester.specs.Expecting.{over};
ghost use Rattle.tester.specs.declared.fault.TesterFault.TheVariants.{Room};

use crate::fault::TesterFault;
use card::netlist::Card;
use signal::ternary::Ternary;
use signal::walk::walk;
use vectors::row::character;
use vectors::vector::Vector;

// Writes the character of each output's net, from output 0.
fn show(card: &Card, vector: &Vector, nets: &[Ternary; 256], out: &mut [u8])
    requires walked { take (net_count (netlist_of card.now)) nets.now ≡ good_nets (netlist_of card.now) (cells_of vector.now) }
    requires room { length (netlist_of card.now).outputs ≤ length out.old }
    ensures writes_the_characters { out.new ≡ over (characters (netlist_of card.now) (cells_of vector.now)) out.old }
{
    // By index: tried with a zip and iter_mut, nothing is known of the buffer's bytes after it.
    for (i, net) in card.outputs().iter().enumerate() {
        out[i] = character(nets[*net as usize]);
    }
}

// The expected outputs: one character 0, 1 or X for each, from output 0, and how many there are.
// A lent buffer and a count, since the call for C fills the same buffer.
pub fn expected_outputs(card: &Card, vector: &Vector, out: &mut [u8]) -> Result<usize, TesterFault>
    ensures refused_exactly_for_want_of_room { is_ok result ≡ nat_le (length (netlist_of card.now).outputs) (length out.old) }
    ensures answers_how_many_or_names_the_refusal { MatchResult result (λ m. m ≡ length (netlist_of card.now).outputs) (λ e. e ≡ Room) }
    ensures answers_one_to_thirty_two { IfOk result (λ m. (1 ≤ m) × (m ≤ 32)) }
    ensures writes_the_characters_or_nothing { out.new ≡ (if is_ok result then over (characters (netlist_of card.now) (cells_of vector.now)) out.old else out.old) }
    ensures a_bit_shown_is_what_every_filling_makes { Truthful (netlist_of card.now) (cells_of vector.now) (characters (netlist_of card.now) (cells_of vector.now)) }
{
    let count = card.outputs().len();
    if out.len() < count {
        return Err(TesterFault::Room);
    }
    let mut nets = [Ternary::X; 256];
    vector.enter(card, &mut nets);
    walk(card, None, &mut nets);
    show(card, vector, &nets, out);
    Ok(count)
}
