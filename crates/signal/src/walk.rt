// The walk: gives each net of a card its value, from the values at the inputs, for any kind of signal,
// with or without a line that sticks. It needs no memory and refuses nothing.
// Where the nets of the good card are known, the walk with a stuck line begins at the net of that line.
ghost use Rattle.std.specs.Prelude.{◌≡◌, ℕ, ◌+◌, ◌<◌, ◌≤◌, List, length, take, drop, None, Some, is_some, IfSome, nat_lt, slice_index_or};
ghost use Rattle.card.specs.Netlists.{nets as net_count};
ghost use Rattle.card.specs.Views.{netlist_of};
ghost use Rattle.signal.specs.GateLaws.{GateLaws};
ghost use Rattle.signal.specs.Laws.{Only};
ghost use Rattle.signal.specs.Lists.{Carries, CarriesStuck};
ghost use Rattle.signal.specs.Meanings.{BitMeaning};
ghost use Rattle.signal.specs.Walks.{entered, net_of, net_values, walked};

use crate::kind::Signal;
use crate::line::{Line, Stuck, sticks_net};
use crate::value::GateNet;
use card::gate::Gate;
use card::netlist::Card;

// Puts the stuck level in the place of an input that sticks.
fn enter_stuck_input<S: Signal + Copy>(inputs: usize, stuck: Option<Stuck>, nets: &mut [S; 256])
    requires inputs_fit { inputs ≤ 256 }
    ensures array_keeps_its_length { length nets.new ≡ length nets.old }
    ensures inputs_are_entered { take inputs nets.new ≡ entered S.Signal.operations stuck 0 (take inputs nets.old) }
    ensures entries_behind_the_inputs_stay { drop inputs nets.new ≡ drop inputs nets.old }
{
    if let Some(fault) = stuck
        && let Line::Net(net) = fault.line
        && (net as usize) < inputs
    {
        nets[net as usize] = S::constant(fault.level);
    }
}

// The gates from gate `first` on.
fn gates_from(card: &Card, first: usize) -> &[Gate]
    requires begins_within_the_gates { first ≤ length (netlist_of card.now).gates }
    ensures are_the_gates_from_there { result.now ≡ drop first (netlist_of card.now).gates }
{
    &card.gates()[first..]
}

// Gives the nets of the gates from gate `first` on their values, from the nets before them.
fn walk_gates<S: Signal + Copy>(
    card: &Card,
    stuck: Option<Stuck>,
    first: usize,
    nets: &mut [S; 256],
)
    requires begins_within_the_gates { first ≤ length (netlist_of card.now).gates }
    ensures array_keeps_its_length { length nets.new ≡ length nets.old }
    ensures goes_on_from_the_nets_before { let c = netlist_of card.now in take (net_count c) nets.new ≡ walked S.Signal.operations stuck (c.inputs + first) (take (c.inputs + first) nets.old) (drop first c.gates) }
    ensures entries_behind_the_nets_stay { let c = netlist_of card.now in drop (net_count c) nets.new ≡ drop (net_count c) nets.old }
{
    let start = card.inputs() + first;
    for (i, gate) in gates_from(card, first).iter().enumerate() {
        let net = start + i;
        nets[net] = GateNet { stuck, net }.value(*gate, nets);
    }
}

// Gives every net its value. Entries 0 to inputs - 1 of `nets` hold the values at the inputs on entry;
// on return entry j holds the value of net j, for every net j, and the entries behind the nets are as they were.
// A stuck net has its level for all its readers and as an output; a stuck pin has it for that pin alone.
pub fn walk<S: Signal + Copy>(card: &Card, stuck: Option<Stuck>, nets: &mut [S; 256])
    ensures array_keeps_its_length { length nets.new ≡ length nets.old }
    ensures every_net_has_its_value { let c = netlist_of card.now in take (net_count c) nets.new ≡ net_values S.Signal.operations stuck c (take c.inputs nets.old) }
    ensures entries_behind_the_nets_stay { let c = netlist_of card.now in drop (net_count c) nets.new ≡ drop (net_count c) nets.old }
    ensures every_net_allows_what_allowed_inputs_make { let c = netlist_of card.now in ((l : ℕ) → l < S.Signal.lanes → Carries (λ x. S.Signal.allows x l) stuck c (take c.inputs nets.old) (take (net_count c) nets.new)) }
    ensures definite_inputs_make_every_net_definite { let c = netlist_of card.now in ((l : ℕ) → l < S.Signal.lanes → Carries (Only (λ x. S.Signal.allows x l)) stuck c (take c.inputs nets.old) (take (net_count c) nets.new)) }
    ensures every_gate_keeps_the_laws_of_its_kind { (l : ℕ) → l < S.Signal.lanes → GateLaws S.Signal.operations (λ x. S.Signal.allows x l) }
    ensures at_bits_each_function_means_its_name { BitMeaning }
{
    enter_stuck_input(card.inputs(), stuck, nets);
    walk_gates(card, stuck, 0, nets);
}

// Makes the nets of the good card those of the card where this line sticks. No net before the line's net changes, so the walk begins there.
pub fn walk_stuck<S: Signal + Copy>(card: &Card, stuck: Stuck, nets: &mut [S; 256])
    ensures array_keeps_its_length { length nets.new ≡ length nets.old }
    ensures good_nets_become_the_faulty_ones { let c = netlist_of card.now in ((inputs : List S) → length inputs ≡ c.inputs → take (net_count c) nets.old ≡ net_values S.Signal.operations None c inputs → take (net_count c) nets.new ≡ net_values S.Signal.operations (Some stuck) c inputs) }
    ensures entries_behind_the_nets_stay { let c = netlist_of card.now in drop (net_count c) nets.new ≡ drop (net_count c) nets.old }
    ensures every_net_allows_what_allowed_inputs_make { CarriesStuck S.Signal.operations S.Signal.lanes (λ l x. S.Signal.allows x l) stuck (netlist_of card.now) nets.old nets.new }
    ensures definite_inputs_make_every_net_definite { CarriesStuck S.Signal.operations S.Signal.lanes (λ l. Only (λ x. S.Signal.allows x l)) stuck (netlist_of card.now) nets.old nets.new }
{
    let inputs = card.inputs();
    enter_stuck_input(inputs, Some(stuck), nets);
    let first = stuck.line.net().saturating_sub(inputs);
    walk_gates(card, Some(stuck), first.min(card.gates().len()), nets);
}

// What the line's net carries where the line sticks, from the nets of the good card; nothing if the card has no such net.
pub fn stuck_value<S: Signal + Copy>(card: &Card, stuck: Stuck, good: &[S; 256]) -> Option<S>
    ensures answered_exactly_if_the_card_has_the_net { is_some result ≡ nat_lt (net_of stuck.line) (net_count (netlist_of card.now)) }
    ensures is_the_nets_value_where_the_line_sticks { let c = netlist_of card.now in ((inputs : List S) (d : S) → length inputs ≡ c.inputs → take (net_count c) good.now ≡ net_values S.Signal.operations None c inputs → IfSome result (λ x. x ≡ slice_index_or (net_values S.Signal.operations (Some stuck) c inputs) (net_of stuck.line) d)) }
{
    let net = stuck.line.net();
    let inputs = card.inputs();
    let at = GateNet {
        stuck: Some(stuck),
        net,
    };
    if net < inputs {
        let sticks = sticks_net(at.stuck, net);
        return Some(at.unless_stuck(sticks, good[net]));
    }
    let gate = card.gates().get(net - inputs)?;
    Some(at.value(*gate, good))
}
