// The variables of a formula: the nets of the good card, those of the faulty card, the stuck line, the outputs.
// The numbering stands here and in `Variables`, and nowhere else.
ghost use Rattle.std.specs.Prelude.{◌≡◌, suc, pred, ◌<◌, ◌≤◌, pos, negsuc, length, if◌then◌else◌};
ghost use Rattle.card.specs.Netlists.{nets};
ghost use Rattle.card.specs.Views.{netlist_of};
ghost use Rattle.formula.specs.Variables.{difference, faulty, good, stuck_line, variables};

use card::netlist::Card;

// A variable, as every solver takes it.
#[derive(Clone, Copy)]
pub(crate) struct Variable {
    pub(crate) number: u16,
    ghost counts_from_1: { 1 ≤ number },
    ghost is_a_solvers: { number ≤ 560 },
}

impl Variable {
    // The variable at this place, from 0.
    fn at(place: usize) -> Variable
        requires few_places { place < 560 }
        ensures has_the_next_number { result.number ≡ suc place }
    {
        Variable {
            number: place as u16 + 1,
        }
    }

    // The variable of a net of the good card.
    pub(crate) fn good_net(net: usize) -> Variable
        requires is_a_net_of_some_card { net < 256 }
        ensures is_the_good_nets_variable { result.number ≡ good net }
    {
        Variable::at(net)
    }

    // The variable of a net of the faulty card. Each call asks that the net is the card's: it is a fact of both together, and a type of
    // both would be made anew for each call.
    pub(crate) fn faulty_net(card: &Card, net: usize) -> Variable
        requires is_a_net { net < nets (netlist_of card.now) }
        ensures is_the_faulty_nets_variable { result.number ≡ faulty (nets (netlist_of card.now)) net }
    {
        Variable::at(card.nets() + net)
    }

    // The variable of the stuck line.
    pub(crate) fn stuck_line(card: &Card) -> Variable
        ensures is_the_stuck_lines_variable { result.number ≡ stuck_line (nets (netlist_of card.now)) }
    {
        Variable::at(card.nets() + card.nets())
    }

    // The variable that says whether an output differs.
    pub(crate) fn difference(card: &Card, output: usize) -> Variable
        requires is_an_output { output < length (netlist_of card.now).outputs }
        ensures is_the_outputs_variable { result.number ≡ difference (nets (netlist_of card.now)) output }
    {
        Variable::at(card.nets() + card.nets() + 1 + output)
    }

    // The literal that is true where the variable has this bit.
    pub(crate) fn literal(self, bit: bool) -> i16
        ensures is_the_variable_or_its_negation { result ≡ (if bit then pos self.number else negsuc (pred self.number)) }
    {
        let number = self.number as i16;
        if bit { number } else { -number }
    }
}

// How many variables there are.
pub fn variable_count(card: &Card) -> u16
    ensures counts_the_variables { result ≡ variables (netlist_of card.now) }
{
    Variable::stuck_line(card).number + card.outputs().len() as u16
}
