// The two copies of a card that a formula speaks of: the good one, and the faulty one with the line that sticks.
// A side holds the card itself, so whoever puts its gates or its inputs has the rules of a card with it.
ghost use Rattle.std.specs.Prelude.{◌≡◌, ◌<◌};
ghost use Rattle.card.specs.Netlists.{nets};
ghost use Rattle.card.specs.Views.{netlist_of};
ghost use Rattle.formula.specs.Posing.{net_variable};

use crate::variables::Variable;
use card::netlist::Card;
use signal::line::Stuck;

// One of the two: the card, and the line that sticks on it, or none on the good one. The solver that is given a side's clauses stands
// beside it: in one struct with it, each call would have to promise too that the card stays and that the solver is the one that was lent.
#[derive(Clone, Copy)]
pub(crate) struct Side<'a> {
    pub(crate) card: &'a Card,
    pub(crate) stuck: Option<Stuck>,
}

impl Side<'_> {
    // The variable of a net on this side.
    pub(crate) fn net(self, net: usize) -> Variable
        requires is_a_net { net < nets (netlist_of self.card.now) }
        ensures is_the_nets_variable { result.number ≡ net_variable self.entry.stuck (nets (netlist_of self.entry.card.now)) net }
    {
        match self.stuck {
            None => Variable::good_net(net),
            Some(_) => Variable::faulty_net(self.card, net),
        }
    }
}
