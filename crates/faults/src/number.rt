// Faults by number: how many there are, and the line and level of each.
// A fault is a site, which is a net or a branch, with the level that it sticks at: site f / 2, level f % 2.
ghost use Rattle.std.specs.Prelude.{◌≡◌, ◌≤◌, is_ok, Some, MatchResult, nat_lt};
ghost use Rattle.card.specs.Views.{netlist_of};
ghost use Rattle.faults.specs.SiteLaws.{SiteLaws};
ghost use Rattle.faults.specs.Sites.{fault_count, line_of, stuck_of};
ghost use Rattle.faults.specs.Views.{modelled};
ghost use Rattle.faults.specs.declared.refusal.FaultRefusal.TheVariants.{NoSuchFault};

use crate::model::FaultModel;
use crate::refusal::FaultRefusal;
use card::netlist::Card;
use signal::line::{Line, Stuck};

impl FaultModel {
    // The card that the faults are those of.
    pub fn card(&self) -> &Card
        ensures has_the_same_netlist { netlist_of result.now ≡ modelled self.now }
    {
        &self.card
    }

    // How many faults the card has.
    pub fn fault_count(&self) -> usize
        ensures counts_the_faults { result ≡ fault_count (modelled self.now) }
        ensures at_most_1532 { result ≤ 1532 }
        ensures sites_are_the_nets_and_the_branches { SiteLaws (modelled self.now) }
    {
        2 * (self.card.nets() + self.branches.len())
    }

    // The line of a site: the nets come first, then the branches.
    fn site(&self, site: usize) -> Option<Line>
        ensures is_the_sites_line { result ≡ line_of (modelled self.now) site }
    {
        let nets = self.card.nets();
        if site < nets {
            return Some(Line::Net(site as u16));
        }
        let branch = self.branches.get(site - nets)?;
        Some(branch.line)
    }

    // The line and the level of a fault.
    pub fn line(&self, fault: usize) -> Result<Stuck, FaultRefusal>
        ensures refused_exactly_if_there_is_no_such_fault { is_ok result ≡ nat_lt fault (fault_count (modelled self.now)) }
        ensures is_the_faults_line { MatchResult result (λ s. stuck_of (modelled self.now) fault ≡ Some s) (λ e. e ≡ NoSuchFault) }
    {
        let line = self.site(fault / 2).ok_or(FaultRefusal::NoSuchFault)?;
        let level = fault % 2 == 1;
        Ok(Stuck { line, level })
    }
}
