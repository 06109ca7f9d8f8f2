// The worked cases of the small cards, proved together about the definitions that the calls' contracts use.
#![tactic(auto)]

ghost use Rattle.small_cards.specs.Cases.{SmallCards};

// Cards A, B and c17: reading and its refusals, fault counts, the sizes of two formulas, thinning, merging and the form
// of a vector, searches by both solvers with their steps, adding and merging in a job, and sheets.
pub fn small_cards_stand()
    ensures every_worked_case_holds { SmallCards }
{}
