// The laws of closure and of the two solvers as they are defined: statements with a proof, for whoever builds on them.
// The functions do nothing: their contracts are the laws.
ghost use Rattle.solving.specs.ClosureLaws.{Keeps, Settles, Rests, Monotone};
ghost use Rattle.solving.specs.Orders.{AnyOrder};
ghost use Rattle.solving.specs.SearchLaws.{Backtracks, Lowest, Settled};
ghost use Rattle.solving.specs.Promises.{BacktrackingAnswers, CountingAnswers};

// Closure keeps every satisfying reading, ends at rest, is monotone, and ends the same in any order;
// a full setting that violates nothing satisfies every clause.
pub fn closure_stands()
    ensures keeps_satisfying_readings { Keeps }
    ensures unviolated_and_full_satisfies { Settles }
    ensures ends_at_rest { Rests }
    ensures is_monotone { Monotone }
    ensures ends_the_same_in_any_order { AnyOrder }
{}

// Backtracking by any rule that picks an open variable as long as there is one: from any start its answers are sound and within
// the budget; from every variable open, and if it picks leading variables first, a led formula is settled in time.
// The lowest open variable is such a rule, and with it backtracking keeps what every solver promises.
pub fn backtracking_stands()
    ensures is_sound_and_within_budget { Backtracks }
    ensures settles_led_formulas { Settled }
    ensures lowest_open_is_such_a_rule { Lowest }
    ensures keeps_the_promises { BacktrackingAnswers }
{}

// Counting keeps the promises too.
pub fn counting_stands()
    ensures keeps_the_promises { CountingAnswers }
{}
