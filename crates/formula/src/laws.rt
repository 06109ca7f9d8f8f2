// What is proved of the definitions of this crate: statements with a proof, for whoever builds on them.
ghost use Rattle.formula.specs.CardB.{CardBStands};
ghost use Rattle.formula.specs.Meanings.{FormulaStands};
ghost use Rattle.formula.specs.RowLaws.{RowsMean};

// The clauses of the table say what their functions mean.
pub fn rows_stand()
    ensures each_rows_clauses_say_that_a_is_the_function_of_its_pins { RowsMean }
{}

// The formula of every fault of every card means that the fault is shown, is led, and fits a solver.
pub fn formula_stands()
    ensures every_formula_means_its_fault_is_led_and_fits { FormulaStands }
{}

// The formula of one fault, written out.
pub fn card_b_stands()
    ensures the_formula_of_a_fault_of_card_b { CardBStands }
{}
