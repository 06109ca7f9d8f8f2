// The sheet of card B, and that of a card that cannot be read, worked out by hand.
ghost use Rattle.report.specs.Worked.{SheetOfABadCard, SheetOfCardB};

// Both texts are what the definitions give.
pub fn worked_sheets_stand()
    ensures the_sheet_of_card_b { SheetOfCardB }
    ensures the_sheet_of_a_bad_card { SheetOfABadCard }
{}
