// A place of the row of literals: which clause it lies in, where the same literal stands before it, and what stands beside it.

#[derive(Clone, Copy)]
pub struct Occurrence {
    // The clause begins at this place of the row,
    pub from: u16,
    // and ends before this one.
    pub to: u16,
    // One past the last place before this one where the same literal stands; 0 where it stands at none, as an option is twice as wide.
    pub before: u16,
    // The literals at the first and the second place of the clause other than this one; where the clause has no such place,
    // a literal that is false in every setting. In a clause of three places they are all that matters once this one is false.
    pub first: i16,
    pub second: i16,
}
