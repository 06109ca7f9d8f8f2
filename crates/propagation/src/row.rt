// The clauses of a formula in one row of literals, each by the place where it ends: no list of lists, so that all of it can be
// reserved from the start.
ghost use Rattle.std.specs.Prelude.{◌≤◌, length};
ghost use Rattle.std.proofs.Props.{props};
ghost use Rattle.propagation.specs.Scanning.{Ends, Ends_prop};

#[derive(Clone, Copy)]
pub struct Row<'a> {
    pub literals: &'a [i16],
    pub ends: &'a [usize],
    ghost ended: { Ends literals.now 0 ends.now } by { Prim.hlevel (props, Ends_prop) },
    ghost few: { length literals.now ≤ 9216 },
}
