// What no program calls: closure of clauses with their lists over a setting and a trail apart, and a look at a place that closure
// leaves to an earlier one. The expected values were worked out by hand.
use crate::close::{begin, close};
use crate::follow::follow;
use crate::press::{press, press_once};
use crate::{Index, Occurrence, Row, Stack};
use std::test::Fail;

// Of the clauses 3 or not 2, 2 or not 1, 1, one look at each makes 1 true alone; what follows from it is that 2 and 3 are true.
#[test]
fn closure_is_one_look_at_every_clause_and_then_what_follows(rt: HostRuntime) -> Result<(), Fail> {
    let mut index = Index::new(rt.alloc())?;
    let literals = [-2i16, 3, -1, 2, 1];
    let ends = [2usize, 4, 5];
    let clauses = index.fill(Row {
        literals: &literals,
        ends: &ends,
    });
    let mut values = [None; 3];
    let mut places = [0i16; 3];
    let mut trail = Stack::new(&mut places);
    let begun = begin(clauses, &mut values, &mut trail);
    assert_eq!(rt; values, [Some(true), None, None]);
    match begun {
        Ok(()) => assert!(rt; follow(clauses, &mut values, &mut trail, 0).is_ok()),
        Err(_) => assert!(rt; false, "no clause is violated"),
    }
    assert_eq!(rt; values, [Some(true); 3]);
    let mut values = [None; 3];
    trail.clear();
    assert!(rt; close(clauses, &mut values, &mut trail).is_ok());
    assert_eq!(rt; values, [Some(true); 3]);
    Ok(())
}

// Of the clauses 1 and not 1, the first makes 1 true and the second is violated.
#[test]
fn a_violated_clause_ends_closure(rt: HostRuntime) -> Result<(), Fail> {
    let mut index = Index::new(rt.alloc())?;
    let literals = [1i16, -1];
    let ends = [1usize, 2];
    let clauses = index.fill(Row {
        literals: &literals,
        ends: &ends,
    });
    let mut values = [None];
    let mut places = [0i16];
    let mut trail = Stack::new(&mut places);
    assert!(rt; close(clauses, &mut values, &mut trail).is_err());
    Ok(())
}

// The clause 1, 2, 1, 3 with every literal false, at its third place, before which 1 stands at its first.
#[test]
fn a_place_can_be_looked_at_although_an_earlier_one_has_its_literal(rt: HostRuntime) {
    let literals = [1i16, 2, 1, 3];
    let third = Occurrence {
        from: 0,
        to: 4,
        before: 1,
        first: 1,
        second: 2,
    };
    let mut values = [Some(false); 3];
    let mut places = [0i16; 3];
    let mut trail = Stack::new(&mut places);
    assert!(rt; press(&literals, &mut values, &mut trail, third).is_err());
    assert!(rt; press_once(&literals, &mut values, &mut trail, third).is_ok());
}
