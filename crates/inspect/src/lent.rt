// What no contract can say of a card that is lent to be read over: that there is memory, so that good bytes are granted at all.
// No program reads over a lent card; the expected numbers were worked out by hand.
use card::netlist::Card;
use reading::read::read;
use std::test::Fail;

// Two inputs, both outputs; in the refused bytes the second output, whose command begins at byte 5, is the first one again (6).
#[test]
fn a_refused_read_leaves_the_lent_card_and_a_granted_one_replaces_it(
    rt: HostRuntime,
) -> Result<(), Fail> {
    let mut card = Card::wire(rt.alloc())?;
    let fault = read(
        rt.alloc(),
        b"\x20\x20\x40\x00\x00\x40\x00\x00\x7f",
        &mut card,
    )
    .err();
    assert!(rt; fault.is_some_and(|fault| fault.number() == 6 && fault.offset() == 5));
    assert_eq!(rt; card.inputs(), 1);
    assert_eq!(rt; card.outputs().len(), 1);
    assert!(rt;
        read(
            rt.alloc(),
            b"\x20\x20\x40\x00\x00\x40\x00\x01\x7f",
            &mut card
        )
        .is_ok()
    );
    assert_eq!(rt; card.inputs(), 2);
    assert_eq!(rt; card.outputs().len(), 2);
    Ok(())
}
