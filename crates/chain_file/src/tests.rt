use crate::stored::StoredChain;
use chain::interface::Chain;
use chain::record::NO_ROW;
use chain::refusal::Refusal;
use std::process::Abort;
use std::test::Fail;

// A chain with four states and two rates; state 2 is bad.
const FILE: [u8; 113] = [
    1, 0, 4, 0, 1, 0, 44, 0, 0, 0, 7, 0, 0, 0, 2, 0, 51, 0, 0, 0, 4, 0, 0, 0, 3, 0, 55, 0, 0, 0,
    16, 0, 0, 0, 4, 0, 71, 0, 0, 0, 42, 0, 0, 0, 4, 0, 2, 1, 0, 0, 0, 0, 0, 1, 0, 0, 0, 0, 0, 15,
    0, 0, 0, 30, 0, 0, 0, 36, 0, 0, 0, 1, 0, 2, 1, 0, 0, 0, 1, 0, 3, 0, 1, 0, 255, 255, 1, 1, 2, 0,
    0, 0, 0, 1, 0, 2, 0, 1, 0, 255, 255, 0, 1, 2, 0, 1, 0, 0, 1, 3, 0, 1, 0,
];

fn is_refused(
    rt: &impl Abort,
    res: Result<(), Refusal>,
    number: u8,
    place: u32,
) -> Result<(), Fail> {
    match res {
        Ok(()) => Err(Fail::new("not refused")),
        Err(refusal) => {
            assert_eq!(rt; refusal.number(), number);
            assert_eq!(rt; refusal.place(), place);
            Ok(())
        }
    }
}

#[test]
fn opens(rt: HostRuntime) -> Result<(), Fail> {
    let mut chain = StoredChain::new();
    chain.open(&FILE).ok().ok_or("refused")?;
    assert_eq!(rt; chain.states(), 4);
    assert_eq!(rt; chain.rates(), 2);
    assert_eq!(rt; chain.mark(1).ok(), Some(0));
    assert_eq!(rt; chain.mark(2).ok(), Some(1));
    assert_eq!(rt; chain.mark(4).ok(), None);
    Ok(())
}

#[test]
fn tells_a_row(rt: HostRuntime) -> Result<(), Fail> {
    let mut chain = StoredChain::new();
    chain.open(&FILE).ok().ok_or("refused")?;
    let mut row = NO_ROW;
    chain.row(1, &mut row).ok().ok_or("no row")?;
    assert_eq!(rt; row.edge_count, 2);
    let edge = row.edges[1];
    assert_eq!(rt; edge.successor, 2);
    assert_eq!(rt; edge.coefficients[1], -1);
    Ok(())
}

#[test]
fn stays_when_refused(rt: HostRuntime) -> Result<(), Fail> {
    let mut chain = StoredChain::new();
    is_refused(&rt, chain.open(&[]), 1, 0)?;
    assert_eq!(rt; chain.states(), 1);
    Ok(())
}

#[test]
fn tells_the_place(rt: HostRuntime) -> Result<(), Fail> {
    let mut equal = FILE;
    equal[80] = 1;
    let mut chain = StoredChain::new();
    is_refused(&rt, chain.open(&equal), 4, 80)
}
