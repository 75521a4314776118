// Each ground of each call, with the number, the layer and the place that it tells.
use crate::bench::{Bench, DONE};
use crate::steps::Step;
use model::Node;
use plans::open::OpenPlan;
use rows::hand::Hand;
use scripts::request::How;
use std::process::Abort;
use std::test::Fail;

// For 2 pins and 3 nodes: 3 tree records, and 60 numbers of work.
const LENT: Hand = Hand {
    nodes: 3,
    records: 3,
    work: 60,
};

const FEWER_NODES: Hand = Hand { nodes: 2, ..LENT };

const MORE_NODES: Hand = Hand { nodes: 4, ..LENT };

const LESS_WORK: Hand = Hand { work: 59, ..LENT };

const FEWER_RECORDS: Hand = Hand { records: 2, ..LENT };

// A call, what is lent to it, and how its refusal prints.
type Row = (Step, Hand, &'static str);

// Lines 0 and 1 of bits and lines 2 and 3 of one code each, 1 and 8, use all three nodes; lines 4 to 31 are empty.
const HELD: [Step; 4] = [
    Step::Bits(0b0110, 0),
    Step::Bits(0b1010, 1),
    Step::Bits(0b1111, 2),
    Step::Settings(0b0101_0101, 3),
];

const DRAWS: [Row; 12] = [
    (Step::Other(1, 32), FEWER_NODES, "REFUSED 14 P 1"),
    (Step::Other(3, 4), LENT, "REFUSED 14 P 3"),
    (Step::Bits(0, 32), FEWER_NODES, "REFUSED 15 P 32"),
    (Step::Bits(0, 255), LENT, "REFUSED 15 P 255"),
    (Step::Bits(0, 0), FEWER_NODES, "REFUSED 18 P 2"),
    (Step::Bits(0, 4), MORE_NODES, "REFUSED 18 P 4"),
    (Step::Bits(0, 0), LESS_WORK, "REFUSED 19 P 59"),
    (Step::Bits(0b1010, 0), FEWER_RECORDS, "REFUSED 22 P 0"),
    (Step::Settings(0, 3), LENT, "REFUSED 22 P 3"),
    (Step::Bits(0b1001, 4), FEWER_RECORDS, "REFUSED 24 P 2"),
    (Step::Bits(0b1100, 4), LENT, "REFUSED 25 P 3"),
    (Step::Settings(0b0101_0000, 31), LENT, "REFUSED 25 P 3"),
];

const JOINS: [Row; 15] = [
    (
        Step::Join(How::Both, 32, 33, 34),
        FEWER_NODES,
        "REFUSED 15 P 32",
    ),
    (Step::Join(How::Both, 0, 33, 34), LENT, "REFUSED 15 P 33"),
    (Step::Join(How::Both, 0, 1, 34), LENT, "REFUSED 15 P 34"),
    (
        Step::Join(How::Both, 4, 5, 0),
        FEWER_NODES,
        "REFUSED 18 P 2",
    ),
    (Step::Join(How::Both, 0, 1, 4), MORE_NODES, "REFUSED 18 P 4"),
    (Step::Join(How::Both, 4, 5, 0), LESS_WORK, "REFUSED 19 P 59"),
    (Step::Join(How::Both, 4, 5, 0), LENT, "REFUSED 21 P 4"),
    (Step::Join(How::Both, 0, 5, 0), LENT, "REFUSED 21 P 5"),
    (Step::Join(How::Both, 3, 3, 0), LENT, "REFUSED 22 P 0"),
    (Step::Join(How::Either, 3, 0, 4), LENT, "REFUSED 23 P 3"),
    (Step::Join(How::Both, 0, 3, 4), LENT, "REFUSED 23 P 3"),
    (Step::Join(How::Differ, 3, 3, 4), LENT, "REFUSED 23 P 3"),
    (Step::Join(How::Both, 0, 1, 4), LENT, "REFUSED 25 P 3"),
    (Step::Join(How::Overlay, 0, 1, 4), LENT, "REFUSED 25 P 3"),
    (Step::Join(How::Differ, 0, 1, 31), LENT, "REFUSED 25 P 3"),
];

const STRAPS: [Row; 9] = [
    (Step::Strap(32, 2, true, 33), FEWER_NODES, "REFUSED 15 P 32"),
    (Step::Strap(0, 2, true, 33), LENT, "REFUSED 15 P 33"),
    (Step::Strap(4, 2, true, 0), FEWER_NODES, "REFUSED 16 P 2"),
    (Step::Strap(4, 0, false, 0), FEWER_NODES, "REFUSED 18 P 2"),
    (Step::Strap(4, 0, false, 0), LESS_WORK, "REFUSED 19 P 59"),
    (Step::Strap(4, 0, false, 0), LENT, "REFUSED 21 P 4"),
    (Step::Strap(0, 1, false, 1), LENT, "REFUSED 22 P 1"),
    (Step::Strap(0, 1, false, 4), LENT, "REFUSED 25 P 3"),
    (Step::Strap(0, 1, true, 4), LENT, "REFUSED 25 P 3"),
];

const OTHERS: [Row; 17] = [
    (Step::Erase(32), FEWER_NODES, "REFUSED 15 P 32"),
    (Step::Erase(4), FEWER_NODES, "REFUSED 18 P 2"),
    (Step::Erase(4), LESS_WORK, "REFUSED 19 P 59"),
    (Step::Erase(4), LENT, "REFUSED 21 P 4"),
    (Step::Read(32, 4), FEWER_NODES, "REFUSED 15 P 32"),
    (Step::Read(4, 4), FEWER_NODES, "REFUSED 17 P 4"),
    (Step::Read(0, u32::MAX), LENT, "REFUSED 17 P 4294967295"),
    (Step::Read(4, 3), MORE_NODES, "REFUSED 18 P 4"),
    (Step::Read(4, 3), LENT, "REFUSED 21 P 4"),
    (Step::Same(32, 33), LENT, "REFUSED 15 P 32"),
    (Step::Same(4, 33), LENT, "REFUSED 15 P 33"),
    (Step::Same(4, 5), LENT, "REFUSED 21 P 4"),
    (Step::Same(0, 5), LENT, "REFUSED 21 P 5"),
    (Step::Count(32), FEWER_NODES, "REFUSED 15 P 32"),
    (Step::Count(4), MORE_NODES, "REFUSED 18 P 4"),
    (Step::Count(4), LESS_WORK, "REFUSED 19 P 59"),
    (Step::Count(4), LENT, "REFUSED 21 P 4"),
];

fn check_rows(rt: &(impl Abort + AllocGlobal), rows: &[Row]) -> Result<(), Fail> {
    let mut bench = Bench::new(rt.alloc(), &[0, 1], 3)?;
    for step in HELD {
        bench.step(rt, step, DONE)?;
    }
    for (step, lent, told) in rows {
        bench.step_with(rt, *step, *lent, *told)?;
    }
    Ok(())
}

#[test]
fn of_every_call(rt: HostRuntime) -> Result<(), Fail> {
    check_rows(&rt, &DRAWS)?;
    check_rows(&rt, &JOINS)?;
    check_rows(&rt, &STRAPS)?;
    check_rows(&rt, &OTHERS)
}

fn check_made(
    rt: &(impl Abort + AllocGlobal),
    order: &[u8],
    size: usize,
    told: &str,
) -> Result<(), Fail> {
    match OpenPlan::new(order, &vec![in rt.alloc(); Node::blank(); size]?) {
        Ok(_) => Err(Fail::new("it was made")),
        Err(fault) => {
            assert_eq!(rt; fault.to_string(rt.alloc())?.as_str(), told);
            Ok(())
        },
    }
}

#[test]
fn of_making(rt: HostRuntime) -> Result<(), Fail> {
    check_made(&rt, &[], 0, "REFUSED 12 P 0")?;
    check_made(&rt, &[0; 21], 0, "REFUSED 12 P 21")?;
    check_made(&rt, &[0, 1, 1, 3], 0, "REFUSED 13 P 2")?;
    check_made(&rt, &[2, 2], 0, "REFUSED 13 P 0")?;
    check_made(&rt, &[1, 0], 0, "REFUSED 18 P 0")?;
    check_made(&rt, &[1, 0], 4097, "REFUSED 18 P 4097")
}
