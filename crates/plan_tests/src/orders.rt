// A row of calls over 1 to 4 pins, in several orders.
use crate::bench::{Bench, DONE};
use crate::steps::Step;
use scripts::request::How;
use std::process::Abort;
use std::test::Fail;

const ORDERS: [&'static [u8]; 10] = [
    &[0],
    &[0, 1],
    &[1, 0],
    &[0, 1, 2],
    &[2, 0, 1],
    &[1, 2, 0],
    &[0, 1, 2, 3],
    &[3, 1, 0, 2],
    &[2, 3, 1, 0],
    &[1, 0, 3, 2],
];

// Bits first; then settings beside them, which no joining of bits takes, and lines of both.
const ROW: [(Step, &'static str); 27] = [
    (Step::Bits(0x6AD2, 0), DONE),
    (Step::Bits(0x3CA5, 1), DONE),
    (Step::Join(How::Differ, 0, 1, 2), DONE),
    (Step::Join(How::Both, 1, 2, 3), DONE),
    (Step::Join(How::Either, 3, 3, 4), DONE),
    (Step::Strap(2, 0, true, 5), DONE),
    (Step::Settings(0x1B2D_C3E2, 6), DONE),
    (Step::Join(How::Differ, 0, 6, 7), "REFUSED 23 P 6"),
    (Step::Join(How::Overlay, 6, 0, 7), DONE),
    (Step::Erase(0), DONE),
    (Step::Erase(6), DONE),
    (Step::Strap(7, 0, false, 0), DONE),
    (Step::Join(How::Overlay, 1, 7, 6), DONE),
    (Step::Join(How::Either, 7, 1, 6), "REFUSED 22 P 6"),
    (Step::Erase(1), DONE),
    (Step::Join(How::Both, 7, 2, 1), "REFUSED 23 P 7"),
    (Step::Join(How::Either, 2, 5, 1), DONE),
    (Step::Erase(7), DONE),
    (Step::Erase(6), DONE),
    (Step::Settings(0xFFFF_5541, 6), DONE),
    (Step::Join(How::Overlay, 6, 6, 7), DONE),
    (Step::Erase(2), DONE),
    (Step::Bits(0x7FFE, 2), DONE),
    (Step::Erase(3), DONE),
    (Step::Join(How::Both, 2, 1, 3), DONE),
    (Step::Erase(5), DONE),
    (Step::Strap(6, 0, true, 5), DONE),
];

fn check_row(rt: &(impl Abort + AllocGlobal), order: &[u8]) -> Result<(), Fail> {
    let mut bench = Bench::new(rt.alloc(), order, 90)?;
    for (step, told) in ROW {
        bench.step(rt, step, told)?;
    }
    Ok(())
}

#[test]
fn in_every_order(rt: HostRuntime) -> Result<(), Fail> {
    for order in ORDERS {
        check_row(&rt, order)?;
    }
    Ok(())
}
