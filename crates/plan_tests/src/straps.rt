// Every pin of maps of 4 pins strapped, low and high, in several orders.
use crate::bench::{Bench, DONE};
use crate::steps::Step;
use std::process::Abort;
use std::test::Fail;

const ORDERS: [[u8; 4]; 4] = [[0, 1, 2, 3], [3, 1, 0, 2], [2, 3, 1, 0], [1, 0, 3, 2]];

// Tables of bits: a switch at 5, two blocks, and two where every pin matters.
const PATTERNS: [u64; 4] = [0xFFE0, 0x0FF0, 0x6996, 0xB2E4];

// The map on line 0, and beside it the strapped lines, one after the other; the pin of one that is strapped already
// does not matter any more.
fn check_straps(rt: &(impl Abort + AllocGlobal), order: &[u8], pattern: u64) -> Result<(), Fail> {
    let mut bench = Bench::new(rt.alloc(), order, 30)?;
    bench.step(rt, Step::Bits(pattern, 0), DONE)?;
    for pin in 0..4 {
        for step in [
            Step::Strap(0, pin, false, 1),
            Step::Strap(0, pin, true, 2),
            Step::Strap(1, pin, true, 3),
            Step::Erase(1),
            Step::Erase(2),
            Step::Erase(3),
        ] {
            bench.step(rt, step, DONE)?;
        }
    }
    Ok(())
}

#[test]
fn of_four_pins(rt: HostRuntime) -> Result<(), Fail> {
    for order in ORDERS {
        for pattern in PATTERNS {
            check_straps(&rt, &order, pattern)?;
        }
    }
    Ok(())
}
