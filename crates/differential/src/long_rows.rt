// Long rows of calls on plans of many sizes.
use crate::bench::Bench;
use crate::chance::Chance;
use crate::orders::{falling, rising, shuffled};
use crate::tally::Tally;
use crate::wanted::check_rows_seen;
use std::process::Abort;
use std::test::Fail;

// A row on a new plan; after some calls all is looked at, and the plan listed.
fn run_row(
    rt: &(impl Abort + AllocGlobal),
    seed: u64,
    order: &[u8],
    size: usize,
    rounds: u8,
    tally: &mut Tally,
) -> Result<(), Fail> {
    let mut bench = Bench::new(rt.alloc(), seed, order, size)?;
    for _ in 0..rounds {
        for _ in 0..12 {
            bench.step(rt, tally)?;
        }
        bench.check_all(rt)?;
        bench = bench.list(rt, tally)?;
    }
    Ok(())
}

// Rows in three orders, with tables of all these sizes.
fn run_rows(
    rt: &(impl Abort + AllocGlobal),
    pins: u8,
    sizes: &[usize],
    rounds: u8,
    tally: &mut Tally,
) -> Result<(), Fail> {
    let heap = rt.alloc();
    let mut chance = Chance::new(u64::from(pins));
    for size in sizes {
        let orders = [
            rising(heap, pins)?,
            falling(heap, pins)?,
            shuffled(heap, &mut chance, pins)?,
        ];
        for order in &orders {
            let seed = u64::from(chance.below(u32::MAX));
            run_row(rt, seed, order, *size, rounds, tally)?;
        }
    }
    Ok(())
}

#[test]
fn of_one_to_four_pins(rt: HostRuntime) -> Result<(), Fail> {
    let mut tally = Tally::new(rt.alloc());
    for pins in 1..=4 {
        run_rows(&rt, pins, &[1, 2, 5, 16, 90], 40, &mut tally)?;
    }
    check_rows_seen(&rt, &tally)
}

#[test]
fn of_five_to_seven_pins(rt: HostRuntime) -> Result<(), Fail> {
    let mut tally = Tally::new(rt.alloc());
    for pins in 5..=7 {
        run_rows(&rt, pins, &[6, 30, 150, 1000], 60, &mut tally)?;
    }
    check_rows_seen(&rt, &tally)
}

#[test]
fn of_eight_to_ten_pins(rt: HostRuntime) -> Result<(), Fail> {
    let mut tally = Tally::new(rt.alloc());
    for pins in 8..=10 {
        run_rows(&rt, pins, &[20, 200, 4096], 64, &mut tally)?;
    }
    check_rows_seen(&rt, &tally)
}
