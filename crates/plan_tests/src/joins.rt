// Joins of all tables of bits of 2 pins, and of all tables of four settings of 1 pin, also of a line with itself.
use crate::bench::{Bench, DONE};
use crate::steps::Step;
use scripts::request::How;
use std::process::Abort;
use std::test::Fail;

fn check_join(rt: &(impl Abort + AllocGlobal), bench: &mut Bench, how: How) -> Result<(), Fail> {
    for step in [
        Step::Join(how, 0, 1, 2),
        Step::Join(how, 1, 0, 3),
        Step::Join(how, 0, 0, 4),
        Step::Erase(2),
        Step::Erase(3),
        Step::Erase(4),
    ] {
        bench.step(rt, step, DONE)?;
    }
    Ok(())
}

// The joinings of two maps.
fn check_pair(
    rt: &(impl Abort + AllocGlobal),
    order: &[u8],
    maps: [Step; 2],
    hows: &[How],
) -> Result<(), Fail> {
    let mut bench = Bench::new(rt.alloc(), order, 8)?;
    for map in maps {
        bench.step(rt, map, DONE)?;
    }
    for how in hows {
        check_join(rt, &mut bench, *how)?;
    }
    Ok(())
}

#[test]
fn of_bits(rt: HostRuntime) -> Result<(), Fail> {
    for left in 0..16 {
        for right in 0..16 {
            let maps = [Step::Bits(left, 0), Step::Bits(right, 1)];
            check_pair(&rt, &[1, 0], maps, &[How::Both, How::Either, How::Differ])?;
        }
    }
    Ok(())
}

#[test]
fn of_settings(rt: HostRuntime) -> Result<(), Fail> {
    for left in 0..16 {
        for right in 0..16 {
            let maps = [Step::Settings(left, 0), Step::Settings(right, 1)];
            check_pair(&rt, &[0], maps, &[How::Overlay])?;
        }
    }
    Ok(())
}
