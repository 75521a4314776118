// Maps of 20 pins with one change of the end, at the edges of every level.
ghost use Rattle.std.specs.Prelude.{◌≤◌};

use crate::asking::{Asked, check_nowhere, told_by};
use map_tests::building::{bit_map, range_map, setting_map};
use readers::bit_file::BitFile;
use readers::range_file::RangeFile;
use readers::setting_file::SettingFile;
use sources::block::Block;
use sources::flipped::Flipped;
use sources::inverted::Inverted;
use sources::mounted::Mounted;
use sources::source::{Answer, Source};
use std::process::Abort;
use std::test::Fail;

const TOP: u32 = (1 << 20) - 1;

// One code below an address, and another from it on.
#[derive(Clone, Copy)]
struct Step {
    low: u16,
    at: u32,
    high: u16,
}

impl Step {
    fn new(low: u16, at: u32, high: u16) -> Step {
        Step { low, at, high }
    }
}

// What is true of a block of the step: where the step is at a block's first address, it is not inside.
fn true_of(step: Step, block: Block) -> Asked
    requires { block.level ≤ 20 }
{
    let Block { level, number } = block;
    let own = step.at >> (20 - level);
    let told = if number >= 1 << level {
        Answer::Outside
    } else if number < own {
        Answer::All(step.low)
    } else if number == own && own << (20 - level) != step.at {
        Answer::Mixed
    } else {
        Answer::All(step.high)
    };
    Asked { block, told }
}

// The blocks at the edges of a level, and those about the step.
fn check_level<S: Source>(rt: &impl Abort, source: &S, step: Step, level: u32)
    requires { level ≤ 20 }
{
    let last = (1u32 << level) - 1;
    let own = step.at >> (20 - level);
    for number in [
        0,
        1,
        last.saturating_sub(1),
        last,
        last + 1,
        own.saturating_sub(1),
        own,
        own.saturating_add(1),
    ] {
        let block = Block { level, number };
        assert_eq!(rt; told_by(source, block), true_of(step, block));
    }
}

fn check_step<S: Source>(rt: &impl Abort, source: &S, step: Step) {
    assert_eq!(rt; source.pins(), 20);
    for level in 0..21 {
        check_level(rt, source, step, level);
    }
    check_nowhere(rt, source);
}

// The first addresses, the last ones, and those about the middle.
const CHANGES: [u32; 10] = [
    1,
    2,
    3,
    0x3_FFFF,
    0x7_FFFF,
    0x8_0000,
    0x8_0001,
    0xC_0000,
    TOP - 1,
    TOP,
];

#[test]
fn files_of_bits(rt: HostRuntime) -> Result<(), Fail> {
    for at in CHANGES {
        let step = Step::new(0, at, 1);
        let bytes = bit_map(rt.alloc(), 20, &[at])?;
        check_step(&rt, &BitFile::over(&bytes), step);
        let bytes = range_map(rt.alloc(), 20, &[(at, TOP)])?;
        check_step(&rt, &RangeFile::over(&bytes), step);
    }
    Ok(())
}

#[test]
fn files_of_settings(rt: HostRuntime) -> Result<(), Fail> {
    for at in CHANGES {
        let bytes = setting_map(rt.alloc(), 20, 127, &[(at, 8)])?;
        check_step(&rt, &SettingFile::over(&bytes), Step::new(127, at, 8));
    }
    Ok(())
}

fn check_flipped<S: Source>(rt: &impl Abort, source: &S, step: Step) -> Result<(), Fail> {
    check_step(rt, &Flipped::new(source, TOP)?, step);
    Ok(())
}

fn check_mounted<S: Source<Of = bool>>(
    rt: &impl Abort,
    source: &S,
    base: u32,
    fill: bool,
    step: Step,
) -> Result<(), Fail> {
    check_step(rt, &Mounted::new(source, 20, base, fill)?, step);
    Ok(())
}

// The switch at the top address, under each layer.
#[test]
fn layers(rt: HostRuntime) -> Result<(), Fail> {
    let bytes = bit_map(rt.alloc(), 20, &[TOP])?;
    let file = BitFile::over(&bytes);
    check_step(&rt, &Inverted::new(file), Step::new(1, TOP, 0));
    check_flipped(&rt, &file, Step::new(1, 1, 0))?;
    check_mounted(&rt, &file, 0, true, Step::new(0, TOP, 1))
}

// One pin, mounted at the top and at the bottom of 20 pins.
#[test]
fn mounts(rt: HostRuntime) -> Result<(), Fail> {
    let bytes = bit_map(rt.alloc(), 1, &[1])?;
    let file = BitFile::over(&bytes);
    check_mounted(&rt, &file, TOP / 2, false, Step::new(0, TOP, 1))?;
    check_mounted(&rt, &file, 0, true, Step::new(0, 1, 1))
}
