// Layers over layers, over every bit file of 2 pins. Each check writes its layers out, since they differ in type.
use crate::asking::check_source;
use crate::samples::{Sample, bits};
use crate::tables::{Table, flipped, inverted, mounted};
use ends::end::End;
use readers::bit_file::BitFile;
use sources::flipped::Flipped;
use sources::inverted::Inverted;
use sources::mounted::Mounted;
use sources::source::Source;
use std::process::Abort;
use std::test::Fail;

// A mask for 2 pins, and a base and a fill end for 4 pins.
#[derive(Clone, Copy)]
struct Stack {
    mask: u32,
    base: u32,
    fill: bool,
}

// Mounted over flipped over inverted.
fn mounted_last(codes: &Table, stack: Stack) -> Table {
    mounted(
        &flipped(&inverted(codes), stack.mask),
        2,
        stack.base,
        stack.fill.encode(),
    )
}

// The source by value, and each layer by value.
fn check_by_value<S: Source<Of = bool> + Drop>(
    rt: &impl Abort,
    source: S,
    codes: &Table,
    stack: Stack,
) -> Result<(), Fail> {
    let below = Flipped::new(Inverted::new(source), stack.mask)?;
    let made = Mounted::new(below, 4, stack.base, stack.fill)?;
    check_source(rt, &made, &mounted_last(codes, stack));
    Ok(())
}

fn check_by_reference<S: Source<Of = bool>>(
    rt: &impl Abort,
    source: &S,
    codes: &Table,
    stack: Stack,
) -> Result<(), Fail> {
    let line = Inverted::new(source);
    let below = Flipped::new(&line, stack.mask)?;
    let made = Mounted::new(&below, 4, stack.base, stack.fill)?;
    check_source(rt, &&made, &mounted_last(codes, stack));
    Ok(())
}

// Inverted over flipped over mounted. The mask turns over the pins of the base too.
fn check_mounted_first<S: Source<Of = bool> + Drop>(
    rt: &impl Abort,
    source: S,
    codes: &Table,
    stack: Stack,
) -> Result<(), Fail> {
    let mask = stack.mask % 4 * 5;
    let below = Mounted::new(source, 4, stack.base, stack.fill)?;
    let made = Inverted::new(Flipped::new(below, mask)?);
    let codes = mounted(codes, 2, stack.base, stack.fill.encode());
    check_source(rt, &made, &inverted(&flipped(&codes, mask)));
    Ok(())
}

// Mounted in 3 pins, and that in 5 pins with the other fill end.
fn check_mounted_twice<S: Source<Of = bool> + Drop>(
    rt: &impl Abort,
    source: S,
    codes: &Table,
    stack: Stack,
) -> Result<(), Fail> {
    let base = stack.mask % 2;
    let other = !stack.fill;
    let below = Mounted::new(source, 3, base, stack.fill)?;
    let made = Mounted::new(below, 5, stack.base, other)?;
    let codes = mounted(codes, 2, base, stack.fill.encode());
    check_source(rt, &made, &mounted(&codes, 3, stack.base, other.encode()));
    Ok(())
}

fn check_stack(rt: &impl Abort, sample: &Sample, stack: Stack) -> Result<(), Fail> {
    let file = BitFile::over(&sample.bytes);
    check_by_value(rt, file, &sample.codes, stack)?;
    check_by_reference(rt, &file, &sample.codes, stack)?;
    check_mounted_first(rt, file, &sample.codes, stack)?;
    check_mounted_twice(rt, file, &sample.codes, stack)
}

#[test]
fn stacks_of_three(rt: HostRuntime) -> Result<(), Fail> {
    for pattern in 0..16 {
        let sample = bits(rt.alloc(), 2, pattern)?;
        for mask in 0..4 {
            for base in 0..4 {
                for fill in [false, true] {
                    check_stack(&rt, &sample, Stack { mask, base, fill })?;
                }
            }
        }
    }
    Ok(())
}
