// What a source says of its blocks, and what a truth table says of them.
ghost use Rattle.std.specs.Prelude.{◌≤◌};

use ends::end::End;
use sources::block::Block;
use sources::source::{Answer, Source};
use std::process::Abort;

// A block, and what is told of it in codes.
#[derive(Clone, Copy, PartialEq, Eq, Debug)]
pub struct Asked {
    pub block: Block,
    pub told: Answer<u16>,
}

pub fn told_by<S: Source>(source: &S, block: Block) -> Asked {
    let told = source.ask(block).map(|end| end.encode());
    Asked { block, told }
}

// What is true of the addresses of an answer and one more. It is what the test reckons, and no conversion.
fn and_one_more(told: Answer<u16>, code: u16) -> Answer<u16> {
    match told {
        Answer::All(held) if held != code => Answer::Mixed,
        Answer::Outside => Answer::All(code),
        _ => told,
    }
}

// The truth of a block, found by looking at every address: those of the block have it as their top bits.
fn true_of(codes: &[u16], pins: u32, block: Block) -> Asked
    requires { pins ≤ 20 }
{
    let told = match pins.checked_sub(block.level) {
        Some(below) => codes
            .iter()
            .zip(0..1u32 << pins)
            .filter(|(_, address)| address >> below == block.number)
            .fold(Answer::Outside, |told, (code, _)| and_one_more(told, *code)),
        None => Answer::Outside,
    };
    Asked { block, told }
}

// Blocks that no source has.
const NOWHERE: [(u32, u32); 20] = [
    (0, 1),
    (0, u32::MAX),
    (1, 2),
    (1, u32::MAX),
    (7, 128),
    (19, 1 << 19),
    (20, 1 << 20),
    (20, u32::MAX),
    (21, 0),
    (21, 1 << 20),
    (31, 0),
    (31, 1 << 31),
    (32, 0),
    (32, 1),
    (33, 1),
    (64, 0),
    (64, 1),
    (1 << 16, 0),
    (u32::MAX, 0),
    (u32::MAX, u32::MAX),
];

pub fn check_nowhere<S: Source>(rt: &impl Abort, source: &S) {
    for (level, number) in NOWHERE {
        let block = Block { level, number };
        let told = Answer::Outside;
        assert_eq!(rt; told_by(source, block), Asked { block, told });
    }
}

// Every block of a level, and two past the last.
fn check_level<S: Source>(rt: &impl Abort, source: &S, codes: &[u16], pins: u32, level: u32)
    requires { (pins ≤ 20) × (level ≤ 21) }
{
    for number in 0..(1u32 << level) + 2 {
        let block = Block { level, number };
        assert_eq!(rt; told_by(source, block), true_of(codes, pins, block));
    }
}

// A source of this truth table, asked for the blocks of all its levels, of one level more, and for wild ones.
pub fn check_source<S: Source>(rt: &impl Abort, source: &S, codes: &[u16]) {
    let pins = source.pins();
    for level in 0..pins + 2 {
        check_level(rt, source, codes, pins, level);
    }
    check_nowhere(rt, source);
}
