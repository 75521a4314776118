// Truth tables of patterns, and map files of them.
use crate::tables::{SETTINGS, Table};
use map_tests::samples::{bit_file, range_file, setting_file};
use map_tests::truth;
use std::alloc::{AllocError, Global};

// A truth table, and a map file of it.
#[derive(Drop)]
pub struct Sample {
    pub codes: Table,
    pub bytes: Vec<u8>,
}

// All tables of bits of 1, 2 and 3 pins: the pins, and how many patterns there are.
pub const ALL_BITS: [(usize, u64); 3] = [(1, 4), (2, 16), (3, 256)];

// All tables of four settings of 1 and 2 pins.
pub const ALL_SETTINGS: [(usize, u64); 2] = [(1, 16), (2, 256)];

// Three makers that are alike: one over all of them would take the writer as a closure, with a `requires`, and save a line
// in each.
pub fn settings(heap: Global, pins: usize, pattern: u64) -> Result<Sample, AllocError> {
    let codes = truth::settings(&SETTINGS, pins, pattern);
    let bytes = setting_file(heap, pins, &codes)?;
    Ok(Sample { codes, bytes })
}

pub fn bits(heap: Global, pins: usize, pattern: u64) -> Result<Sample, AllocError> {
    let codes = truth::bits(pins, pattern);
    let bytes = bit_file(heap, pins, &codes)?;
    Ok(Sample { codes, bytes })
}

pub fn ranges(heap: Global, pins: usize, pattern: u64) -> Result<Sample, AllocError> {
    let codes = truth::bits(pins, pattern);
    let bytes = range_file(heap, pins, &codes)?;
    Ok(Sample { codes, bytes })
}
