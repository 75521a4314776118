// Parts, counted by writing all of them down.
use crate::truth::{Table, bit_of};
use map_tests::truth::code_at;
use std::alloc::{AllocError, Global};
use std::array;

// What is left of a table once the pins before a place are fixed; at every address, so that the fixed bits do not matter.
#[derive(Clone, Copy, PartialEq, Eq)]
struct Part {
    place: usize,
    codes: Table,
}

// The table with these bits of the address taken from the values.
fn cofactor(codes: &Table, fixed: usize, values: usize) -> Table {
    array::from_fn(|address| {
        let free = (address | fixed) ^ fixed;
        code_at(codes, free | values & fixed)
    })
}

fn matters(codes: &Table, bit: usize) -> bool {
    codes
        .iter()
        .enumerate()
        .any(|(address, code)| *code != code_at(codes, address ^ bit))
}

fn add_parts(
    parts: &mut Vec<Part>,
    codes: &Table,
    place: usize,
    fixed: usize,
    bit: usize,
) -> Result<(), AllocError> {
    for values in 0..16 {
        let part = Part {
            place,
            codes: cofactor(codes, fixed, values),
        };
        if matters(&part.codes, bit) && !parts.contains(&part) {
            parts.push(part)?;
        }
    }
    Ok(())
}

// The number of different parts of some tables together.
pub fn count_parts(heap: Global, tables: &[Table], order: &[u8]) -> Result<usize, AllocError> {
    let mut parts = Vec::new(heap);
    let mut fixed = 0;
    for (place, pin) in order.iter().enumerate() {
        let bit = bit_of(order.len(), *pin);
        for codes in tables {
            add_parts(&mut parts, codes, place, fixed, bit)?;
        }
        fixed |= bit;
    }
    Ok(parts.len())
}
