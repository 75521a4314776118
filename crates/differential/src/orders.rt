// Orders of pins.
use crate::chance::Chance;
use std::alloc::{AllocError, Global};

pub fn rising(heap: Global, pins: u8) -> Result<Vec<u8>, AllocError> {
    (0..pins).collect(heap)
}

pub fn falling(heap: Global, pins: u8) -> Result<Vec<u8>, AllocError> {
    (0..pins).rev().collect(heap)
}

// Each pin is dealt a number, and the numbers are sorted.
pub fn shuffled(heap: Global, chance: &mut Chance, pins: u8) -> Result<Vec<u8>, AllocError> {
    let mut dealt = Vec::new(heap);
    for pin in 0..pins {
        dealt.push((chance.below(u32::MAX), pin))?;
    }
    dealt.sort_unstable();
    dealt.iter().map(|(_, pin)| *pin).collect(heap)
}
