// A line that is held, with what follows from its codes.
use crate::parts::count_parts;
use crate::truth::Truth;
use std::alloc::{AllocError, Global};

#[derive(Drop)]
pub struct Held {
    pub truth: Truth,
    // The codes with the pins in the order of the plan.
    pub ordered: Vec<u16>,
    pub count: usize,
}

impl Held {
    pub fn new(heap: Global, order: &[u8], truth: Truth) -> Result<Held, AllocError> {
        let ordered = truth.in_order(heap, order)?;
        let count = count_parts(heap, order.len(), &ordered)?;
        Ok(Held {
            truth,
            ordered,
            count,
        })
    }
}
