use model::{MOST_PINS, Node};
use rows::lent::Tables;
use scripts::request::Request;
use std::alloc::{AllocError, Global};
use tables::indexing::MOST_NODES;
use trees::tree::Record;
use workbench::answer::{Answer, Misplaced};
use workbench::carrying::carry_out;
use workbench::desk::Desk;

// As many records as the largest map needs: a range file of 1,024 ranges on 20 pins changes 2,048 times.
const RECORDS: usize = 40_960;

// What a plan of 20 pins and the most nodes asks for.
const WORK: usize = 4 * (MOST_PINS + 1) * (MOST_NODES + 2);

// The longest listing.
const BUFFER: usize = 104 + MOST_PINS + 7 * MOST_NODES;

// The desk and the tables that are lent to its calls, taken once.
#[derive(Drop)]
pub(crate) struct Bench {
    desk: Desk,
    nodes: Vec<Node>,
    records: Vec<Record>,
    work: Vec<u32>,
    buffer: Vec<u8>,
}

impl Bench {
    pub(crate) fn new(heap: Global) -> Result<Bench, AllocError> {
        Ok(Bench {
            desk: Desk::bare(),
            nodes: vec![in heap; Node::blank(); MOST_NODES]?,
            records: vec![in heap; Record::blank(); RECORDS]?,
            work: vec![in heap; 0; WORK]?,
            buffer: vec![in heap; 0; BUFFER]?,
        })
    }

    pub(crate) fn carry_out(
        &mut self,
        request: &Request,
        bytes: &[u8],
    ) -> Result<Answer, Misplaced> {
        let mut tables = Tables {
            nodes: &mut self.nodes,
            records: &mut self.records,
            work: &mut self.work,
        };
        carry_out(
            &mut self.desk,
            request,
            bytes,
            &mut tables,
            &mut self.buffer,
        )
    }

    // The listing that the last call wrote, by its length.
    pub(crate) fn listing(&self, len: usize) -> &[u8] {
        &self.buffer[..len.min(self.buffer.len())]
    }
}
