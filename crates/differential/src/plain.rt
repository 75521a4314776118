// A plan as its calls see it: an order, a number of nodes, and truth tables.
use crate::held::Held;
use crate::parts::count_parts;
use std::alloc::{AllocError, Global};

#[derive(Drop)]
pub struct Plain<'a> {
    pub order: &'a [u8],
    pub size: usize,
    pub used: usize,
    lines: Vec<Option<Held>>,
}

// What a call leaves on a line.
#[derive(Drop)]
pub enum Change {
    Nothing,
    Put(u8, Held),
    Empty(u8),
}

impl Change {
    // The line that is held from now on.
    pub fn held_line(&self) -> Option<u8> {
        match self {
            Change::Put(line, _) => Some(*line),
            Change::Nothing | Change::Empty(_) => None,
        }
    }
}

impl<'a> Plain<'a> {
    pub fn new(heap: Global, order: &'a [u8], size: usize) -> Result<Plain<'a>, AllocError> {
        let mut lines = Vec::new(heap);
        for _ in 0..32 {
            lines.push(None)?;
        }
        Ok(Plain {
            order,
            size,
            used: 0,
            lines,
        })
    }

    pub fn pins(&self) -> usize {
        self.order.len()
    }

    // The least length of the work.
    pub fn work(&self) -> usize {
        let levels = self.pins().saturating_add(1);
        let rows = self.size.saturating_add(2);
        levels.saturating_mul(rows).saturating_mul(4)
    }

    pub fn line(&self, line: u8) -> Option<&Held> {
        match self.lines.get(usize::from(line)) {
            Some(Some(held)) => Some(held),
            _ => None,
        }
    }

    // The tables of the held lines one behind the other, their pins in order.
    pub fn ordered(&self, heap: Global) -> Result<Vec<u16>, AllocError> {
        let mut codes = Vec::new(heap);
        for line in &self.lines {
            if let Some(held) = line {
                codes.extend_from_slice(&held.ordered)?;
            }
        }
        Ok(codes)
    }

    // Whether an overlay of two lines is settled somewhere by which of them is on the left.
    pub fn has_tie(&self, left: u8, right: u8) -> bool {
        match (self.line(left), self.line(right)) {
            (Some(a), Some(b)) => a.truth.ties_with(&b.truth),
            _ => false,
        }
    }

    // Whether lines have parts in common.
    pub fn shares(&self) -> bool {
        let mut counts = 0usize;
        for line in &self.lines {
            if let Some(held) = line {
                counts = counts.saturating_add(held.count);
            }
        }
        counts > self.used
    }

    // The number of different parts with one line more.
    pub fn used_with(&self, heap: Global, held: &Held) -> Result<usize, AllocError> {
        let mut codes = self.ordered(heap)?;
        codes.extend_from_slice(&held.ordered)?;
        count_parts(heap, self.pins(), &codes)
    }

    pub fn change(&mut self, heap: Global, change: Change) -> Result<(), AllocError> {
        let (line, held) = match change {
            Change::Nothing => return Ok(()),
            Change::Put(line, held) => (line, Some(held)),
            Change::Empty(line) => (line, None),
        };
        if let Some(at) = self.lines.get_mut(usize::from(line)) {
            *at = held;
        }
        self.used = count_parts(heap, self.pins(), &self.ordered(heap)?)?;
        Ok(())
    }
}
