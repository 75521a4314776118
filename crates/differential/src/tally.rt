// What was seen in rows of calls, and how often.
use crate::call::Name;
use faults::fault::{Fault, Ground};
use std::alloc::{AllocError, Global};

// A call that went through, one that was refused, one that was refused on the first ground while the second held too;
// an overlay that took the left of two ends that tie; and a listing of lines with parts in common.
#[derive(Clone, Copy, PartialEq, Eq, Debug)]
pub enum Seen {
    Done(Name),
    Refused(Name, Ground),
    Contested(Name, Ground, Ground),
    Tie,
    Shared,
}

#[derive(Clone, Copy)]
struct Times {
    seen: Seen,
    times: usize,
}

#[derive(Drop)]
pub struct Tally {
    all: Vec<Times>,
}

impl Tally {
    pub fn new(heap: Global) -> Tally {
        Tally {
            all: Vec::new(heap),
        }
    }

    pub fn note(&mut self, seen: Seen) -> Result<(), AllocError> {
        for known in self.all.iter_mut() {
            if known.seen == seen {
                known.times = known.times.saturating_add(1);
                return Ok(());
            }
        }
        self.all.push(Times { seen, times: 1 })?;
        Ok(())
    }

    // A call with all grounds that held.
    pub fn note_call(&mut self, name: Name, faults: &[Fault]) -> Result<(), AllocError> {
        match faults {
            [] => self.note(Seen::Done(name)),
            [only] => self.note(Seen::Refused(name, only.ground)),
            [first, second, ..] => {
                self.note(Seen::Refused(name, first.ground))?;
                self.note(Seen::Contested(name, first.ground, second.ground))
            },
        }
    }

    pub fn times(&self, seen: Seen) -> usize {
        self.all
            .iter()
            .find(|known| known.seen == seen)
            .map_or(0, |known| known.times)
    }
}
