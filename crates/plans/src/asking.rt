// The calls that alter nothing.
ghost use Rattle.std.specs.Prelude.{◌≡◌, [], ◌∷◌, length, Some};
ghost use Rattle.plans.specs.Holding.{order_of, Reads, Counts, Compares, Uses};
ghost use Rattle.plans.specs.Reaching.{ReachesMany};

use crate::header::Header;
use crate::line_number::LineNumber;
use crate::marking::{Marking, reached_count};
use crate::open::OpenPlan;
use crate::plan::Plan;
use faults::fault::Fault;
use model::{Branch, Node};

impl Header {
    // The pins, in their order.
    pub(crate) fn order(&self) -> &[u8]
        ensures { result.now ≡ order_of self.now }
    {
        let pins = usize::from(self.pins);
        &self.order[0..pins]
    }

    // How many nodes a root reaches.
    fn reached_from(&self, root: Branch, over: &mut Marking) -> u16
        ensures { ReachesMany self.now.pins over.old.nodes.now (Some root ∷ []) result }
    {
        reached_count(over, self.pins, &[Some(root)])
    }

    pub(crate) fn read(&self, nodes: &[Node], line: u8, address: u32) -> Result<u16, Fault>
        ensures { Reads self.now nodes.now line address result }
    {
        let line = self.check_read(line, address, nodes.len())?;
        let root = self.root(line)?;
        Ok(tables::reading::read(nodes, self.order(), root, address))
    }
}

impl<S> Plan<S> {
    // The code of a line at an address.
    pub fn read(&self, nodes: &[Node], line: u8, address: u32) -> Result<u16, Fault>
        ensures { Reads self.now.header nodes.now line address result }
    {
        self.header.read(nodes, line, address)
    }
}

impl OpenPlan {
    // Whether two held lines have one selection.
    pub fn same(&self, a: u8, b: u8) -> Result<bool, Fault>
        ensures { Compares self.now.header a b result }
    {
        let a = LineNumber::new(a)?;
        let b = LineNumber::new(b)?;
        let left = self.header.root(a)?;
        let right = self.header.root(b)?;
        Ok(left == right)
    }

    // The number of nodes that the held lines use.
    pub fn used(&self) -> u16
        ensures { Uses self.now.header result }
    {
        self.header.usage.used
    }

    // The number of nodes of one line.
    pub fn count(&self, nodes: &[Node], work: &mut [u32], line: u8) -> Result<u16, Fault>
        ensures { Counts self.now.header nodes.now line (length work.old) result }
    {
        let line = self.header.check_held(line, nodes.len(), work.len())?;
        let root = self.header.root(line)?;
        let mut over = Marking::over(nodes, work);
        Ok(self.header.reached_from(root, &mut over))
    }
}
