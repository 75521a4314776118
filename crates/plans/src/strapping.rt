ghost use Rattle.std.specs.Prelude.{◌≡◌, Bool, length, IfOk};
ghost use Rattle.growths.specs.Growths.{Grows};
ghost use Rattle.model.specs.Diagrams.{listed, tree};
ghost use Rattle.model.specs.Joins.{strap as strap_tree};
ghost use Rattle.model.specs.Lists.{In, held};
ghost use Rattle.model.specs.Orders.{place_in};
ghost use Rattle.plans.specs.Holding.{Did, order_of};
ghost use Rattle.plans.specs.Plain.{strap, strap_refusal};
ghost use Rattle.plans.specs.Results.{refusal};

use crate::header::Header;
use crate::line_number::LineNumber;
use crate::marking::Marking;
use crate::open::OpenPlan;
use crate::order::place_of_pin;
use faults::fault::{Fault, Ground};
use growths::roots::strap_root;
use model::{Branch, Node};

impl Header {
    // What a strap asks of its arguments.
    fn check_strap(
        &self,
        a: u8,
        pin: u8,
        d: u8,
        nodes: usize,
        work: usize,
    ) -> Result<(LineNumber, LineNumber), Fault>
        ensures told { refusal result ≡ strap_refusal self.now.pins self.now.size a pin d nodes work }
        ensures same { IfOk result (λ ats. (ats.0.number ≡ a) × (ats.1.number ≡ d)) }
    {
        let a = LineNumber::new(a)?;
        let d = LineNumber::new(d)?;
        if pin >= self.pins {
            return Err(Ground::StrapPin.at(usize::from(pin)));
        }
        self.check_tables(nodes, work)?;
        Ok((a, d))
    }

    // A root for another root with a pin set low or high, beside the lines of the plan. None where no slot is left.
    fn grow_strap(
        &self,
        root: Branch,
        pin: u8,
        high: bool,
        nodes: &mut [Node],
        work: &mut [u32],
    ) -> Option<Branch>
        ensures { In root (held self.now.lines) → Grows self.now.pins nodes.old work.old self.now.lines (strap_tree (place_in (order_of self.now) pin) high (tree (listed nodes.old) self.now.pins 0 root)) nodes.new result }
    {
        let at = place_of_pin(self.order(), pin);
        strap_root(nodes, work, self.pins, &self.lines, at, high, root)
    }
}

impl OpenPlan {
    // Puts on an empty line a held line's selection with one pin set low or high.
    pub fn strap(
        &mut self,
        a: u8,
        pin: u8,
        high: bool,
        d: u8,
        nodes: &mut [Node],
        work: &mut [u32],
    ) -> Result<(), Fault>
        ensures { Did self.old.header nodes.old (strap a pin high d (length nodes.old) (length work.old)) result self.new.header nodes.new }
    {
        let (a, d) = self.header.check_strap(a, pin, d, nodes.len(), work.len())?;
        let root = self.header.root(a)?;
        self.header.check_vacant(d)?;
        let grown = self.header.grow_strap(root, pin, high, nodes, work);
        self.header
            .settle(d, grown, &mut Marking::over(nodes, work))
    }
}
