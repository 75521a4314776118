ghost use Rattle.std.specs.Prelude.{◌≡◌, ℕ, ◌≤◌, Bool, length, IfOk};
ghost use Rattle.growths.specs.Codes.{code_join, decodes};
ghost use Rattle.growths.specs.Growths.{Grows};
ghost use Rattle.model.specs.Diagrams.{listed, tree};
ghost use Rattle.model.specs.Joins.{join as join_trees};
ghost use Rattle.model.specs.Lists.{In, held};
ghost use Rattle.plans.specs.Decoding.{Checks};
ghost use Rattle.plans.specs.Holding.{Did};
ghost use Rattle.plans.specs.Plain.{join, join_refusal};
ghost use Rattle.plans.specs.Results.{refusal};

use crate::header::Header;
use crate::line_number::LineNumber;
use crate::marking::Marking;
use crate::open::OpenPlan;
use ends::end::End;
use ends::joining::Joining;
use faults::fault::{Fault, Ground};
use growths::codes::codes_pass;
use growths::roots::join_roots;
use model::{Branch, Node};

impl Header {
    // What a join asks of its arguments.
    fn check_join(
        &self,
        a: u8,
        b: u8,
        d: u8,
        nodes: usize,
        work: usize,
    ) -> Result<(LineNumber, LineNumber, LineNumber), Fault>
        ensures told { refusal result ≡ join_refusal self.now.pins self.now.size a b d nodes work }
        ensures same { IfOk result (λ ats. (ats.0.number ≡ a) × (ats.1.number ≡ b) × (ats.2.number ≡ d)) }
    {
        let a = LineNumber::new(a)?;
        let b = LineNumber::new(b)?;
        let d = LineNumber::new(d)?;
        self.check_tables(nodes, work)?;
        Ok((a, b, d))
    }

    // Whether each code on a line decodes in the joining's kind.
    // No `Marking` is taken: in `join` two of them, one after the other, are a reference at an intersection of lifetimes.
    fn check_codes<E: End>(
        &self,
        line: LineNumber,
        root: Branch,
        nodes: &[Node],
        work: &mut [u32],
    ) -> Result<(), Fault>
        requires { length nodes.now ≤ length work.old }
        ensures { Checks (decodes E.End.decoded) self.now.pins nodes.now root line.number result }
    {
        let marks = &mut work[..nodes.len()];
        if codes_pass::<E>(nodes, marks, self.pins, root) {
            Ok(())
        } else {
            Err(Ground::Undecoded.at(usize::from(line.number)))
        }
    }

    // A root for what a joining makes of two roots, beside the lines of the plan. None where no slot is left.
    fn grow_join<J: Joining>(
        &self,
        joining: &J,
        left: Branch,
        right: Branch,
        nodes: &mut [Node],
        work: &mut [u32],
    ) -> Option<Branch>
        ensures { In left (held self.now.lines) → In right (held self.now.lines) → Grows self.now.pins nodes.old work.old self.now.lines (join_trees (code_join J.Of.End.decoded J.Of.End.code J.Joining.joined) (tree (listed nodes.old) self.now.pins 0 left) (tree (listed nodes.old) self.now.pins 0 right)) nodes.new result }
    {
        join_roots(joining, nodes, work, self.pins, &self.lines, left, right)
    }
}

impl OpenPlan {
    // Puts on an empty line, at every address, the code of what a joining makes of the ends of two held lines.
    pub fn join<J: Joining>(
        &mut self,
        joining: &J,
        a: u8,
        b: u8,
        d: u8,
        nodes: &mut [Node],
        work: &mut [u32],
    ) -> Result<(), Fault>
        ensures { Did self.old.header nodes.old (join (decodes J.Of.End.decoded) (code_join J.Of.End.decoded J.Of.End.code J.Joining.joined) a b d (length nodes.old) (length work.old)) result self.new.header nodes.new }
    {
        let (a, b, d) = self.header.check_join(a, b, d, nodes.len(), work.len())?;
        let left = self.header.root(a)?;
        let right = self.header.root(b)?;
        self.header.check_vacant(d)?;
        self.header.check_codes::<J::Of>(a, left, nodes, work)?;
        self.header.check_codes::<J::Of>(b, right, nodes, work)?;
        let grown = self.header.grow_join(joining, left, right, nodes, work);
        self.header
            .settle(d, grown, &mut Marking::over(nodes, work))
    }
}
