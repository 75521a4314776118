// The refusals that come from the arguments of a call, and from what its lines hold.
ghost use Rattle.std.specs.Prelude.{◌≡◌, ℕ, ◌^◌, length, None, IfOk, MatchResult, slice_index_or};
ghost use Rattle.faults.specs.Refusals.{at};
ghost use Rattle.faults.specs.declared.fault.Ground.TheVariants.{LineEmpty, LineTaken};
ghost use Rattle.plans.specs.Plain.{other_table, other_tables, count_refusal, read_refusal};
ghost use Rattle.plans.specs.Results.{refusal};

use crate::header::Header;
use crate::line_number::LineNumber;
use crate::work::work_for;
use faults::fault::{Fault, Ground};
use model::Branch;
use tables::line::Line;

impl Header {
    pub(crate) fn check_nodes(&self, nodes: usize) -> Result<(), Fault>
        ensures { refusal result ≡ other_table self.now.size nodes None }
    {
        if nodes != self.size {
            return Err(Ground::NodeTable.at(nodes));
        }
        Ok(())
    }

    pub(crate) fn check_tables(&self, nodes: usize, work: usize) -> Result<(), Fault>
        ensures { refusal result ≡ other_tables self.now.pins self.now.size nodes work }
    {
        self.check_nodes(nodes)?;
        if work < work_for(self.pins, self.size as u16) {
            return Err(Ground::Work.at(work));
        }
        Ok(())
    }

    // What erase, count and draw ask of a line and the tables.
    // Here and in the checks of other calls the lengths are two numbers: a struct of both would be made anew at each call.
    pub(crate) fn check_held(
        &self,
        line: u8,
        nodes: usize,
        work: usize,
    ) -> Result<LineNumber, Fault>
        ensures told { refusal result ≡ count_refusal self.now.pins self.now.size line nodes work }
        ensures same { IfOk result (λ at. at.number ≡ line) }
    {
        let line = LineNumber::new(line)?;
        self.check_tables(nodes, work)?;
        Ok(line)
    }

    pub(crate) fn check_read(
        &self,
        line: u8,
        address: u32,
        nodes: usize,
    ) -> Result<LineNumber, Fault>
        ensures told { refusal result ≡ read_refusal self.now.pins self.now.size line address nodes }
        ensures same { IfOk result (λ at. at.number ≡ line) }
    {
        let line = LineNumber::new(line)?;
        if address >= 1 << self.pins {
            return Err(Ground::ReadAddress.at(address as usize));
        }
        self.check_nodes(nodes)?;
        Ok(line)
    }

    fn line(&self, line: LineNumber) -> Line
        ensures { result ≡ slice_index_or self.now.lines line.number None }
    {
        self.lines[usize::from(line.number)]
    }

    // The root of a held line; an empty one stops the call. By `let .. else`, a form that the project asks for.
    pub(crate) fn root(&self, line: LineNumber) -> Result<Branch, Fault>
        ensures { MatchResult result (λ root. slice_index_or self.now.lines line.number None ≡ Some root) (λ f. (slice_index_or self.now.lines line.number None ≡ None) × (f ≡ at LineEmpty line.number)) }
    {
        let Some(root) = self.line(line) else {
            return Err(Ground::LineEmpty.at(usize::from(line.number)));
        };
        Ok(root)
    }

    // A line that is still empty.
    pub(crate) fn check_vacant(&self, line: LineNumber) -> Result<(), Fault>
        ensures { MatchResult result (λ _. slice_index_or self.now.lines line.number None ≡ None) (λ f. ((b : Branch) × (slice_index_or self.now.lines line.number None ≡ Some b)) × (f ≡ at LineTaken line.number)) }
    {
        if self.line(line).is_some() {
            return Err(Ground::LineTaken.at(usize::from(line.number)));
        }
        Ok(())
    }
}
