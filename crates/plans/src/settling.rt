ghost use Rattle.plans.specs.Settling.{Put, Settles};

use crate::header::{Header, Usage};
use crate::line_number::LineNumber;
use crate::marking::{Marking, reached_count};
use faults::fault::{Fault, Ground};
use model::Branch;
use tables::line::Line;

impl Header {
    // Changes a line, and tells the used number anew.
    pub(crate) fn put(&mut self, line: LineNumber, what: Line, over: &mut Marking)
        ensures { Put self.old over.old.nodes.now line.number what self.new }
    {
        self.lines[usize::from(line.number)] = what;
        let used = reached_count(over, self.pins, &self.lines);
        self.usage = Usage { used };
    }

    // Puts the root that was grown on a line, or refuses where there was no room for it.
    pub(crate) fn settle(
        &mut self,
        line: LineNumber,
        root: Option<Branch>,
        over: &mut Marking,
    ) -> Result<(), Fault>
        ensures { Settles self.old over.old.nodes.now line.number root result self.new }
    {
        let root = root.ok_or(Ground::Parts.at(self.size))?;
        self.put(line, Some(root), over);
        Ok(())
    }
}
