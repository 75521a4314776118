ghost use Rattle.std.specs.Prelude.{length};
ghost use Rattle.plans.specs.Holding.{Did};
ghost use Rattle.plans.specs.Plain.{erase};

use crate::marking::Marking;
use crate::open::OpenPlan;
use faults::fault::Fault;
use model::Node;
use tables::line::Line;

impl OpenPlan {
    // Empties a held line. Its nodes that no other line reaches are there to be had again.
    pub fn erase(&mut self, nodes: &[Node], work: &mut [u32], line: u8) -> Result<(), Fault>
        ensures { Did self.old.header nodes.now (erase line (length nodes.now) (length work.old)) result self.new.header nodes.now }
    {
        let line = self.header.check_held(line, nodes.len(), work.len())?;
        self.header.root(line)?;
        self.header.put(line, None, &mut Marking::over(nodes, work));
        Ok(())
    }
}
