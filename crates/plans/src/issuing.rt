// The steps between an open and an issued plan, and the calls on the issued one.
ghost use Rattle.std.specs.Prelude.{◌≡◌, length};
ghost use Rattle.plans.specs.Listing.{Lists};

use crate::header::Header;
use crate::issued::IssuedPlan;
use crate::open::OpenPlan;
use faults::fault::Fault;
use listings::listing::list_lines;
use model::Node;

impl Header {
    pub(crate) fn list(
        &self,
        nodes: &[Node],
        work: &mut [u32],
        buffer: &mut [u8],
    ) -> Result<usize, Fault>
        ensures { Lists self.now nodes.now (length work.old) buffer.old result buffer.new }
    {
        self.check_tables(nodes.len(), work.len())?;
        list_lines(nodes, work, self.order(), &self.lines, buffer)
    }
}

impl OpenPlan {
    // Turns the plan into an issued one, which has the same lines.
    pub fn issue(self) -> IssuedPlan
        ensures { result.header ≡ self.header }
    {
        IssuedPlan::over(self.header)
    }
}

impl IssuedPlan {
    // Turns the plan into an open one, which has the same lines.
    pub fn reopen(self) -> OpenPlan
        ensures { result.header ≡ self.header }
    {
        OpenPlan::over(self.header)
    }

    // Writes the listing of the plan at the front of a buffer, and tells its length.
    pub fn list(&self, nodes: &[Node], work: &mut [u32], buffer: &mut [u8]) -> Result<usize, Fault>
        ensures { Lists self.now.header nodes.now (length work.old) buffer.old result buffer.new }
    {
        self.header.list(nodes, work, buffer)
    }
}
