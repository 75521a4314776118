ghost use Rattle.std.specs.Prelude.{length};
ghost use Rattle.plans.specs.Holding.{Did};
ghost use Rattle.workbench.specs.Joinings.{join_call};

use ends::joining::{Both, Differ, Either, Overlay};
use faults::fault::Fault;
use model::Node;
use plans::open::OpenPlan;
use scripts::request::How;

// Joins two lines on a third, by a joining of that name. A joining is a type, and a script names it by a value.
pub fn join(
    plan: &mut OpenPlan,
    how: How,
    left: u8,
    right: u8,
    line: u8,
    nodes: &mut [Node],
    work: &mut [u32],
) -> Result<(), Fault>
    ensures { Did plan.old.header nodes.old (join_call how left right line (length nodes.old) (length work.old)) result plan.new.header nodes.new }
{
    match how {
        How::Both => plan.join(&Both, left, right, line, nodes, work),
        How::Either => plan.join(&Either, left, right, line, nodes, work),
        How::Differ => plan.join(&Differ, left, right, line, nodes, work),
        How::Overlay => plan.join(&Overlay, left, right, line, nodes, work),
    }
}
