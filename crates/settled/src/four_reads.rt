ghost use Rattle.settled.specs.Readings.{ReadsEach};

use faults::fault::Fault;
use model::Node;
use plans::open::OpenPlan;
use std::array;

// A line of a plan of two pins, read at each address.
pub(crate) fn read_each(plan: &OpenPlan, nodes: &[Node], line: u8) -> [Result<u16, Fault>; 4]
    ensures { ReadsEach plan.now.header nodes.now line result }
{
    array::from_fn(|address| plan.read(nodes, line, address as u32))
}
