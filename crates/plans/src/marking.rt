ghost use Rattle.std.specs.Prelude.{◌≡◌, ◌≤◌, length};
ghost use Rattle.plans.specs.Reaching.{ReachesMany};

use model::Node;
use tables::line::Line;
use tables::marking::{count_marks, mark_roots};

// A node table, with a mark for each node. Not a type of tables, whose public functions take the two slices apart: it would
// ask more of their callers.
#[derive(Drop)]
pub(crate) struct Marking<'a> {
    pub(crate) nodes: &'a [Node],
    marks: &'a mut [u32],
    ghost few: { length nodes.now ≤ 4096 },
    ghost marked: { length marks.now ≡ length nodes.now },
}

impl<'a> Marking<'a> {
    // The marks are at the front of the work table.
    pub(crate) fn over(nodes: &'a [Node], work: &'a mut [u32]) -> Marking<'a>
        requires few { length nodes.now ≤ 4096 }
        requires room { length nodes.now ≤ length work.old }
        ensures { result.nodes.now ≡ nodes.now }
    {
        let marks = &mut work[..nodes.len()];
        Marking { nodes, marks }
    }
}

// How many nodes are reached from some lines.
pub(crate) fn reached_count(over: &mut Marking, pins: u8, lines: &[Line]) -> u16
    ensures { ReachesMany pins over.old.nodes.now lines.now result }
{
    mark_roots(over.nodes, over.marks, pins, lines);
    count_marks(over.marks) as u16
}
