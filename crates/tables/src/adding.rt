ghost use Rattle.std.specs.Prelude.{◌≡◌, ◌+◌, ◌<◌, ◌≤◌, length, None, slice_set};
ghost use Rattle.model.specs.Diagrams.{listed, next};
ghost use Rattle.tables.specs.Additions.{AddsNode, KeepsLoans, Prepares};
ghost use Rattle.tables.specs.Probes.{Freed, Probed};

use crate::indexing::{Found, MOST_NODES, free_slot, index_marked, probe};
use crate::line::Line;
use crate::marking::mark_roots;
use crate::reading::step;
use model::{Branch, Node};

// Cuts marks and index out of the work, marks what is reached from the held lines, and makes the index over it.
// With more nodes than any plan has, or work too short for both, there are no marks, and all the work is the index.
// Apart from `Growing::prepare`, for callers that only read their nodes.
pub fn prepare<'a>(
    nodes: &[Node],
    work: &'a mut [u32],
    pins: u8,
    lines: &[Line],
) -> (&'a mut [u32], &'a mut [u32])
    ensures { Prepares pins nodes.now work.old lines.now result.0.now result.1.now }
{
    let len = nodes.len();
    if len > MOST_NODES || work.len() < 3 * len + 2 {
        return work.split_at_mut(0);
    }
    let (marks, rest) = work.split_at_mut(len);
    let (index, _) = rest.split_at_mut(2 * len + 2);
    mark_roots(nodes, marks, pins, lines);
    index_marked(nodes, marks, index);
    (marks, index)
}

// A node table that grows, with marks and an index over its live nodes. All three are memory lent by the caller,
// so nodes go by number, a mark is 0 or 1, and an entry of the index is 0 or a slot's number and 1.
// A growth answers None where no slot is left. So it does where the tables were not made ready, of which nothing is promised:
// marks of another length than the nodes tell that, and not an option, so that each growth is total over any tables.
#[derive(Drop)]
pub struct Growing<'a> {
    pub nodes: &'a mut [Node],
    pub marks: &'a mut [u32],
    pub index: &'a mut [u32],
    pub pins: u8,
}

impl<'a> Growing<'a> {
    // The table made ready to grow beside the held lines, as `prepare` makes marks and index.
    pub fn prepare(
        nodes: &'a mut [Node],
        work: &'a mut [u32],
        pins: u8,
        lines: &[Line],
    ) -> Growing<'a>
        ensures same { result.nodes.ghost_name ≡ nodes.entry.ghost_name }
        ensures nodes { result.nodes.now ≡ nodes.old }
        ensures pins { result.pins ≡ pins }
        ensures prepared { Prepares pins nodes.old work.old lines.now result.marks.now result.index.now }
    {
        let (marks, index) = prepare(nodes, work, pins, lines);
        Growing {
            nodes,
            marks,
            index,
            pins,
        }
    }

    // Where the pin at a place, low or high, leads from a branch.
    pub fn step(&self, place: u8, high: bool, branch: Branch) -> Branch
        ensures { result ≡ next (listed self.now.nodes.now) place high branch }
    {
        step(self.nodes, place, high, branch)
    }

    // Looks a node up in the index. One call may not lend two fields, so both are borrowed first.
    fn find(&self, wanted: Node) -> Found
        requires { length self.now.nodes.now ≤ 4096 }
        ensures { Probed self.now.nodes.now self.now.index.now wanted result }
    {
        let nodes = &*self.nodes;
        let index = &*self.index;
        probe(nodes, index, wanted)
    }

    // A slot that is not live.
    fn free(&self, start: usize) -> Option<usize>
        ensures { Freed self.now.marks.now result }
    {
        free_slot(self.marks, start)
    }

    // Puts a node into a slot, marks it, and enters it into the index.
    fn occupy(&mut self, slot: usize, at: usize, node: Node)
        requires room { slot < length self.old.nodes.now }
        requires long { length self.old.marks.now ≡ length self.old.nodes.now }
        requires few { length self.old.nodes.now ≤ 4096 }
        requires vacant { at < length self.old.index.now }
        ensures loans { KeepsLoans self.old self.new }
        ensures nodes { self.new.nodes.now ≡ slice_set self.old.nodes.now slot node }
        ensures marks { self.new.marks.now ≡ slice_set self.old.marks.now slot 1 }
        ensures index { self.new.index.now ≡ slice_set self.old.index.now at (slot + 1) }
    {
        self.nodes[slot] = node;
        self.marks[slot] = 1;
        self.index[at] = slot as u32 + 1;
    }

    // A branch for the pin at a place with two branches: the branch itself where both are one,
    // the live node that is alike, or else a new node in a slot that is not live. None where no slot is left,
    // and where the place is past the pins.
    pub fn node_for(&mut self, place: u8, low: Branch, high: Branch) -> Option<Branch>
        ensures loans { KeepsLoans self.old self.new }
        ensures adds { AddsNode place low high self.old self.new result }
        ensures past { self.old.pins ≤ place → (result ≡ None) × (self.new.nodes.now ≡ self.old.nodes.now) }
    {
        let len = self.nodes.len();
        if self.marks.len() != len || len > MOST_NODES || place >= self.pins {
            return None;
        }
        if low == high {
            return Some(low);
        }
        let wanted = Node { place, low, high };
        match self.find(wanted) {
            Found::At(i) => Some(Branch::Node(i)),
            Found::Full => None,
            Found::Vacant(at) => {
                let slot = self.free(at)?;
                self.occupy(slot, at, wanted);
                Some(Branch::Node(slot as u16))
            }
        }
    }
}
