ghost use Rattle.std.specs.Prelude.{◌≡◌, true, false};
ghost use Rattle.listings.specs.Labels.{short};
ghost use Rattle.listings.specs.Rows.{filled, room, KeepsLoan};
ghost use Rattle.listings.specs.Fronts.{asks, Meets, MeetsBoth, MeetsLines, Advances, Picks, PicksAll};
ghost use Rattle.model.specs.Diagrams.{listed, next};
ghost use Rattle.model.specs.declared.Branch.TheVariants.{Node as node};

use crate::row::Row;
use model::{Branch, Node};
use tables::line::Line;
use tables::reading::{node_at, step};

// The number of a node as it is kept in a row of the work.
// By `%`: `as` alone asks for a proof that the entry fits, and a row may hold anything.
pub(crate) fn number_in(entry: u32) -> u16
    ensures { result ≡ short entry }
{
    (entry % 65536) as u16
}

// Puts the node of a branch behind a front, if it is not there yet.
// The marks stand apart from the row: both rows of nodes use them in turn.
fn meet(front: &mut Row<u32>, seen: &mut [u32], branch: Branch)
    ensures loan { KeepsLoan front.old front.new }
    ensures meets { Meets (room front.old) (filled front.old) seen.old branch (filled front.new) seen.new }
{
    let Branch::Node(i) = branch else {
        return;
    };
    let at = usize::from(i);
    if at < seen.len() && seen[at] == 0 {
        seen[at] = 1;
        front.push(u32::from(i));
    }
}

// The front of the lines' roots, in the order of the lines.
pub(crate) fn meet_lines(front: &mut Row<u32>, seen: &mut [u32], lines: &[Line])
    ensures loan { KeepsLoan front.old front.new }
    ensures meets { MeetsLines lines.now (room front.old) (filled front.new) seen.new }
{
    front.clear();
    seen.fill(0);
    // By `if let`: the library has no lemma of a loop over flattened options.
    for line in lines {
        if let Some(root) = *line {
            meet(front, seen, root);
        }
    }
}

// A node table, seen at a place.
#[derive(Clone, Copy)]
pub(crate) struct Level<'a> {
    pub(crate) nodes: &'a [Node],
    pub(crate) place: u8,
}

impl<'a> Level<'a> {
    // Where a node leads by the pin: low, and high.
    fn both_ways(self, i: u16) -> (Branch, Branch)
        ensures low { result.0 ≡ next (listed self.entry.nodes.now) self.entry.place false (node i) }
        ensures high { result.1 ≡ next (listed self.entry.nodes.now) self.entry.place true (node i) }
    {
        let node = Branch::Node(i);
        (
            step(self.nodes, self.place, false, node),
            step(self.nodes, self.place, true, node),
        )
    }

    // Puts the nodes to which a node leads by the pin behind a front: low, then high.
    fn meet_both(self, front: &mut Row<u32>, seen: &mut [u32], i: u16)
        ensures loan { KeepsLoan front.old front.new }
        ensures meets { MeetsBoth (listed self.entry.nodes.now) self.entry.place i (room front.old) (filled front.old) seen.old (filled front.new) seen.new }
    {
        let (low, high) = self.both_ways(i);
        meet(front, seen, low);
        meet(front, seen, high);
    }

    // The next front, to which a front leads by the pin.
    pub(crate) fn advance(self, front: &[u32], ahead: &mut Row<u32>, seen: &mut [u32])
        ensures loan { KeepsLoan ahead.old ahead.new }
        ensures advances { Advances (listed self.entry.nodes.now) self.entry.place front.now (room ahead.old) (filled ahead.new) seen.new }
    {
        ahead.clear();
        seen.fill(0);
        for entry in front {
            self.meet_both(ahead, seen, number_in(*entry));
        }
    }

    // Whether a node asks the pin.
    fn asks_pin(self, entry: u32) -> bool
        ensures { result ≡ asks (listed self.entry.nodes.now) self.entry.place (short entry) }
    {
        node_at(self.nodes, number_in(entry)).place == self.place
    }

    // Puts a node behind the numbered ones, if it asks the pin.
    fn pick(self, order: &mut Row<u32>, entry: u32)
        ensures loan { KeepsLoan order.old order.new }
        ensures picks { Picks (listed self.entry.nodes.now) self.entry.place entry (room order.old) (filled order.old) (filled order.new) }
    {
        if self.asks_pin(entry) {
            order.push(entry);
        }
    }

    // Puts the nodes of a front that ask the pin behind the numbered ones.
    pub(crate) fn pick_all(self, front: &[u32], order: &mut Row<u32>)
        ensures loan { KeepsLoan order.old order.new }
        ensures picks { PicksAll (listed self.entry.nodes.now) self.entry.place front.now (room order.old) (filled order.old) (filled order.new) }
    {
        for entry in front {
            self.pick(order, *entry);
        }
    }
}
