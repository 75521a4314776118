ghost use Rattle.std.specs.Prelude.{◌≡◌, ℕ, ◌+◌, ◌%◌, ◌^◌, ◌<◌, ◌≤◌, length};
ghost use Rattle.tables.specs.Indexes.{spread, spread_branch};
ghost use Rattle.tables.specs.Probes.{Probed, Freed, Enters, Indexes};

use crate::marking::{clear, is_unmarked};
use crate::reading::node_at;
use model::{Branch, Node};

// The most nodes that a table may have.
pub const MOST_NODES: usize = 4096;

fn spread_branch(branch: Branch) -> u32
    ensures value { result ≡ spread_branch branch }
    ensures small { result < 2 ^ 17 }
{
    match branch {
        Branch::End(c) => 2 * u32::from(c),
        Branch::Node(i) => 2 * u32::from(i) + 1,
    }
}

// Where the probes for a node begin.
fn spread_node(node: Node) -> u32
    ensures { result ≡ spread node }
{
    u32::from(node.place) + 31 * spread_branch(node.low) + 977 * spread_branch(node.high)
}

// The node's slot, or the entry where it belongs, or neither in a full index.
#[derive(Clone, Copy)]
pub enum Found {
    At(u16),
    Vacant(usize),
    Full,
}

// Looks a node up in the index.
// That a table has at most 4,096 nodes, so that a slot fits in 16 bits, stays a premise here and below: the slices are parts
// of a `Growing`, which is made over tables of any length, so that no growth asks for anything.
pub(crate) fn probe(nodes: &[Node], index: &[u32], wanted: Node) -> Found
    requires { length nodes.now ≤ 4096 }
    ensures { Probed nodes.now index.now wanted result }
{
    let start = spread_node(wanted) as usize;
    // A chain of two ranges is no plainer: `Probed` counts the probes too.
    for e in 0..index.len() {
        let at = (start + e) % index.len();
        let entry = index[at];
        if entry == 0 {
            return Found::Vacant(at);
        }
        let slot = entry as usize - 1;
        if nodes.get(slot) == Some(&wanted) {
            return Found::At(slot as u16);
        }
    }
    Found::Full
}

// A slot that is not live, sought from some slot on, going round.
pub(crate) fn free_slot(marks: &[u32], start: usize) -> Option<usize>
    ensures { Freed marks.now result }
{
    let start = start.checked_rem(marks.len())?;
    (start..marks.len())
        .chain(0..start)
        .find(|slot| is_unmarked(marks, *slot))
}

// Enters the node of a slot into the index, unless one alike is there or the index is full.
fn enter(nodes: &[Node], index: &mut [u32], slot: usize)
    requires few { length nodes.now ≤ 4096 }
    requires inside { slot < length nodes.now }
    ensures { Enters nodes.now index.old slot index.new }
{
    if let Found::Vacant(at) = probe(nodes, index, nodes[slot]) {
        index[at] = slot as u32 + 1;
    }
}

// Makes the index anew, over the marked nodes.
pub fn index_marked(nodes: &[Node], marks: &[u32], index: &mut [u32])
    ensures { Indexes nodes.now marks.now index.new }
{
    clear(index);
    if marks.len() != nodes.len() || nodes.len() > MOST_NODES {
        return;
    }
    for (slot, mark) in marks.iter().enumerate() {
        if *mark != 0 {
            enter(nodes, index, slot);
        }
    }
}
