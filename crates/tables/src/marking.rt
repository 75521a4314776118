ghost use Rattle.std.specs.Prelude.{◌≡◌, ℕ, ◌<◌, ◌≤◌, List, length, slice_index, Decides};
ghost use Rattle.tables.specs.Indexes.{nonzero, filled};
ghost use Rattle.tables.specs.Markings.{Marks, MarksRoots, Counts};

use crate::line::Line;
use crate::reading::node_at;
use model::{Branch, Node};

// Writes 0 into each entry.
pub(crate) fn clear(entries: &mut [u32])
    ensures { (i : ℕ) → slice_index entries.new i ≡ 0 }
{
    entries.fill(0);
}

// Whether a node is in the table and not marked.
pub(crate) fn is_unmarked(marks: &[u32], i: usize) -> bool
    ensures { Decides result ((i < length marks.now) × (slice_index marks.now i ≡ 0)) }
{
    marks.get(i) == Some(&0)
}

// Marks what is reached from a branch whose places are `place` and later, but is not marked yet.
#[tactic(auto, using(crate::proofs::Marks::passed_over))]
fn mark_from(nodes: &[Node], marks: &mut [u32], pins: u8, place: u8, branch: Branch)
    ensures { Marks pins nodes.now marks.old place branch marks.new }
{
    let Branch::Node(i) = branch else {
        return;
    };
    if !is_unmarked(marks, i as usize) {
        return;
    }
    let node = node_at(nodes, i);
    if !(place..pins).contains(&node.place) {
        return;
    }
    marks[i as usize] = 1;
    mark_from(nodes, marks, pins, node.place + 1, node.low);
    mark_from(nodes, marks, pins, node.place + 1, node.high);
}

// Marks exactly the nodes that are reached from the held lines.
pub fn mark_roots(nodes: &[Node], marks: &mut [u32], pins: u8, lines: &[Line])
    ensures { MarksRoots pins nodes.now lines.now marks.new }
{
    clear(marks);
    for root in lines.iter().flatten() {
        mark_from(nodes, marks, pins, 0, *root);
    }
}

// How many entries are not 0: a sum with no branch, which the compiler turns into wide additions.
#[tactic(auto, using(crate::proofs::Counts::filled_summed))]
fn count_filled(entries: &[u32]) -> usize
    ensures { result ≡ filled entries.now }
{
    entries
        .iter()
        .map(
            |entry: &u32| -> usize
                ensures { result ≡ nonzero entry.now }
            { usize::from(*entry != 0) },
        )
        .sum()
}

// How many nodes are marked.
#[tactic(auto, using(crate::proofs::Counts::counts_told))]
pub fn count_marks(marks: &[u32]) -> usize
    ensures filled { result ≡ filled marks.now }
    ensures counts { Counts marks.now result }
{
    count_filled(marks)
}
