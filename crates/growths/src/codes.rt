ghost use Rattle.std.specs.Prelude.{◌≡◌, ◌<◌, ◌↔◌, true, length, slice_index, IsTrue, EachIndex};
ghost use Rattle.model.specs.Diagrams.{listed};
ghost use Rattle.growths.specs.Codes.{decodes, end_passes, node_passes, Passes, EveryAddressPasses};

use ends::end::End;
use model::{Branch, Node};
use tables::line::Line;
use tables::marking::mark_roots;

// Whether the code of an end decodes in the kind E; a node has none.
fn end_decodes<E: End>(branch: Branch) -> bool
    ensures { result ≡ end_passes (decodes E.End.decoded) branch }
{
    match branch {
        Branch::End(code) => E::decode(code).is_some(),
        Branch::Node(_) => true,
    }
}

// Whether the codes of a node's ends decode in the kind E.
fn node_decodes<E: End>(node: Node) -> bool
    ensures { result ≡ node_passes (decodes E.End.decoded) node }
{
    end_decodes::<E>(node.low) && end_decodes::<E>(node.high)
}

// Whether each marked node's codes decode in the kind E.
fn marked_decode<E: End>(nodes: &[Node], marks: &[u32]) -> bool
    requires { length marks.now ≡ length nodes.now }
    ensures { IsTrue result ↔ EachIndex nodes.now (λ i. 0 < slice_index marks.now i → node_passes (decodes E.End.decoded) (listed nodes.now i) ≡ true) }
{
    nodes
        .iter()
        .zip(marks)
        .all(|(node, mark)| *mark == 0 || node_decodes::<E>(*node))
}

// Whether every code of a root's diagram decodes in the kind E, with a mark for each node. The marks are overwritten.
pub fn codes_pass<E: End>(nodes: &[Node], marks: &mut [u32], pins: u8, root: Branch) -> bool
    ensures { Passes (decodes E.End.decoded) pins nodes.now marks.old root result }
{
    if marks.len() != nodes.len() || !end_decodes::<E>(root) {
        return false;
    }
    mark_roots(nodes, marks, pins, &[Some(root)]);
    marked_decode::<E>(nodes, marks)
}

// Every code of a selection's tree passes exactly when the code at every address passes.
pub fn every_address_passes()
    ensures { EveryAddressPasses }
{}
