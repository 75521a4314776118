ghost use Rattle.std.specs.Prelude.{◌≡◌};
ghost use Rattle.model.specs.Diagrams.{listed, tree};
ghost use Rattle.model.specs.Joins.{join, strap};
ghost use Rattle.model.specs.Lists.{In, held};
ghost use Rattle.growths.specs.Codes.{code_join};
ghost use Rattle.growths.specs.Growths.{Grows};

use crate::joins::apply;
use crate::straps::restrict;
use ends::end::End;
use ends::joining::Joining;
use model::{Branch, Node};
use tables::adding::Growing;
use tables::line::Line;

// A root for the join of two roots, beside what the held lines reach. None where no slot is left.
// Prepared and then grown, as in `strap_root`, and in `draw_root` of drawings. Tried: a function that takes the growth as
// a closure. It saves a line in each, and asks for a `requires` and a clause that names both states of the table.
pub fn join_roots<J: Joining>(
    joining: &J,
    nodes: &mut [Node],
    work: &mut [u32],
    pins: u8,
    lines: &[Line],
    left: Branch,
    right: Branch,
) -> Option<Branch>
    ensures { In left (held lines.now) → In right (held lines.now) → Grows pins nodes.old work.old lines.now (join (code_join J.Of.End.decoded J.Of.End.code J.Joining.joined) (tree (listed nodes.old) pins 0 left) (tree (listed nodes.old) pins 0 right)) nodes.new result }
{
    let mut growing = Growing::prepare(nodes, work, pins, lines);
    apply(joining, &mut growing, 0, left, right)
}

// A root for another root with the pin at a place set, beside what the held lines reach. None where no slot is left.
pub fn strap_root(
    nodes: &mut [Node],
    work: &mut [u32],
    pins: u8,
    lines: &[Line],
    at: u8,
    high: bool,
    root: Branch,
) -> Option<Branch>
    ensures { In root (held lines.now) → Grows pins nodes.old work.old lines.now (strap at high (tree (listed nodes.old) pins 0 root)) nodes.new result }
{
    let mut growing = Growing::prepare(nodes, work, pins, lines);
    restrict(&mut growing, 0, at, high, root)
}
