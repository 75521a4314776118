ghost use Rattle.std.specs.Prelude.{◌≡◌, ◌+◌, ◌*◌, ◌≤◌, ◌++◌, [], map, length};
ghost use Rattle.model.specs.Diagrams.{listed};
ghost use Rattle.model.specs.Listings.{bytes, node_bytes, line_reference};
ghost use Rattle.model.specs.Lists.{each, flat};
ghost use Rattle.listings.specs.Labels.{relabel, labelled, head};
ghost use Rattle.listings.specs.Rows.{filled, room, KeepsLoan};

use crate::fronts::number_in;
use crate::labels::{line_bytes, node_bytes};
use crate::numbers::Numbering;
use crate::row::Row;
use model::Node;
use tables::line::Line;
use tables::reading::node_at;

// The pins of a listing, in their order.
#[derive(Clone, Copy)]
pub(crate) struct Pins<'a> {
    pub(crate) order: &'a [u8],
    ghost few: { length order.now ≤ 20 },
}

// Writes what stands before the nodes: the mark LST, version 1, the pins, the order and the used number.
fn put_head(out: &mut Row<u8>, pins: Pins, numbering: Numbering)
    requires { length (filled out.old) + 8 + length pins.order.now ≤ room out.old }
    ensures loan { KeepsLoan out.old out.new }
    ensures written { filled out.new ≡ filled out.old ++ head pins.entry.order.now (length numbering.entry.order.now) }
{
    out.extend_from_slice(b"LST\x00\x01");
    out.push(pins.order.len() as u8);
    out.extend_from_slice(pins.order);
    out.extend_from_slice(&numbering.used_bytes());
}

// Writes the nodes of a list, under their numbers.
// Apart from `put_lines`: one function for both takes a closure that answers `[u8; N]`, and a bound `Fn` that names a const parameter gets no proof.
fn put_nodes(out: &mut Row<u8>, nodes: &[Node], numbering: Numbering)
    requires { length (filled out.old) + 7 * length numbering.order.now ≤ room out.old }
    ensures loan { KeepsLoan out.old out.new }
    ensures written { filled out.new ≡ filled out.old ++ flat node_bytes (labelled (listed nodes.now) numbering.entry.order.now numbering.entry.numbers.now []).nodes }
{
    for entry in numbering.order {
        let node = numbering.relabel_node(node_at(nodes, number_in(*entry)));
        out.extend_from_slice(&node_bytes(node));
    }
}

// Writes the references of lines, under the numbers of nodes.
fn put_lines(out: &mut Row<u8>, numbering: Numbering, lines: &[Line])
    requires { length (filled out.old) + 3 * length lines.now ≤ room out.old }
    ensures loan { KeepsLoan out.old out.new }
    ensures written { filled out.new ≡ filled out.old ++ flat line_reference (map (each (relabel numbering.entry.numbers.now)) lines.now) }
{
    for line in lines {
        out.extend_from_slice(&line_bytes(numbering.relabel_line(*line)));
    }
}

// Writes the whole listing into a room of just its length.
// No struct of all that is read: `list_lines` gets each part at a lifetime of its own, and the struct would have to name all four.
pub(crate) fn write_listing(
    room: &mut [u8],
    pins: Pins,
    nodes: &[Node],
    numbering: Numbering,
    lines: &[Line],
)
    requires { length room.old ≡ 8 + length pins.order.now + 7 * length numbering.order.now + 3 * length lines.now }
    ensures { room.new ≡ bytes pins.entry.order.now (labelled (listed nodes.now) numbering.entry.order.now numbering.entry.numbers.now lines.now) }
{
    let mut out = Row::over(room);
    put_head(&mut out, pins, numbering);
    put_nodes(&mut out, nodes, numbering);
    put_lines(&mut out, numbering, lines);
}
